// The directives SKIP and TODO. Assumes nothing.
ghost use Rattle.std.specs.Prelude.{◌≡◌, ◌≤◌, length, take, Option};
ghost use Rattle.words.specs.Bytes.{same};
ghost use Rattle.lines.specs.Words.{capitals, is_word_byte};
ghost use Rattle.lines.specs.Line.{is_word, directive_word, directive_at, cut_of};

use crate::{Cut, Directive, fronts};

// Letters, digits and the underscore make a word.
fn is_word_byte(b: u8) -> bool
    ensures { result ≡ is_word_byte b }
{
    b.is_ascii_alphanumeric() || b == b'_'
}

// Whether a text begins with a word of capitals, in any case.
fn begins_in_any_case(s: &[u8], word: &[u8]) -> bool
    requires { capitals word.now ≡ word.now }
    ensures { result ≡ same (capitals (take (length word.now) s.now)) word.now }
{
    word.len() <= s.len() && s[..word.len()].eq_ignore_ascii_case(word)
}

// Whether a text begins with the word, and not with a longer one that begins so.
fn is_word(s: &[u8], word: &[u8]) -> bool
    requires { capitals word.now ≡ word.now }
    ensures { result ≡ is_word word.now s.now }
{
    if !begins_in_any_case(s, word) {
        return false;
    }
    let n = word.len();
    s.len() <= n || !is_word_byte(s[n])
}

fn directive_word(s: &[u8]) -> Option<Directive>
    ensures { result ≡ directive_word s.now }
{
    if is_word(s, b"SKIP") {
        return Some(Directive::Skip);
    }
    if is_word(s, b"TODO") {
        return Some(Directive::Todo);
    }
    None
}

// The directive that begins at a text's front.
fn directive_at(s: &[u8]) -> Option<Directive>
    ensures { result ≡ directive_at s.now }
{
    let rest = s.strip_prefix(&[crate::HASH])?;
    let n = fronts::spaces(rest);
    directive_word(&rest[n..])
}

// The first directive of a text; where there is none, all bytes stand before it.
pub fn first_directive(s: &[u8]) -> Cut
    ensures { (result ≡ cut_of s.now) × (result.at ≤ length s.now) }
{
    for (at, byte) in s.iter().enumerate() {
        // nearly every byte begins none
        if *byte == crate::HASH {
            let directive = directive_at(&s[at..]);
            if directive.is_some() {
                return Cut { at, directive };
            }
        }
    }
    Cut {
        at: s.len(),
        directive: None,
    }
}
