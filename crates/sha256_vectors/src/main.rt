// Vectors of SHA-256, run and compared: the published ones (FIPS 180-4 and NIST's examples), and the first n bytes of a pattern, byte i being
// i * 7 + 3 modulo 256, for each n from 0 to 200, at once and in three parts. What those are to be is read from standard input, a line of
// 64 hexadecimal digits each, which another implementation gave. A line of output per vector. Assumes nothing.
#![tactic(auto)]

use std::fmt::Display;
use std::io::{ErrorKind, Read, Write};
use std::{array, io};

const LONGEST: usize = 200;

// 64 digits and the end of the line
const DIGITS: usize = 64;

const LINE: usize = 65;

const LINES: usize = 13065;

fn hex(d: [u8; 32]) -> [u8; DIGITS] {
    let digits = b"0123456789abcdef";
    array::from_fn(|i| {
        let b = d[i / 2];
        let half = if i % 2 == 0 { b / 16 } else { b % 16 };
        digits[usize::from(half)]
    })
}

// The line of one vector: its name, its digest, and whether that is the expected one.
fn vector<N: Display>(
    out: &mut impl Write,
    name: &N,
    d: [u8; 32],
    expected: &[u8],
) -> io::Result<()> {
    let h = hex(d);
    write!(out, "{name}: ")?;
    out.write_all(&h)?;
    if &h[..] == expected {
        writeln!(out, " as expected")
    } else {
        writeln!(out, " NOT AS EXPECTED")
    }
}

fn million() -> [u8; 32] {
    let a = [b'a'; 1000];
    let mut h = sha256::Hasher::new();
    for _ in 0..1000 {
        h = h.absorb(&a);
    }
    h.finish()
}

fn pattern() -> [u8; LONGEST] {
    array::from_fn(|i| ((i * 7 + 3) % 256) as u8)
}

fn in_parts(m: &[u8]) -> [u8; 32] {
    let a = m.len() / 3;
    let e = m.len() - a / 2;
    sha256::Hasher::new()
        .absorb(&m[..a])
        .absorb(&m[a..e])
        .absorb(&m[e..])
        .finish()
}

// The messages of 0 to 200 bytes, and a digest of all their digests, absorbed one by one.
fn messages(out: &mut impl Write, expected: &[u8; LINES]) -> io::Result<[u8; 32]> {
    let m = pattern();
    let mut all = sha256::Hasher::new();
    let (lines, _) = expected.as_chunks::<LINE>();
    for (n, line) in lines.iter().enumerate() {
        let line = &line[..DIGITS];
        let front = &m[..n];
        let d = sha256::digest(front);
        vector(out, &format_args!("{n:03} bytes"), d, line)?;
        vector(out, &"  in parts", in_parts(front), line)?;
        all = all.absorb(&d);
    }
    Ok(all.finish())
}

// The published vectors.
fn published(out: &mut impl Write) -> io::Result<()> {
    for (name, d, expected) in [
        (
            "empty message",
            sha256::digest(b""),
            b"e3b0c44298fc1c149afbf4c8996fb92427ae41e4649b934ca495991b7852b855",
        ),
        (
            "abc",
            sha256::digest(b"abc"),
            b"ba7816bf8f01cfea414140de5dae2223b00361a396177a9cb410ff61f20015ad",
        ),
        (
            "448 bits",
            sha256::digest(b"abcdbcdecdefdefgefghfghighijhijkijkljklmklmnlmnomnopnopq"),
            b"248d6a61d20638b8e5c026930c3e6039a33ce45964ff2167f6ecedd419db06c1",
        ),
        (
            "896 bits",
            sha256::digest(
                b"abcdefghbcdefghicdefghijdefghijkefghijklfghijklmghijklmnhijklmnoijklmnopjklmnopqklmnopqrlmnopqrsmnopqrstnopqrstu",
            ),
            b"cf5b16a778af8380036ce59e7b0492370b249b11e8f07a51afac45037afee9d1",
        ),
    ] {
        vector(out, &name, d, expected)?;
    }
    // by itself, so that no line waits for a million bytes
    vector(
        out,
        &"a million a",
        million(),
        b"cdc76e5c9914fb9281a1c7e284d73e67f1809a48a497200e046d39ccc7112cd0",
    )
}

fn main(rt: HostRuntime) -> io::Result<()> {
    let mut out = rt.stdout();
    published(&mut out)?;
    let mut expected = [0u8; LINES];
    if let Err(e) = rt.stdin().read_exact(&mut expected) {
        if e.kind() == ErrorKind::UnexpectedEof {
            return writeln!(out, "standard input is not 201 lines");
        }
        return Err(e);
    }
    let together = messages(&mut out, &expected)?;
    vector(
        &mut out,
        &"the 201 digests together",
        together,
        b"3275febb4612d86d586eb9f11cd21e648a9fc7d95e0f6b8d362786e28c9c5b79",
    )
}
