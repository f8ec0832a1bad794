// A line's bytes: where a byte stands first. Assumes nothing.
ghost use Rattle.std.specs.Prelude.{◌≡◌, ◌≤◌, length};
ghost use Rattle.text.specs.Fronts as spec;

pub const SPACE: u8 = 32;

// How many bytes stand before the first `b`.
pub fn before(s: &[u8], b: u8) -> usize
    ensures { (result ≡ length (spec.before b s.now)) × (result ≤ length s.now) }
{
    s.iter().position(|x| *x == b).unwrap_or(s.len())
}
