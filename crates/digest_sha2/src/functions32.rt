// The functions on words of 32 bits, section 4.1.2. The operations of 3.2 are the library's: x + y is `wrapping_add`, ROTR `rotate_right`.
ghost use Rattle.std.specs.Prelude.{◌≡◌, ◌<◌};
ghost use Rattle.digest_sha2.specs.Sha2.{ch, maj, rotr³, rotr²shr};

// In three operations where the standard's form has four: Choose, of proofs/, says that they agree.
pub fn ch(x: u32, y: u32, z: u32) -> u32
    ensures { result ≡ ch 32 x y z }
{
    z ^ (x & (y ^ z))
}

// Where x and y differ z decides, elsewhere both do: x ^ y of a round is y ^ z of the next one.
pub fn maj(x: u32, y: u32, z: u32) -> u32
    ensures { result ≡ maj x y z }
{
    ch(x ^ y, z, y)
}

// Three rotations, and two with a shift: the forms of Σ₀, Σ₁ and of σ₀, σ₁. A rotation of what two rotations share is made once for both:
// Rotations, of proofs/, says that this is the standard's form.
fn rotations(x: u32, a: u32, b: u32, c: u32) -> u32
    requires a_nonzero { 0 < a }
    requires a_lt_b { a < b }
    requires b_lt_c { b < c }
    requires c_bound { c < 32 }
    ensures { result ≡ rotr³ 32 a b c x }
{
    (x ^ (x ^ x.rotate_right(c - b)).rotate_right(b - a)).rotate_right(a)
}

fn rotations_shift(x: u32, a: u32, b: u32, c: u32) -> u32
    requires a_nonzero { 0 < a }
    requires a_lt_b { a < b }
    requires b_bound { b < 32 }
    requires c_bound { c < 32 }
    ensures { result ≡ rotr²shr 32 a b c x }
{
    (x ^ x.rotate_right(b - a)).rotate_right(a) ^ (x >> c)
}

// Σ₀, Σ₁, σ₀, σ₁.
pub fn big0(x: u32) -> u32
    ensures { result ≡ rotr³ 32 2 13 22 x }
{
    rotations(x, 2, 13, 22)
}

pub fn big1(x: u32) -> u32
    ensures { result ≡ rotr³ 32 6 11 25 x }
{
    rotations(x, 6, 11, 25)
}

pub fn small0(x: u32) -> u32
    ensures { result ≡ rotr²shr 32 7 18 3 x }
{
    rotations_shift(x, 7, 18, 3)
}

pub fn small1(x: u32) -> u32
    ensures { result ≡ rotr²shr 32 17 19 10 x }
{
    rotations_shift(x, 17, 19, 10)
}
