// Slots of a bank, laid one behind another where a bucket or the stash has them.
ghost use Rattle.std.specs.Prelude.{◌≡◌, ◌+◌, ◌≤◌, length};
ghost use Rattle.words.specs.Bytes.{splice};
ghost use Rattle.sizes.specs.Sizes.{record_len, slot_len};
ghost use Rattle.slots.specs.Slots.{Bytes, block_by, slot_bytes};
ghost use Rattle.placing.specs.Bank.{Inside};

use sizes::Sizes;

// The first slot of `src` into `dst` at `at`. It goes through an array of its own, which cannot overlap with either: so it is copied in a few wide
// moves and not byte by byte.
pub fn copy_slot(dst: &mut [u8], at: usize, src: &[u8])
    requires { (at + slot_len ≤ length dst.old) × (slot_len ≤ length src.now) }
    ensures { dst.new ≡ splice dst.old at (slot_bytes (block_by record_len src.now)) }
{
    let mut slot = [0u8; Sizes::SLOT];
    words::copy(&mut slot, 0, &src[..Sizes::SLOT]);
    words::copy(dst, at, &slot);
}

// The slice itself. That each of its bytes is below 256 a proof knows of a parameter, and not of a struct's field.
fn as_bytes(s: &[u8]) -> &[u8]
    ensures { (result.now ≡ s.now) × Bytes s.now }
{
    s
}

// A plan that is lent: where in the bank each block stands, and the height of the bucket that it goes to. Two arrays, not one of a struct of both:
// that takes four bytes a block where these take three, 360 in all, and tests/stack/limits leaves finish no room for them.
#[derive(Clone, Copy, Drop)]
pub struct Plan<'a> {
    pub bank: &'a [u8],
    pub places: &'a [u16],
    pub at: &'a [u8],
    pub ghost heights: { length places.now ≤ length at.now },
    pub ghost inside: { Inside bank.now places.now },
}

impl Plan<'_> {
    ghost use Rattle.std.specs.Prelude.{◌*◌};
    ghost use Rattle.sizes.specs.Sizes.{most_room};
    ghost use Rattle.slots.specs.Slots.{AllFit, slots_bytes, slots_with};
    ghost use Rattle.placing.specs.Plans.{blocks_for};

    // Lays the slots whose height is `h` from `a` on, and says where they end.
    fn lay(self, dst: &mut [u8], a: usize, h: u8) -> usize
        requires { a + slot_len * length (blocks_for self h) ≤ length dst.old }
        ensures value { result ≡ a + slot_len * length (blocks_for self.entry h) }
        ensures fit { AllFit record_len (blocks_for self.entry h) }
        ensures dst_after { dst.new ≡ splice dst.old a (slots_bytes (blocks_for self.entry h)) }
    {
        let bank = as_bytes(self.bank);
        let mut k = a;
        for (place, height) in self.places.iter().zip(self.at) {
            if *height == h {
                let from = Sizes::SLOT * usize::from(*place);
                copy_slot(dst, k, &bank[from..]);
                k += Sizes::SLOT;
            }
        }
        k
    }

    // Writes `room` slots from `a` on: those of the blocks whose height is `h`, then zeros.
    pub fn fill(self, dst: &mut [u8], a: usize, room: usize, h: u8)
        requires room_in_bounds { (a + slot_len * room ≤ length dst.old) × (room ≤ most_room) }
        requires places_len_bound { length (blocks_for self h) ≤ room }
        ensures fit { AllFit record_len (blocks_for self.entry h) }
        ensures dst_after { dst.new ≡ splice dst.old a (slots_with room (blocks_for self.entry h)) }
    {
        let k = self.lay(dst, a, h);
        let n = a + Sizes::SLOT * room - k;
        words::clear(dst, k, n);
    }
}
