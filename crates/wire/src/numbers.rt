// Lists of numbers that go into rows.
ghost use Rattle.std.specs.Prelude.{◌≡◌, ℕ, ◌*◌, ◌^◌, ◌<◌, List, length, slice_get};
ghost use Rattle.std.specs.List.{flat_map};
ghost use Rattle.wire.specs.Bytes.{Fitting, eight};
ghost use Rattle.wire.specs.Written.{Written};

use crate::refusals::Refusal;
use std::convert::AsSlice;

// A list of numbers: one that is held, or one that is worked out number by number as it is written.
pub trait Numbers {
    ghost items: { Self → List ℕ };

    // How many there are. Their bytes can be counted (`room`), and each of them is a word (`fit`): a list of any length and
    // any numbers would not fit bytes.
    fn count(&self) -> usize
        ensures long { result ≡ length (items self.now) }
        ensures room { 8 * result < 2 ^ 63 }
        ensures fit { Fitting (items self.now) };

    // The number at a place, if there is one.
    fn get(&self, i: usize) -> Option<u64>
        ensures { result ≡ slice_get (items self.now) i };

    // Writes them at the start of lent bytes, eight bytes each, low byte first, and says how many bytes these are.
    fn put(&self, out: &mut [u8]) -> Result<usize, Refusal>
        ensures { Written (flat_map eight (items self.now)) out.old out.new result };
}

impl<L: AsSlice<u64>> Numbers for L {
    ghost items = { L.items };

    fn count(&self) -> usize {
        // named, since the checker then knows that its numbers are words
        let list = self.as_slice();
        list.len()
    }

    fn get(&self, i: usize) -> Option<u64> {
        self.as_slice().get(i).copied()
    }

    #[tactic(auto, using(crate::proofs::Bytes::put_steps), unfolding(crate::specs::Bytes::eight))]
    fn put(&self, out: &mut [u8]) -> Result<usize, Refusal> {
        let list = self.as_slice();
        let end = 8 * list.len();
        if out.len() < end {
            return Err(Refusal::NotLent);
        }
        // By index: of a slice lent out in mutable chunks a proof knows only the length afterwards, and while it is lent
        // piece by piece (`split_first_chunk_mut`) an invariant has no word for what it holds.
        for (i, n) in list.iter().enumerate() {
            out[8 * i..8 * i + 8].copy_from_slice(&n.to_le_bytes());
        }
        Ok(end)
    }
}
