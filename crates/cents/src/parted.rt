// Shares in parts of a cent, each as whole cents and what is left of it.
ghost use Rattle.std.specs.Prelude.{◌≡◌, ℕ, ◌*◌, ◌/◌, ◌%◌, ◌^◌, ◌<◌, List, length, slice_index};
ghost use Rattle.wire.specs.Bytes.{Fitting};

use wire::Numbers;

// Shares in parts of a cent.
pub trait Parted {
    ghost parts: { Self → ℕ };

    ghost items: { Self → List ℕ };

    // How many there are. Their bytes can be counted (`room`), and each of them is a word (`fit`). A cent has parts.
    fn count(&self) -> usize
        ensures long { result ≡ length (items self.now) }
        ensures room { 8 * result < 2 ^ 63 }
        ensures fit { Fitting (items self.now) }
        ensures parted { 0 < parts self.now };

    // The parts of a cent.
    fn parts(&self) -> u64
        ensures { result ≡ parts self.now };

    // The share at a place, rounded down to whole cents, and what is then left of it: of no share nothing.
    fn at(&self, i: usize) -> (u64, u64)
        ensures whole { result.0 ≡ slice_index (items self.now) i / parts self.now }
        ensures left { result.1 ≡ slice_index (items self.now) i % parts self.now };
}

// Shares that are handed in: each is divided by the parts of a cent.
#[derive(Debug, Drop)]
pub struct Handed<L> {
    pub(crate) parts: u64,
    pub(crate) shares: L,
    ghost parted: { 0 < parts },
}

impl<L: Numbers> Parted for Handed<L> {
    ghost parts = { λ h. h.parts };

    ghost items = { λ h. L.items h.shares };

    fn count(&self) -> usize {
        self.shares.count()
    }

    fn parts(&self) -> u64 {
        self.parts
    }

    #[tactic(auto, using(crate::proofs::Amounts::at_steps))]
    fn at(&self, i: usize) -> (u64, u64) {
        let share = self.shares.get(i).unwrap_or(0);
        (share / self.parts, share % self.parts)
    }
}
