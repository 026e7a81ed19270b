// A mark for each creditor, as the bits of numbers.
ghost use Rattle.std.specs.Prelude.{◌≡◌, ◌≢◌, ℕ, ◌<◌, false, ◌||◌};
ghost use Rattle.estate.specs.Limits.{most_creditors};

use estate::MOST_CREDITORS;

// How many words the marks take: one for each 64 creditors.
const WORDS: usize = MOST_CREDITORS / 64;

// Who is marked, of as many creditors as there may be.
#[derive(Clone, Copy, Debug)]
pub(crate) struct Marks {
    words: [u64; WORDS],
}

impl Marks {
    ghost use Rattle.cents.specs.Marks.{is_marked};

    #[tactic(auto, unfolding(crate::specs::Marks::is_marked))]
    pub(crate) fn none() -> Self
        ensures { (i : ℕ) → is_marked result i ≡ false }
    {
        Marks { words: [0; WORDS] }
    }

    #[tactic(auto, unfolding(crate::specs::Marks::is_marked))]
    pub(crate) fn has(&self, i: usize) -> bool
        ensures { result ≡ is_marked self.now i }
    {
        let Some(word) = self.words.get(i / 64) else {
            return false;
        };
        *word >> (i % 64) & 1 == 1
    }

    // Marks one, or leaves it as it is.
    #[tactic(auto, using(crate::proofs::Marking::this_marked, crate::proofs::Marking::other_marked), unfolding(crate::specs::Marks::is_marked))]
    pub(crate) fn mark(&mut self, i: usize, also: bool)
        requires { i < most_creditors }
        ensures this { is_marked self.new i ≡ also || is_marked self.old i }
        ensures others { (k : ℕ) → k ≢ i → is_marked self.new k ≡ is_marked self.old k }
    {
        self.words[i / 64] |= u64::from(also) << (i % 64);
    }
}
