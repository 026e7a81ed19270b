// The limits of an estate and of the programs, as the definitions have them, and the examples that these are held to.
#![tactic(auto)]

ghost use Rattle.std.specs.Prelude.{◌≡◌, ◌↔◌, ◌≤◌, IsTrue, All, length};
ghost use Rattle.estate.specs.Examples.{Worked, table};
ghost use Rattle.estate.specs.Limits.{most_cents};
ghost use Rattle.estate.specs.Promises.{CentsAddUp, SameCents};
ghost use Rattle.estate.specs.Right.{AnsweredRight, CentsOneAnswer};

mod laws;

pub use laws::{Share, of_two};

// The most cents that one claim may be, and that may come at once.
pub const MOST_CENTS: u64 = 1_000_000_000;

// The most cents that may be there.
pub const MOST_THERE: u64 = 1_000_000_000_000;

// The most creditors that there may be.
pub const MOST_CREDITORS: usize = 1024;

// The most creditors that the programs serve.
pub const MOST_SERVED: usize = 64;

// Whether one claim may be so many cents, and so many may come at once.
pub fn cents_allowed(cents: u64) -> bool
    ensures { IsTrue result ↔ (cents ≤ most_cents) }
{
    cents <= MOST_CENTS
}

// How many worked examples there are. The definitions give each its shares and its cents. What they answer is right, and
// whole cents are what they should be.
#[tactic(auto, using(crate::proofs::Carried::worked_examples))]
pub fn worked_examples() -> usize
    ensures count { result ≡ length table }
    ensures hold { All Worked table }
    ensures answered_right { AnsweredRight }
    ensures cents_add_up { CentsAddUp }
    ensures same_cents { SameCents }
    ensures cents_one_answer { CentsOneAnswer }
{
    9
}
