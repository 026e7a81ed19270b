// The calls that change a desk.
ghost use Rattle.std.specs.Prelude.{◌≤◌, IfSome, IfNone};
ghost use Rattle.estate.specs.Calls.{claims, proves, comes};
ghost use Rattle.estate.specs.Limits.{most_cents};
ghost use Rattle.desk.specs.Steps.{Reads, Grown, Full, Altered, Unaltered, Does};

use crate::header::{COUNT, HEADER, Header, THERE};
use crate::opening::refused;
use estate::MOST_THERE;
use register::Moved;
use wire::{Place, Refusal, TurnedAway};

impl Header {
    // Adds a claim, last, and answers how many there were.
    #[tactic(auto, using(crate::proofs::Keeping::claim))]
    pub(crate) fn claim(self, mem: &mut [u64], cents: u64) -> Result<u64, TurnedAway>
        requires reads { Reads self mem.old }
        requires moderate { cents ≤ most_cents }
        ensures { Does (claims cents) mem.old mem.new result }
    {
        let Some(_) = add(&mut mem[HEADER..self.end], self.count, cents) else {
            return Err(refused(Refusal::NoRoom, 0));
        };
        let count = self.count as u64;
        mem[COUNT] = count + 1;
        Ok(count)
    }

    // Changes a claim, and answers its place.
    #[tactic(auto, using(crate::proofs::Keeping::prove))]
    pub(crate) fn prove(self, mem: &mut [u64], place: Place, cents: u64) -> Result<u64, TurnedAway>
        requires reads { Reads self mem.old }
        requires moderate { cents ≤ most_cents }
        ensures { Does (proves place cents) mem.old mem.new result }
    {
        let Some(_) = change(
            &mut mem[HEADER..self.end],
            self.count,
            place as usize,
            cents,
        ) else {
            return Err(refused(Refusal::NotThere, 0));
        };
        Ok(u64::from(place))
    }

    // Adds to what is there, and answers how much it is.
    #[tactic(auto, using(crate::proofs::Keeping::come))]
    pub(crate) fn come(self, mem: &mut [u64], cents: u64) -> Result<u64, TurnedAway>
        requires reads { Reads self mem.old }
        requires moderate { cents ≤ most_cents }
        ensures { Does (comes cents) mem.old mem.new result }
    {
        let Some(there) = Some(self.there + cents).filter(|&there| there <= MOST_THERE) else {
            return Err(refused(Refusal::NoRoom, 0));
        };
        mem[THERE] = there;
        Ok(there)
    }
}

// Adds a claim to a ledger of so many.
#[tactic(auto, unfolding(crate::specs::Steps::Grown, crate::specs::Steps::Full))]
fn add(rows: &mut [u64], count: usize, cents: u64) -> Option<usize>
    ensures some { IfSome result (λ _. Grown count cents rows.old rows.new) }
    ensures none { IfNone result (Full count cents rows.old rows.new) }
{
    sums::add(rows, count, cents)
}

// Changes a claim of a ledger of so many.
#[tactic(auto, unfolding(crate::specs::Steps::Altered, crate::specs::Steps::Unaltered))]
fn change(rows: &mut [u64], count: usize, i: usize, cents: u64) -> Option<Moved>
    ensures some { IfSome result (λ _. Altered count i cents rows.old rows.new) }
    ensures none { IfNone result (Unaltered count i cents rows.old rows.new) }
{
    sums::change(rows, count, i, cents).ok()
}
