// How much a desk asks for, and a desk opened in lent memory.
ghost use Rattle.std.specs.Prelude.{◌≡◌, ◌+◌, ◌*◌, ◌≤◌, length, replicate, IfOk};
ghost use Rattle.desk.specs.Opening.{IsAsked, Opened};
ghost use Rattle.desk.specs.Promises.{OneEstate, NewDesk, StaysDesk};

use crate::header::{HEADER, LIMIT};
use estate::MOST_CREDITORS;
use wire::{Place, Refusal, TurnedAway};

// What is to be lent to a desk.
#[derive(Clone, Copy, Debug, PartialEq, Eq)]
pub struct Loan {
    // words of memory, with the desk for as long as it is used
    pub words: usize,
    // bytes for an answer, with each call
    pub bytes: usize,
}

// How much a desk for so many creditors asks for: at most 64 bytes of memory for each, and 4,096 more.
pub fn asked(limit: usize) -> Result<Loan, TurnedAway>
    ensures asked { IsAsked limit result }
    ensures few { IfOk result (λ a. 8 * a.words ≤ 64 * limit + 4096) }
{
    if limit > MOST_CREDITORS {
        return Err(refused(Refusal::NotLent, 0));
    }
    Ok(Loan {
        words: HEADER + 3 * limit,
        bytes: 24 + 8 * limit,
    })
}

// Opens a desk for so many creditors in lent memory, whatever that held.
#[tactic(auto, using(crate::proofs::Words::opened, crate::proofs::Promised::desks))]
pub fn open(mem: &mut [u64], limit: usize) -> Result<(), TurnedAway>
    ensures opened { Opened limit mem.old mem.new result }
    ensures one_estate { OneEstate }
    ensures new_desk { NewDesk }
    ensures stays_desk { StaysDesk }
{
    let asked = asked(limit)?;
    if mem.len() < asked.words {
        return Err(refused(Refusal::NotLent, 1));
    }
    clear(&mut mem[..asked.words]);
    mem[LIMIT] = limit as u64;
    Ok(())
}

// Makes all words 0.
fn clear(words: &mut [u64])
    ensures { words.new ≡ replicate (length words.old) 0 }
{
    words.fill(0);
}

// A refusal, at a place in the call.
pub(crate) fn refused(why: Refusal, place: Place) -> TurnedAway
    ensures { result ≡ record { why = why; place = place } }
{
    TurnedAway { why, place }
}
