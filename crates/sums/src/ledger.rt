// A ledger: a register of claims, and behind it the sums over those in order, kept as claims are added and changed. It is
// three rows of words of a fixed size that are lent, beside other things, so it is no vector.
ghost use Rattle.std.specs.Prelude.{◌≡◌, ◌<◌, ◌≤◌, ◌*◌, IfSome, IfNone};
ghost use Rattle.register.specs.Row.{part};
ghost use Rattle.register.specs.Rows.{Added, Changed};
ghost use Rattle.sums.specs.Ledger.{room, Enters, Amends};
ghost use Rattle.sums.specs.Laws.{Starts, Adds, Changes, NeverOutOfOrder, Reads};

use crate::renewing::renew;
use crate::tree::Tree;
use register::{Moved, Register, Unfit};

// Adds a claim last, and answers where it is among those in order, counted from the first word. Where there is no room,
// nothing is done.
#[tactic(auto, using(crate::proofs::Rows::enters, crate::proofs::Ledgers::added))]
pub fn add(rows: &mut [u64], count: usize, claim: u64) -> Option<usize>
    ensures enters { Enters count claim rows.old rows.new result }
    ensures starts { Starts }
    ensures adds { Adds }
{
    let room = rows.len() / 3;
    let (register, sums) = rows.split_at_mut(2 * room);
    let at = enter(register, count, claim)?;
    renew(
        &mut sums[..count + 1],
        &register[room..room + count + 1],
        at - room,
    );
    Some(at)
}

// Changes the claim at a place, and answers from where to where it moved among those in order. Where that does not fit,
// nothing is done.
#[tactic(auto, using(crate::proofs::Rows::amends, crate::proofs::Ledgers::changed))]
pub fn change(rows: &mut [u64], count: usize, i: usize, claim: u64) -> Result<Moved, Unfit>
    ensures amends { Amends count i claim rows.old rows.new result }
    ensures changes { Changes }
    ensures never_out_of_order { NeverOutOfOrder }
{
    let room = rows.len() / 3;
    let (register, sums) = rows.split_at_mut(2 * room);
    let moved = amend(register, count, i, claim)?;
    let from = moved.from.min(moved.to) - room;
    renew(&mut sums[..count], &register[room..room + count], from);
    Ok(moved)
}

// Adds a claim to a register of so many.
fn enter(rows: &mut [u64], count: usize, claim: u64) -> Option<usize>
    ensures { Added count claim rows.old rows.new result }
{
    Register::new(rows, count).add(claim)
}

// Changes a claim of a register of so many.
fn amend(rows: &mut [u64], count: usize, i: usize, claim: u64) -> Result<Moved, Unfit>
    ensures { Changed count i claim rows.old rows.new result }
{
    Register::new(rows, count).change(i, claim)
}

// The tree in a ledger of so many claims, if there is room for so many.
#[tactic(auto, using(crate::proofs::Ledgers::reads))]
pub fn tree_of(rows: &[u64], count: usize) -> Option<Tree<'_>>
    ensures none { IfNone result (room rows.now < count) }
    ensures some { IfSome result (λ _. count ≤ room rows.now) }
    ensures claims { IfSome result (λ t. t.claims.now ≡ part (room rows.now) count rows.now) }
    ensures sums { IfSome result (λ t. t.sums.now ≡ part (2 * room rows.now) count rows.now) }
    ensures reads { Reads }
{
    let room = rows.len() / 3;
    if room < count {
        return None;
    }
    Tree::new(&rows[room..room + count], &rows[2 * room..2 * room + count])
}
