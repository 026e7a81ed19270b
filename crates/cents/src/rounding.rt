// Shares rounded to whole cents, and the cents that are then left.
ghost use Rattle.std.specs.Prelude.{◌≡◌, ℕ, ◌/◌, ◌%◌, ◌^◌, ◌<◌, ◌≤◌, length, slice_index};
ghost use Rattle.estate.specs.Cents.{downs, give_left};
ghost use Rattle.estate.specs.Limits.{most_creditors};
ghost use Rattle.cents.specs.Rounding.{cents_with, given_of, lack_of, lacking_of, EachLacks};

use crate::bits::Marks;
use crate::parted::Parted;

// What all together lack when each share is rounded down, and the most that anybody lacks.
#[tactic(auto, using(crate::proofs::Left::lacking_steps))]
pub(crate) fn lacking<P: Parted>(shares: &P) -> (u128, u64)
    ensures all { result.0 ≡ lacking_of P.parts P.items shares.now }
    ensures most { (i : ℕ) → slice_index (P.items shares.now) i % P.parts shares.now ≤ result.1 }
{
    let mut lacking = 0;
    let mut most = 0;
    for i in 0..shares.count() {
        let (_, left) = shares.at(i);
        lacking += u128::from(left);
        most = most.max(left);
    }
    (lacking, most)
}

// How many cents these parts are, and what is over. A word is divided faster than two.
pub(crate) fn divided(parts: u128, cent: u64) -> (u64, u64)
    requires some { 0 < cent }
    requires fits { parts / cent < 2 ^ 64 }
    ensures whole { result.0 ≡ parts / cent }
    ensures over { result.1 ≡ parts % cent }
{
    match u64::try_from(parts) {
        Ok(word) => (word / cent, word % cent),
        Err(_) => (
            (parts / u128::from(cent)) as u64,
            (parts % u128::from(cent)) as u64,
        ),
    }
}

// Gives cents, one after the other, each to who at that moment lacks most of its share, of equals the first; who has one
// then. Nobody lacks more than `most`.
#[tactic(auto, using(crate::proofs::Giving::none_given, crate::proofs::Giving::nobody_lacks, crate::proofs::Giving::all_given, crate::proofs::Amounts::lack_most))]
pub(crate) fn give<P: Parted>(shares: &P, cents: u64, most: u64) -> Marks
    requires parted { 0 < P.parts shares.now }
    requires few { length (P.items shares.now) ≤ most_creditors }
    requires most { (i : ℕ) → slice_index (P.items shares.now) i % P.parts shares.now ≤ most }
    ensures { cents_with P.parts P.items shares.now result
        ≡ give_left cents (P.parts shares.now) (P.items shares.now)
        (downs (P.parts shares.now) (P.items shares.now)) }
{
    let mut more = Marks::none();
    let mut left = cents;
    let mut most = most;
    // Where nobody lacks anything cents that are left are nobody's. Of shares that add up there are none.
    while left > 0 && most > 0 {
        (left, most) = give_to(shares, &mut more, most, left);
    }
    more
}

// Gives a cent to each who lacks so much, which is the most that anybody lacks, while cents are left; how many are left
// then, and the most that anybody lacks then. Who has one already lacked more.
#[tactic(auto, using(crate::proofs::Serving::give_to))]
fn give_to<P: Parted>(shares: &P, more: &mut Marks, most: u64, cents: u64) -> (u64, u64)
    requires few { length (P.items shares.now) ≤ most_creditors }
    requires some { 0 < most }
    requires most { (i : ℕ) → lack_of P.parts P.items shares.now more.old i ≤ most }
    requires had { EachLacks P.parts P.items shares.now more.old most }
    ensures given { given_of P.parts P.items shares.now result.0 more.new
        ≡ given_of P.parts P.items shares.now cents more.old }
    ensures served { 0 < result.0
        → (i : ℕ) → lack_of P.parts P.items shares.now more.new i ≤ result.1 }
    ensures fewer { result.1 < most }
    ensures had { EachLacks P.parts P.items shares.now more.new result.1 }
{
    let mut left = cents;
    let mut next = 0;
    for i in 0..shares.count() {
        if left == 0 {
            break;
        }
        let (_, rest) = shares.at(i);
        // Not by branches, which no processor can foretell.
        let served = rest == most;
        more.mark(i, served);
        left -= u64::from(served);
        next = next_lacked(next, rest, most);
    }
    (left, next)
}

// The most of what somebody lacks besides, when it is looked at one more who lacks so much: less than the most that anybody
// lacks.
fn next_lacked(next: u64, rest: u64, most: u64) -> u64
    ensures more { next ≤ result }
    ensures less { next < most → result < most }
    ensures kept { rest < most → rest ≤ result }
{
    // Not by a branch either.
    let other = if rest < most { rest } else { 0 };
    next.max(other)
}
