// Shares of two creditors, and shares in different parts compared. The contracts carry what is true of every division.
ghost use Rattle.std.specs.Prelude.{◌≡◌, ◌*◌, ◌<◌};
ghost use Rattle.std.specs.Ordering.{MatchOrdering};
ghost use Rattle.estate.specs.Two.{plainly};
ghost use Rattle.estate.specs.Promises.{AgreesWithLaw, PlainDivides, OnlyPlain, ThereIsOne, ClosedDivides, JustOne, MoreThere, LargerClaims, LostAlike, WhoGoes};

use std::cmp::Ordering;

// What two claims have of what is there, in half cents, by the plain law.
#[tactic(auto, using(crate::proofs::Carried::of_two))]
pub fn of_two(there: u64, claim: u64, other: u64) -> (u128, u128)
    ensures value { result ≡ (plainly there claim other, plainly there other claim) }
    ensures agrees_with_law { AgreesWithLaw }
    ensures plain_divides { PlainDivides }
    ensures only_plain { OnlyPlain }
    ensures there_is_one { ThereIsOne }
    ensures closed_divides { ClosedDivides }
{
    (
        half_cents(there, claim, other),
        half_cents(there, other, claim),
    )
}

// What a claim has beside one other: what the other does not claim, and half of what both claim.
fn half_cents(there: u64, claim: u64, other: u64) -> u128
    ensures { result ≡ plainly there claim other }
{
    let unclaimed = there.saturating_sub(claim);
    let left = there.saturating_sub(other);
    let contested = there.saturating_sub(unclaimed).saturating_sub(left);
    2 * u128::from(left) + u128::from(contested)
}

// A share: so many of the parts of which a cent has `of`.
#[derive(Clone, Copy, Debug)]
pub struct Share {
    pub parts: u64,
    pub of: u64,
}

impl Share {
    // Whether it is less than another, as much or more. It is no `Ord`: where `of` is 0 there is no order; and
    // a derived `==` would tell 1 of 2 from 2 of 4.
    #[tactic(auto, using(crate::proofs::Carried::compare))]
    pub fn compare(self, other: Share) -> Ordering
        ensures value { MatchOrdering
            result
            (self.parts * other.of < other.parts * self.of)
            (self.parts * other.of ≡ other.parts * self.of)
            (other.parts * self.of < self.parts * other.of) }
        ensures just_one { JustOne }
        ensures more_there { MoreThere }
        ensures larger_claims { LargerClaims }
        ensures lost_alike { LostAlike }
        ensures who_goes { WhoGoes }
    {
        let (first, second) = self.in_common_parts(other);
        first.cmp(&second)
    }

    // Both, in parts of which a cent has as many as their parts multiplied.
    fn in_common_parts(self, other: Share) -> (u128, u128)
        ensures { result ≡ (self.parts * other.of, other.parts * self.of) }
    {
        (
            u128::from(self.parts) * u128::from(other.of),
            u128::from(other.parts) * u128::from(self.of),
        )
    }
}
