// The level as a fraction, found by going through claims in ascending order.
ghost use Rattle.level.specs.Levels.{Fills};

// A number of cents that need not be whole. As a level it is what is spread, and among how many creditors: whoever claims
// as much as the level or more gets half of the level, or loses it; whoever claims less, half of its claim.
#[derive(Clone, Copy, Debug, PartialEq, Eq)]
pub struct Fraction {
    pub numerator: u64,
    pub denominator: u64,
}

// Fills the target into claims in ascending order, each up to the level, and answers the level. Where the target is more
// than all that is claimed nobody shares what is left, and the denominator is 0: so has the definition it, and an `Option`
// would lose what is left.
#[tactic(auto, unfolding(estate::specs::Level::fill))]
pub fn fill(claims: &[u64], target: u64) -> Fraction
    ensures { Fills claims.now target result }
{
    let mut left = target;
    let mut rest = claims;
    while let Some((claim, others)) = rest.split_first() {
        let sharers = rest.len() as u64;
        if u128::from(left) <= u128::from(sharers) * u128::from(*claim) {
            return Fraction {
                numerator: left,
                denominator: sharers,
            };
        }
        left -= *claim;
        rest = others;
    }
    Fraction {
        numerator: left,
        denominator: 0,
    }
}
