// A tree of sums over claims in ascending order: what all claims come to, and the level, are found going down it.
ghost use Rattle.std.specs.Prelude.{◌≡◌, ◌≢◌, ◌≤◌, ◌<◌, ◌+◌, ◌*◌, ◌^◌, IfSome, IfNone, length, sum};
ghost use Rattle.level.specs.Levels.{Fills};
ghost use Rattle.level.specs.Sides.{divided_of};
ghost use Rattle.level.specs.Terms.{AreTerms, Found};
ghost use Rattle.level.specs.Words.{held};
ghost use Rattle.sums.specs.Sums.{sums_of, total_of};

use crate::descending::{Descent, Way, descend, height};
use crate::renewing::total;
use level::{Estate, Fraction, Terms};

// Claims, and a word beside each. They are a tree where the claims ascend and the words are the sums over them; the
// contracts say too what is found in any others.
#[derive(Clone, Copy, Debug)]
pub struct Tree<'a> {
    pub claims: &'a [u64],
    pub sums: &'a [u64],
    ghost paired: { length sums.now ≡ length claims.now },
}

impl<'a> Tree<'a> {
    ghost use Rattle.sums.specs.Trees.{Descended, IsTree, Leads, LeadsTo};

    // None where there is not one sum for each claim.
    pub fn new(claims: &'a [u64], sums: &'a [u64]) -> Option<Self>
        ensures none { IfNone result (length sums.now ≢ length claims.now) }
        ensures claims { IfSome result (λ tree. tree.claims.now ≡ claims.now) }
        ensures sums { IfSome result (λ tree. tree.sums.now ≡ sums.now) }
    {
        if sums.len() != claims.len() {
            return None;
        }
        Some(Tree { claims, sums })
    }

    // What is claimed by all together, or the largest number that a word holds, where it is more.
    #[tactic(auto, using(crate::proofs::Sums::total_claimed))]
    pub fn total(&self) -> u64
        ensures all { result ≡ total_of self.now.sums.now }
        ensures sum { self.now.sums.now ≡ sums_of self.now.claims.now
            → result ≡ held (sum self.now.claims.now) }
    {
        total(self.sums)
    }

    // Fills the target into the claims, each up to the level, and answers the level: the one that going through all claims
    // gives.
    #[tactic(auto, using(crate::proofs::Ways::ways))]
    pub fn descend(&self, target: u64) -> Descent
        ensures descended { Descended self.now.claims.now self.now.sums.now target result }
        ensures level { IsTree self.now → Fills self.now.claims.now target result.level }
        ensures steps { 2 ^ result.steps ≤ 2 * length self.now.claims.now + 1 }
    {
        let start = Way {
            filled: 0,
            steps: 0,
        };
        let way = descend(
            height(self.claims.len()),
            start,
            self.sums,
            self.claims,
            target,
        );
        let level = Fraction {
            numerator: target - total(&self.sums[..way.filled]),
            denominator: (self.claims.len() - way.filled) as u64,
        };
        Descent {
            level,
            steps: way.steps,
        }
    }

    // The terms on which an estate is divided among the claims.
    fn terms_on(&self, estate: Estate) -> Terms
        ensures leads { Leads (divided_of estate) estate.claimed self.now result }
        ensures are_terms { IsTree self.now
            → AreTerms (divided_of estate) estate.claimed self.now.claims.now result }
    {
        Terms {
            side: estate.side(),
            level: self.descend(estate.target()).level,
        }
    }

    // The terms on which what is there is divided among the claims; none where more is there than may be.
    pub fn terms(&self, there: u64) -> Option<Terms>
        ensures leads { LeadsTo there self.now result }
        ensures found { IsTree self.now → Found there self.now.claims.now result }
    {
        let estate = Estate::new(there, self.total())?;
        Some(self.terms_on(estate))
    }
}
