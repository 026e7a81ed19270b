// The terms of a division: all that the share of a creditor depends on, besides its own claim.
ghost use Rattle.std.specs.Prelude.{◌≡◌};
ghost use Rattle.level.specs.Laws.{LevelFills, TermsRight, TermsSmall};
ghost use Rattle.level.specs.Sides.{divided_of};
ghost use Rattle.level.specs.Terms.{parts_of, AreTerms, Found};
ghost use Rattle.level.specs.Words.{held};

use crate::facts::{Estate, Side, total};
use crate::filling::{Fraction, fill};

// What is levelled, and at which level.
#[derive(Clone, Copy, Debug, PartialEq, Eq)]
pub struct Terms {
    pub side: Side,
    pub level: Fraction,
}

impl Terms {
    // The parts of a cent in which shares are whole numbers: twice as many as creditors share the level, and 1 where there
    // are no creditors. Of a level that somebody made up they may be more than a word holds, and are then the largest word: so
    // they always answer.
    pub fn parts(self) -> u64
        ensures { result ≡ held (parts_of self) }
    {
        self.level.denominator.saturating_mul(2).max(1)
    }
}

impl Estate {
    // The terms on which it is divided, among claims in ascending order.
    fn terms(self, claims: &[u64]) -> Terms
        ensures { AreTerms (divided_of self) self.claimed claims.now result }
    {
        Terms {
            side: self.side(),
            level: fill(claims, self.target()),
        }
    }
}

// The terms on which what is there is divided among claims in ascending order; none where more is there than may be.
#[tactic(auto, using(crate::proofs::Agreeing::terms_of))]
pub fn terms_of(there: u64, claims: &[u64]) -> Option<Terms>
    ensures value { Found there claims.now result }
    ensures level_fills { LevelFills }
    ensures terms_right { TermsRight }
    ensures terms_small { TermsSmall }
{
    Estate::new(there, total(claims)).map(|estate| estate.terms(claims))
}
