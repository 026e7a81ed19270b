// What is known of an estate without looking at each claim.
ghost use Rattle.std.specs.Prelude.{◌≡◌, ◌<◌, ◌≤◌, IfSome, IfNone, sum};
ghost use Rattle.estate.specs.Level.{scarce_of_sum, target_of_sum};
ghost use Rattle.estate.specs.Limits.{most_there};
ghost use Rattle.level.specs.Words.{held};

use estate::MOST_THERE;

// What is levelled: what each gets, or what each loses.
#[derive(Clone, Copy, Debug, PartialEq, Eq)]
pub enum Side {
    // at most half of what is claimed is there
    Gains,
    // more than half is there
    Losses,
}

// What is there, and what is claimed by all together.
#[derive(Clone, Copy, Debug, PartialEq, Eq)]
pub struct Estate {
    pub there: u64,
    pub claimed: u64,
    ghost within: { there ≤ most_there },
}

impl Estate {
    ghost use Rattle.level.specs.Sides.{divided_of, gains};

    // None where more is there than may be.
    pub fn new(there: u64, claimed: u64) -> Option<Self>
        ensures none { IfNone result (most_there < there) }
        ensures some { IfSome result (λ e. (e.there ≡ there) × (e.claimed ≡ claimed)) }
    {
        if there > MOST_THERE {
            return None;
        }
        Some(Estate { there, claimed })
    }

    // What is divided: what is there, or all that is claimed if that is less.
    pub fn divided(self) -> u64
        ensures { result ≡ divided_of self }
    {
        self.there.min(self.claimed)
    }

    // Whether what each gets is levelled, or what each loses.
    pub fn side(self) -> Side
        ensures { gains result ≡ scarce_of_sum (divided_of self) self.claimed }
    {
        if 2 * self.divided() <= self.claimed {
            Side::Gains
        } else {
            Side::Losses
        }
    }

    // Twice what all get or, on the other side, twice what all lose.
    pub fn target(self) -> u64
        ensures { result ≡ target_of_sum (divided_of self) self.claimed }
    {
        match self.side() {
            Side::Gains => 2 * self.divided(),
            Side::Losses => 2 * (self.claimed - self.divided()),
        }
    }
}

// What is claimed by all together, or the largest number that a word holds, where it is more. A `fold` is no plainer: it
// proves, but by a term in a proof file, and an edit of what it adds is then refused there and not here.
pub fn total(claims: &[u64]) -> u64
    ensures { result ≡ held (sum claims.now) }
{
    let mut claimed: u64 = 0;
    for claim in claims {
        claimed = claimed.saturating_add(*claim);
    }
    claimed
}
