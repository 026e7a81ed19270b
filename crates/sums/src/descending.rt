// The way down a tree of sums. It begins at the node in the middle; what lies before it, and what lies behind it, are trees
// of their own, one less high. A tree of height 0 has no node.
ghost use Rattle.std.specs.Prelude.{◌≡◌, ◌≤◌, ◌<◌, ◌+◌, ◌*◌, ◌^◌, length, take};
ghost use Rattle.sums.specs.Descending.{Goes, IsBehind, IsHeight};
ghost use Rattle.sums.specs.Sums.{total_of};

use level::Fraction;

// How high a tree over so many claims is: as high as their number has binary digits.
#[tactic(auto, using(crate::proofs::Ways::height_is))]
pub(crate) fn height(claims: usize) -> u32
    ensures { IsHeight claims result }
{
    usize::BITS - claims.leading_zeros()
}

// The level, and at how many nodes it was decided where it lies. At each of them one sum and one claim were read.
#[derive(Clone, Copy, Debug, PartialEq, Eq)]
pub struct Descent {
    pub level: Fraction,
    pub steps: u32,
}

// How far the way has come: so many claims are filled, and it was decided at so many nodes.
#[derive(Clone, Copy)]
pub(crate) struct Way {
    pub filled: usize,
    pub steps: u32,
}

impl Way {
    // The place behind the middle of the tree that is left, which is one higher than this.
    #[tactic(auto, using(crate::proofs::Ways::behind))]
    fn behind(self, height: u32) -> usize
        requires word { height < 64 }
        requires room { self.filled + 2 ^ height < 2 ^ 64 }
        ensures { IsBehind height self result }
    {
        self.filled + (1 << height)
    }

    // Decided at one more node; so many claims are filled now.
    fn further(self, filled: usize) -> Self
        requires { self.steps < 64 }
        ensures { result ≡ record { filled = filled; steps = self.steps + 1 } }
    {
        Way {
            filled,
            steps: self.steps + 1,
        }
    }
}

// Goes on down a tree so high, which begins behind the claims that are filled. All up to the middle are filled too if the
// target is more than they come to and as much for each claim behind them as the last of them; otherwise the level lies
// before the middle.
#[tactic(auto, using(crate::proofs::Ways::goes))]
pub(crate) fn descend(height: u32, way: Way, sums: &[u64], claims: &[u64], target: u64) -> Way
    requires paired { length sums.now ≡ length claims.now }
    requires steps { way.steps + height ≤ 64 }
    requires room { way.filled + 2 ^ height ≤ 2 * length claims.now + 1 }
    requires within { way.filled ≤ length claims.now }
    requires filled { total_of (take way.filled sums.now) ≤ target }
    ensures goes { Goes height target claims.now sums.now way result }
    ensures few { result.steps ≤ way.steps + height }
    ensures within { result.filled ≤ length claims.now }
    ensures filled { total_of (take result.filled sums.now) ≤ target }
{
    let Some(height) = height.checked_sub(1) else {
        return way;
    };
    let behind = way.behind(height);
    if claims.len() < behind {
        return descend(height, way, sums, claims, target);
    }
    let (sum, claim) = (sums[behind - 1], claims[behind - 1]);
    let others = claims.len() - behind;
    if u128::from(target) <= u128::from(sum) + others as u128 * u128::from(claim) {
        descend(height, way.further(way.filled), sums, claims, target)
    } else {
        descend(height, way.further(behind), sums, claims, target)
    }
}
