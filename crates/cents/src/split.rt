// The shares of claims on the terms of a division, as whole cents without a division for each.
ghost use Rattle.std.specs.Prelude.{◌≡◌, ◌*◌, ◌/◌, ◌%◌, ◌<◌};
ghost use Rattle.level.specs.Sides.{gains};
ghost use Rattle.cents.specs.Rounding.{level_whole, level_left};
ghost use Rattle.cents.specs.Splits.{Splits};
ghost use Rattle.shares.specs.Shares.{parts_word, share_word, shares_of};

use crate::parted::Parted;
use level::{Side, Terms};
use shares::{Shares, share};
use wire::Numbers;

// A claim and parts of a cent up to here come to no more than a word. Within the limits none is larger.
const MOST_CLAIM: u64 = 0xffff_ffff;

// The shares of claims, and what is the same for all: worked out once, so that no claim needs a division. A claim up to
// `filled` has half of what it is. A larger one has the level, or loses it: whole cents, and less than a cent that is left.
// The shares of claims above `most`, of which no estate within the limits has any, are divided each.
#[derive(Clone, Copy, Debug)]
pub struct Split<'a> {
    pub(crate) shares: Shares<'a>,
    pub(crate) parts: u64,
    filled: u64,
    most: u64,
    level: u64,
    // of claims above `filled`, and of even and odd ones up to it
    left: u64,
    half: [u64; 2],
    ghost parted: { 0 < parts },
    ghost splits: { Splits shares.terms parts filled most level left half },
}

impl Parted for Split<'_> {
    ghost parts = { λ s. s.parts };

    ghost items = { λ s. shares_of s.shares };

    fn count(&self) -> usize {
        self.shares.count()
    }

    fn parts(&self) -> u64 {
        self.parts
    }

    #[tactic(auto, using(crate::proofs::Amounts::at_steps))]
    fn at(&self, i: usize) -> (u64, u64) {
        let Some(claim) = self.shares.claims.get(i) else {
            return (0, 0);
        };
        self.split(*claim)
    }
}

impl<'a> Split<'a> {
    // The shares, with what is the same for all.
    #[tactic(auto, using(crate::proofs::Splitting::splits))]
    pub(crate) fn new(shares: Shares<'a>) -> Self
        ensures parts { result.parts ≡ parts_word shares.entry.terms }
        ensures items { shares_of result.shares ≡ shares_of shares.entry }
    {
        let Terms { side, level } = shares.terms;
        let parts = shares.terms.parts();
        // So it is only with terms that somebody made up.
        if level.denominator == 0 || parts > MOST_CLAIM {
            return Split {
                shares,
                parts,
                filled: 0,
                most: 0,
                level: 0,
                left: 0,
                half: [0; 2],
            };
        }
        let (whole, left) = at_level(side, parts, level.numerator);
        Split {
            shares,
            parts,
            filled: filled_up_to(parts, level.denominator, level.numerator),
            most: MOST_CLAIM,
            level: whole,
            left,
            half: [0, level.denominator],
        }
    }

    // The share of a claim, rounded down to whole cents, and what is then left of it.
    fn split(&self, claim: u64) -> (u64, u64)
        ensures whole { result.0 ≡ share_word self.now.shares.terms claim / self.now.parts }
        ensures left { result.1 ≡ share_word self.now.shares.terms claim % self.now.parts }
    {
        if claim > self.most {
            return by_division(self.shares.terms, self.parts, claim);
        }
        // Not by branches, which no processor can foretell: what is left is looked up.
        let above = claim > self.filled;
        let level = match self.shares.terms.side {
            Side::Gains => self.level,
            Side::Losses => claim.saturating_sub(self.level),
        };
        let whole = if above { level } else { claim / 2 };
        let half = self.half[(claim % 2) as usize];
        let left = if above { self.left } else { half };
        (whole, left)
    }
}

// The same by a division. It is kept out of the loops, since no claim within the limits comes to it.
#[cold]
#[inline(never)]
fn by_division(terms: Terms, parts: u64, claim: u64) -> (u64, u64)
    requires { 0 < parts }
    ensures whole { result.0 ≡ share_word terms claim / parts }
    ensures left { result.1 ≡ share_word terms claim % parts }
{
    let share = share(terms, claim);
    (share / parts, share % parts)
}

// Up to which claim half of it is no more than its part of what is spread, n / m. One division by d, which is twice m,
// serves here and for the level.
fn filled_up_to(d: u64, m: u64, n: u64) -> u64
    requires some { 0 < m }
    requires double { d ≡ 2 * m }
    ensures { result ≡ n / m }
{
    2 * (n / d) + u64::from(n % d >= m)
}

// What a claim above the level has in whole cents, or loses, and what is left of it. What is levelled is n, in d-ths of a
// cent.
fn at_level(side: Side, d: u64, n: u64) -> (u64, u64)
    requires { 0 < d }
    ensures whole { result.0 ≡ level_whole (gains side) d n }
    ensures left { result.1 ≡ level_left (gains side) d n }
{
    let over = n % d;
    match side {
        Side::Gains => (n / d, over),
        Side::Losses => (n.div_ceil(d), if over > 0 { d - over } else { 0 }),
    }
}
