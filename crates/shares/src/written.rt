// The shares of claims on the terms of a division, in its parts of a cent.
ghost use Rattle.std.specs.List.{flat_map};
ghost use Rattle.std.specs.Prelude.{◌≡◌, ℕ, ◌*◌, ◌^◌, ◌<◌, ◌≤◌, length, slice_index};
ghost use Rattle.estate.specs.Answers.{parts};
ghost use Rattle.level.specs.Words.{held};
ghost use Rattle.shares.specs.Laws.{SharesDivide, SharesFit};
ghost use Rattle.shares.specs.Shares.{parts_word, share_word, shares_of, shares_on};
ghost use Rattle.wire.specs.Bytes.{eight};
ghost use Rattle.wire.specs.Meaning.{told};
ghost use Rattle.wire.specs.Written.{Written};

use level::{Side, Terms};
use wire::{Answer, Numbers, Refusal};

// What a claim gets. Of terms that somebody made up it may be more than a word holds, and is then the largest word.
pub fn share(terms: Terms, claim: u64) -> u64
    ensures { result ≡ share_word terms claim }
{
    let whole = product(terms.level.denominator, claim);
    match terms.side {
        Side::Gains => whole.min(terms.level.numerator),
        Side::Losses => whole.saturating_add(whole.saturating_sub(terms.level.numerator)),
    }
}

// A product, or the largest word where it is more. `saturating_mul` divides each time.
fn product(a: u64, b: u64) -> u64
    ensures { result ≡ held (a * b) }
{
    (u128::from(a) * u128::from(b)).min(u128::from(u64::MAX)) as u64
}

// What each claim gets, in the order in which the claims came. It is worked out as it is written.
#[derive(Clone, Copy, Debug)]
pub struct Shares<'a> {
    pub terms: Terms,
    pub claims: &'a [u64],
}

impl Numbers for Shares<'_> {
    ghost items = { shares_of };

    #[tactic(auto, using(crate::proofs::Words::fits))]
    fn count(&self) -> usize {
        self.claims.len()
    }

    #[tactic(auto, using(crate::proofs::Words::get))]
    fn get(&self, i: usize) -> Option<u64> {
        let claim = self.claims.get(i)?;
        Some(share(self.terms, *claim))
    }

    #[tactic(auto, using(crate::proofs::Words::put_long))]
    fn put(&self, out: &mut [u8]) -> Result<usize, Refusal> {
        let end = 8 * self.claims.len();
        if out.len() < end {
            return Err(Refusal::NotLent);
        }
        put_shares(self.terms, self.claims, &mut out[..end]);
        Ok(end)
    }
}

// Writes what claims get into bytes that the shares just fill. Within the limits claims have at most 31 bits.
fn put_shares(terms: Terms, claims: &[u64], out: &mut [u8])
    requires { length out.old ≡ 8 * length claims.now }
    ensures { out.new ≡ flat_map eight (shares_on terms claims.now) }
{
    if all_bits(terms.level.denominator, claims) < 1 << 31 {
        put_small(terms, claims, out);
    } else {
        put_any(terms, claims, out);
    }
}

// Neither the factor nor a word is more than this, which has the bits of all.
#[tactic(auto, using(crate::proofs::Words::bits_steps))]
fn all_bits(factor: u64, words: &[u64]) -> u64
    ensures factor { factor ≤ result }
    ensures words { (i : ℕ) → slice_index words.now i ≤ result }
{
    let mut bits = factor;
    for word in words {
        bits |= *word;
    }
    bits
}

// The same of any claims.
#[tactic(auto, using(crate::proofs::Words::put_steps), unfolding(wire::specs::Bytes::eight))]
fn put_any(terms: Terms, claims: &[u64], out: &mut [u8])
    requires { length out.old ≡ 8 * length claims.now }
    ensures { out.new ≡ flat_map eight (shares_on terms claims.now) }
{
    for (i, claim) in claims.iter().enumerate() {
        out[8 * i..8 * i + 8].copy_from_slice(&share(terms, *claim).to_le_bytes());
    }
}

// The same of claims of at most 31 bits.
#[tactic(auto, using(crate::proofs::Words::put_steps), unfolding(wire::specs::Bytes::eight))]
fn put_small(terms: Terms, claims: &[u64], out: &mut [u8])
    requires full { length out.old ≡ 8 * length claims.now }
    requires level { terms.level.denominator < 2 ^ 31 }
    requires claims { (i : ℕ) → slice_index claims.now i < 2 ^ 31 }
    ensures { out.new ≡ flat_map eight (shares_on terms claims.now) }
{
    for (i, claim) in claims.iter().enumerate() {
        out[8 * i..8 * i + 8].copy_from_slice(&small_share(terms, *claim as u32).to_le_bytes());
    }
}

// What such a claim gets. Nothing saturates.
fn small_share(terms: Terms, claim: u32) -> u64
    requires { terms.level.denominator < 2 ^ 31 }
    ensures { result ≡ share_word terms claim }
{
    // multiplied as 32 bits, which processors do several at a time
    let whole = u64::from(terms.level.denominator as u32) * u64::from(claim);
    match terms.side {
        Side::Gains => whole.min(terms.level.numerator),
        Side::Losses => whole + whole.saturating_sub(terms.level.numerator),
    }
}

impl Shares<'_> {
    // The answer to the call for shares.
    pub fn answer(&self) -> Answer<Self>
        ensures { told shares_of result ≡ parts (parts_word self.now.terms) (shares_of self.now) }
    {
        Answer::Parts(self.terms.parts(), *self)
    }

    // Writes the shares at the start of lent words, and says how many there are.
    #[tactic(auto, using(crate::proofs::Words::write_steps, crate::proofs::Carried::write))]
    pub fn write(&self, out: &mut [u64]) -> Result<usize, Refusal>
        ensures written { Written (shares_of self.now) out.old out.new result }
        ensures shares_divide { SharesDivide }
        ensures shares_fit { SharesFit }
    {
        if out.len() < self.claims.len() {
            return Err(Refusal::NotLent);
        }
        for (i, claim) in self.claims.iter().enumerate() {
            out[i] = share(self.terms, *claim);
        }
        Ok(self.claims.len())
    }
}
