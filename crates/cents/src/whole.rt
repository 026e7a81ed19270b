// Whole cents that come of shares.
ghost use Rattle.std.specs.Prelude.{◌≡◌, Some};
ghost use Rattle.estate.specs.Answers.{amounts};
ghost use Rattle.wire.specs.Meaning.{told};
ghost use Rattle.wire.specs.Written.{Written};

use crate::bits::Marks;
use crate::parted::{Handed, Parted};
use crate::rounding::{divided, give, lacking};
use crate::split::Split;
use estate::MOST_CREDITORS;
use shares::Shares;
use std::error::Error;
use std::fmt;
use wire::{Answer, Numbers, Refusal};

// Why no whole cents come of shares.
#[derive(Clone, Copy, Debug, PartialEq, Eq)]
pub enum CentsError {
    // a cent has no parts
    NoParts,
    // more shares than there may be creditors
    TooMany,
    // the shares do not add up to whole cents
    NotWhole,
}

impl fmt::Display for CentsError {
    ghost use Rattle.cents.specs.Whole.{error_text};

    ghost output = { λ why. Some (error_text why) };

    fn fmt<W: fmt::Write>(&self, f: &mut fmt::Formatter<W>) -> fmt::Result {
        f.write_str(match self {
            CentsError::NoParts => "a cent has no parts",
            CentsError::TooMany => "more than 1024 shares",
            CentsError::NotWhole => "the shares do not add up to whole cents",
        })
    }
}

impl Error for CentsError {}

// What each creditor has in whole cents: its share rounded down, and one cent more if it has one of those that were left.
#[derive(Debug, Drop)]
pub struct Cents<P> {
    shares: P,
    more: Marks,
}

impl<P: Parted> Numbers for Cents<P> {
    ghost use Rattle.cents.specs.Whole.{cents_of};

    ghost items = { cents_of P.parts P.items };

    #[tactic(auto, using(crate::proofs::Amounts::count))]
    fn count(&self) -> usize {
        self.shares.count()
    }

    #[tactic(auto, using(crate::proofs::Amounts::get))]
    fn get(&self, i: usize) -> Option<u64> {
        if i >= self.shares.count() {
            return None;
        }
        let (whole, left) = self.shares.at(i);
        // Not by branches, which no processor can foretell.
        let more = (left > 0) & self.more.has(i);
        Some(whole + u64::from(more))
    }

    #[tactic(auto, using(crate::proofs::Amounts::put), unfolding(wire::specs::Bytes::eight))]
    fn put(&self, out: &mut [u8]) -> Result<usize, Refusal> {
        let count = self.count();
        let end = 8 * count;
        if out.len() < end {
            return Err(Refusal::NotLent);
        }
        for i in 0..count {
            let cents = self.get(i).unwrap();
            out[8 * i..8 * i + 8].copy_from_slice(&cents.to_le_bytes());
        }
        Ok(end)
    }
}

impl<P: Parted + Drop> Cents<P> {
    ghost use Rattle.cents.specs.Whole.{Comes};

    // The whole cents that come of shares.
    #[tactic(auto, using(crate::proofs::Left::new))]
    fn round(shares: P) -> Result<Self, CentsError>
        ensures { Comes P.parts P.items (P.parts shares) (P.items shares) result }
    {
        if shares.count() > MOST_CREDITORS {
            return Err(CentsError::TooMany);
        }
        let (lacking, most) = lacking(&shares);
        let (cents, over) = divided(lacking, shares.parts());
        if over != 0 {
            return Err(CentsError::NotWhole);
        }
        let more = give(&shares, cents, most);
        Ok(Cents { shares, more })
    }
}

impl<P: Parted> Cents<P> {
    ghost use Rattle.cents.specs.Whole.{cents_of};

    // The answer to the call for cents.
    pub fn answer(self) -> Answer<Self>
        ensures { told (cents_of P.parts P.items) result ≡ amounts (cents_of P.parts P.items self) }
    {
        Answer::Amounts(self)
    }

    // Writes the cents at the start of lent words, and says how many there are.
    #[tactic(auto, using(crate::proofs::Amounts::write))]
    pub fn write(&self, out: &mut [u64]) -> Result<usize, Refusal>
        ensures { Written (cents_of P.parts P.items self.now) out.old out.new result }
    {
        let count = self.count();
        if out.len() < count {
            return Err(Refusal::NotLent);
        }
        for i in 0..count {
            out[i] = self.get(i).unwrap();
        }
        Ok(count)
    }
}

impl<L: Numbers + Drop> Cents<Handed<L>> {
    ghost use Rattle.cents.specs.Laws.{AllCome};
    ghost use Rattle.cents.specs.Parted.{handed_parts, handed_items};
    ghost use Rattle.cents.specs.Whole.{Comes};

    // The whole cents that come of shares, in parts of a cent.
    #[tactic(auto, using(crate::proofs::Pay::all_come))]
    pub fn new(parts: u64, shares: L) -> Result<Self, CentsError>
        ensures comes { Comes handed_parts (handed_items L.items) parts (L.items shares) result }
        ensures all_come { AllCome handed_parts (handed_items L.items) }
    {
        if parts == 0 {
            return Err(CentsError::NoParts);
        }
        Cents::round(Handed { parts, shares })
    }
}

impl<'a> Cents<Split<'a>> {
    ghost use Rattle.cents.specs.Laws.{CentsPay, FewRemainders};
    ghost use Rattle.cents.specs.Parted.{split_parts, split_items};
    ghost use Rattle.cents.specs.Whole.{Comes};
    ghost use Rattle.shares.specs.Shares.{parts_word, shares_of};

    // The whole cents of claims on the terms of a division.
    #[tactic(auto, using(crate::proofs::Pay::cents_pay, crate::proofs::Remainders::few_remainders))]
    pub fn of(shares: Shares<'a>) -> Result<Self, CentsError>
        ensures comes { Comes split_parts split_items (parts_word shares.entry.terms)
            (shares_of shares.entry) result }
        ensures cents_pay { CentsPay }
        ensures few_remainders { FewRemainders }
    {
        Cents::round(Split::new(shares))
    }
}
