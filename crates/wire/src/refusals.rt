// Why a call is turned away, and where.
ghost use Rattle.std.specs.Prelude.{◌≡◌, Some};
ghost use Rattle.wire.specs.Meaning.{refusal_number, IsRefusal};
ghost use Rattle.wire.specs.Texts.{refused_text, garbled_text};
ghost use Rattle.wire.specs.declared.refusals.Refusal.TheVariants.{Unreadable};

use crate::kinds::Unknown;
use std::error::Error;
use std::fmt;

// The place of a claim, or the place in a call at which it is refused, counted from 0.
pub type Place = u32;

#[derive(Clone, Copy, Debug, PartialEq, Eq)]
pub enum Refusal {
    // a call that cannot be read, at the first byte that does not fit
    Unreadable = 1,
    // a claim, or cents that come, above the most that there may be at once
    TooLarge = 2,
    // more creditors than a desk may have, or less memory than is asked for
    NotLent = 3,
    // a claim that is not there
    NotThere = 4,
    // more creditors than the desk was opened for, or more cents there than there may be
    NoRoom = 5,
}

// The number that stands for a refusal in an answer.
impl From<Refusal> for u64 {
    ghost from_gives = { λ refusal n. n ≡ refusal_number refusal };

    fn from(refusal: Refusal) -> u64 {
        refusal as u64
    }
}

impl TryFrom<u64> for Refusal {
    type Error = Unknown<u64>;

    ghost try_from_gives = { IsRefusal };

    fn try_from(n: u64) -> Result<Self, Unknown<u64>> {
        match n {
            1 => Ok(Refusal::Unreadable),
            2 => Ok(Refusal::TooLarge),
            3 => Ok(Refusal::NotLent),
            4 => Ok(Refusal::NotThere),
            5 => Ok(Refusal::NoRoom),
            _ => Err(Unknown(n)),
        }
    }
}

// Bytes that are no call, and the place of the first that does not fit.
#[derive(Clone, Copy, Debug, PartialEq, Eq)]
pub struct Garbled(pub Place);

impl fmt::Display for Garbled {
    ghost output = { λ e. Some (garbled_text e.0) };

    fn fmt<W: fmt::Write>(&self, f: &mut fmt::Formatter<W>) -> fmt::Result {
        write!(f, "no call, from byte {} on", self.0)
    }
}

impl Error for Garbled {}

// A call is turned away: why, and at which place.
#[derive(Clone, Copy, Debug, PartialEq, Eq)]
pub struct TurnedAway {
    pub why: Refusal,
    pub place: Place,
}

impl fmt::Display for TurnedAway {
    ghost output = { λ t. Some (refused_text (refusal_number t.why) t.place) };

    fn fmt<W: fmt::Write>(&self, f: &mut fmt::Formatter<W>) -> fmt::Result {
        write!(f, "refused {} at {}", u64::from(self.why), self.place)
    }
}

impl Error for TurnedAway {}

// What cannot be read is turned away where it ceases to be a call.
impl From<Garbled> for TurnedAway {
    ghost from_gives = { λ bytes t. (t.why ≡ Unreadable) × (t.place ≡ bytes.0) };

    fn from(bytes: Garbled) -> TurnedAway {
        TurnedAway {
            why: Refusal::Unreadable,
            place: bytes.0,
        }
    }
}
