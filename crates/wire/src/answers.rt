// Answers as rows of bytes.
ghost use Rattle.std.specs.Prelude.{◌≡◌, ℕ, Some, List};
ghost use Rattle.wire.specs.Kinds.{answer_byte};
ghost use Rattle.wire.specs.Laws.{OneAnswer, AnswerBack};
ghost use Rattle.wire.specs.Meaning.{told, IsShaped, IsDecoded};
ghost use Rattle.wire.specs.Texts.{error_text};
ghost use Rattle.wire.specs.Written.{Sent};
ghost use Rattle.wire.specs.declared.answers.DecodeError.TheVariants.{OutOfMemory};

use crate::kinds::AnswerKind;
use crate::numbers::Numbers;
use crate::refusals::{Place, Refusal, TurnedAway};
use crate::rows::{numbers_in, put, put_list};
use std::alloc::{AllocError, Global};
use std::error::Error;
use std::fmt;

// An answer whose lists are of type L. It has no `Clone`, since to copy a list may run out of memory.
#[derive(Debug, PartialEq, Eq, Drop)]
pub enum Answer<L> {
    // a call was turned away
    Refused(TurnedAway),
    Number(u64),
    // the parts of a cent, and how many of them each creditor has
    Parts(u64, L),
    // how many cents each creditor has
    Amounts(L),
}

impl<L: Numbers> Answer<L> {
    // Writes the answer at the start of lent bytes, and says how many it takes.
    pub fn encode(&self, out: &mut [u8]) -> Result<usize, Refusal>
        ensures { Sent (told L.items self.now) out.old out.new result }
    {
        match self {
            Answer::Refused(turned) => {
                let numbers = [u64::from(turned.why), u64::from(turned.place)];
                put(out, AnswerKind::Refused as u8, &numbers)
            }
            Answer::Number(n) => put(out, AnswerKind::Number as u8, &[*n]),
            Answer::Parts(d, shares) => {
                let head = [*d, shares.count() as u64];
                put_list(out, AnswerKind::Parts as u8, &head, shares)
            }
            Answer::Amounts(cents) => {
                let head = [cents.count() as u64];
                put_list(out, AnswerKind::Amounts as u8, &head, cents)
            }
        }
    }
}

// Why no answer was read.
#[derive(Clone, Copy, Debug, PartialEq, Eq)]
pub enum DecodeError {
    // no answer has these bytes
    NoAnswer,
    OutOfMemory,
}

impl fmt::Display for DecodeError {
    ghost output = { λ e. Some (error_text e) };

    fn fmt<W: fmt::Write>(&self, f: &mut fmt::Formatter<W>) -> fmt::Result {
        f.write_str(match self {
            DecodeError::NoAnswer => "no answer has these bytes",
            DecodeError::OutOfMemory => "out of memory",
        })
    }
}

impl Error for DecodeError {}

impl From<AllocError> for DecodeError {
    ghost from_gives = { λ _ e. e ≡ OutOfMemory };

    fn from(_e: AllocError) -> Self {
        Self::OutOfMemory
    }
}

impl Answer<Vec<u64>> {
    // The answer that these bytes are.
    #[tactic(auto, using(crate::proofs::AnswerRows::decoding))]
    pub fn decode(heap: Global, bytes: &[u8]) -> Result<Self, DecodeError>
        ensures said { IsDecoded (λ v. v.items) bytes.now result }
        ensures back { AnswerBack }
        ensures unique { OneAnswer }
    {
        if bytes.len() % 8 != 1 {
            return Err(DecodeError::NoAnswer);
        }
        // which byte it was does not matter here
        let Ok(kind) = AnswerKind::try_from(bytes[0]) else {
            return Err(DecodeError::NoAnswer);
        };
        let list = numbers_in(heap, &bytes[1..])?;
        answer_of(heap, kind, list.as_slice())
    }
}

// The answer of a kind with these numbers behind it. Why a number stands for nothing does not matter here, so it is dropped
// (`map_err`): a `From` for each error is no plainer.
fn answer_of(heap: Global, kind: AnswerKind, list: &[u64]) -> Result<Answer<Vec<u64>>, DecodeError>
    ensures { IsShaped (λ v. v.items) (answer_byte kind) list.now result }
{
    match (kind, list) {
        (AnswerKind::Refused, [why, place]) => Ok(Answer::Refused(TurnedAway {
            why: Refusal::try_from(*why).map_err(|_| DecodeError::NoAnswer)?,
            place: Place::try_from(*place).map_err(|_| DecodeError::NoAnswer)?,
        })),
        (AnswerKind::Number, [n]) => Ok(Answer::Number(*n)),
        (AnswerKind::Parts, [d, count, shares @ ..]) if *count == shares.len() as u64 => {
            Ok(Answer::Parts(*d, shares.to_vec(heap)?))
        }
        (AnswerKind::Amounts, [count, cents @ ..]) if *count == cents.len() as u64 => {
            Ok(Answer::Amounts(cents.to_vec(heap)?))
        }
        _ => Err(DecodeError::NoAnswer),
    }
}
