// The first byte of a row: which call or answer it is.
ghost use Rattle.std.specs.Prelude.{◌≡◌};
ghost use Rattle.std.specs.Option.{option_map};
ghost use Rattle.wire.specs.Kinds.{call_byte, answer_byte, IsCallKind, IsAnswerKind};
ghost use Rattle.wire.specs.Calls.{extent};
ghost use Rattle.wire.specs.Texts.{unknown_text};

use std::error::Error;
use std::fmt;

// A number that stands for nothing.
#[derive(Clone, Copy, Debug, PartialEq, Eq)]
pub struct Unknown<N>(pub N);

impl<N: fmt::Display> fmt::Display for Unknown<N> {
    ghost output = { λ e. option_map unknown_text (N.output e.0) };

    fn fmt<W: fmt::Write>(&self, f: &mut fmt::Formatter<W>) -> fmt::Result {
        write!(f, "nothing has number {}", self.0)
    }
}

impl<N: fmt::Debug + fmt::Display + Drop> Error for Unknown<N> {}

// What is asked.
#[derive(Clone, Copy, Debug, PartialEq, Eq)]
pub(crate) enum CallKind {
    Claim = 0,
    Prove = 1,
    Come = 2,
    Shares = 3,
    Cents = 4,
}

impl CallKind {
    // How many bytes a call of this kind has.
    pub(crate) fn extent(self) -> usize
        ensures { result ≡ extent (call_byte self) }
    {
        match self {
            CallKind::Claim | CallKind::Come => 9,
            CallKind::Prove => 17,
            CallKind::Shares | CallKind::Cents => 1,
        }
    }
}

impl TryFrom<u8> for CallKind {
    type Error = Unknown<u8>;

    ghost try_from_gives = { IsCallKind };

    fn try_from(byte: u8) -> Result<Self, Unknown<u8>> {
        match byte {
            0 => Ok(CallKind::Claim),
            1 => Ok(CallKind::Prove),
            2 => Ok(CallKind::Come),
            3 => Ok(CallKind::Shares),
            4 => Ok(CallKind::Cents),
            _ => Err(Unknown(byte)),
        }
    }
}

// How it is answered.
#[derive(Clone, Copy, Debug, PartialEq, Eq)]
pub(crate) enum AnswerKind {
    Refused = 0,
    Number = 1,
    Parts = 2,
    Amounts = 3,
}

impl TryFrom<u8> for AnswerKind {
    type Error = Unknown<u8>;

    ghost try_from_gives = { IsAnswerKind };

    fn try_from(byte: u8) -> Result<Self, Unknown<u8>> {
        match byte {
            0 => Ok(AnswerKind::Refused),
            1 => Ok(AnswerKind::Number),
            2 => Ok(AnswerKind::Parts),
            3 => Ok(AnswerKind::Amounts),
            _ => Err(Unknown(byte)),
        }
    }
}
