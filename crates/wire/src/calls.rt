// Calls as rows of bytes.
ghost use Rattle.std.specs.Prelude.{◌≡◌, ◌+◌, ◌≤◌, min, length, IfOk, IfErr};
ghost use Rattle.std.specs.Iterator.{at_most};
ghost use Rattle.std.specs.Option.{option_copied};
ghost use Rattle.estate.specs.Calls.{garbled};
ghost use Rattle.wire.specs.Bytes.{number_at};
ghost use Rattle.wire.specs.Calls.{call_row, Sendable, narrow};
ghost use Rattle.wire.specs.Kinds.{call_byte};
ghost use Rattle.wire.specs.Reading.{read, Whole, Heard, first_extent, Split, Takes};
ghost use Rattle.wire.specs.Laws.{OneCall, NarrowEnough};
ghost use Rattle.wire.specs.Meaning.{meaning, heard};
ghost use Rattle.wire.specs.Written.{Written};

use crate::kinds::CallKind;
use crate::refusals::{Garbled, Place, Refusal};
use crate::rows::{number_at, put};

#[derive(Clone, Copy, Debug, PartialEq, Eq)]
pub enum Call {
    // a claim of so many cents, last
    Claim(u64),
    // the claim at this place is so many cents from now on
    Prove(Place, u64),
    // so many cents more are there
    Come(u64),
    // what each creditor has, in parts of a cent
    Shares,
    // what each creditor has, in whole cents
    Cents,
}

impl Call {
    // Writes the call at the start of lent bytes, and says how many it takes.
    pub fn encode(self, out: &mut [u8]) -> Result<usize, Refusal>
        ensures written { Written (call_row (meaning self)) out.old out.new result }
        ensures sendable { Sendable (meaning self) }
        ensures narrow { narrow (meaning self) ≡ meaning self }
    {
        match self {
            Call::Claim(cents) => put(out, CallKind::Claim as u8, &[cents]),
            Call::Prove(place, cents) => {
                put(out, CallKind::Prove as u8, &[u64::from(place), cents])
            }
            Call::Come(cents) => put(out, CallKind::Come as u8, &[cents]),
            Call::Shares => put(out, CallKind::Shares as u8, &[]),
            Call::Cents => put(out, CallKind::Cents as u8, &[]),
        }
    }

    // The call that these bytes are, or the place of the first byte that does not fit. A place of 2^32 or more is held as
    // the last of 32 bits, which no desk has either.
    #[tactic(auto, using(crate::proofs::CallRows::one_call, crate::proofs::Misfits::heard_by))]
    pub fn decode(bytes: &[u8]) -> Result<Call, Garbled>
        ensures said { Heard bytes.now (heard result) }
        ensures unique { OneCall }
        ensures enough { NarrowEnough }
    {
        let kind = kind_of(bytes)?;
        Ok(call_at(kind, bytes))
    }

    // The bytes of the first of a row of calls with nothing between them, and those behind it: none where the first cannot
    // be read.
    #[tactic(auto, using(crate::proofs::Misfits::split_by))]
    pub fn split_first(calls: &[u8]) -> (&[u8], &[u8])
        ensures { Split calls.now result.0.now result.1.now }
    {
        calls.split_at(end_of_first(calls))
    }
}

// The bytes of each of a row of calls, one after the other. Behind one that cannot be read none are left.
#[derive(Clone, Debug, Drop)]
pub struct Calls<'a>(pub &'a [u8]);

impl<'a> Iterator for Calls<'a> {
    type Item = &'a [u8];

    ghost next_gives = { λ old call new. Takes old.0.now (option_copied call) new.0.now };

    ghost remaining = { λ calls. at_most (length calls.0.now) };

    fn next(&mut self) -> Option<&'a [u8]> {
        if self.0.is_empty() {
            return None;
        }
        let (first, rest) = Call::split_first(self.0);
        self.0 = rest;
        Some(first)
    }
}

// How many bytes the first of a row of calls takes.
fn end_of_first(calls: &[u8]) -> usize
    ensures value { result ≡ first_extent calls.now }
    ensures within { result ≤ length calls.now }
{
    let Some(first) = calls.first() else {
        return 0;
    };
    match CallKind::try_from(*first) {
        Ok(kind) => kind.extent().min(calls.len()),
        Err(_) => calls.len(),
    }
}

// The kind of the call that these bytes are, or the place of the first byte that does not fit.
fn kind_of(bytes: &[u8]) -> Result<CallKind, Garbled>
    ensures ok { IfOk result (λ k. Whole (call_byte k) bytes.now) }
    ensures err { IfErr result (λ e. read bytes.now ≡ garbled e.0) }
{
    let Some(first) = bytes.first() else {
        return Err(Garbled(0));
    };
    // a byte does not know its place, so a `From` could not make the error
    let Ok(kind) = CallKind::try_from(*first) else {
        return Err(Garbled(0));
    };
    let extent = kind.extent();
    if bytes.len() != extent {
        // the first that is missing, or the first too many
        return Err(Garbled(bytes.len().min(extent) as Place));
    }
    Ok(kind)
}

// The place that stands in a row of bytes. Every place of 2^32 and more is the last of 32 bits: no claim is at either, so a
// place needs no case of its own for these.
#[tactic(auto, using(crate::proofs::Narrow::narrowed))]
fn place_at(bytes: &[u8], at: usize) -> Place
    requires { at + 8 ≤ length bytes.now }
    ensures { result ≡ min (number_at bytes.now at) 4294967295 }
{
    Place::try_from(number_at(bytes, at)).unwrap_or(Place::MAX)
}

// The call that these bytes are, which are those of a call of this kind.
fn call_at(kind: CallKind, bytes: &[u8]) -> Call
    requires { Whole (call_byte kind) bytes.now }
    ensures { meaning result ≡ narrow (read bytes.now) }
{
    match kind {
        CallKind::Claim => Call::Claim(number_at(bytes, 1)),
        CallKind::Prove => Call::Prove(place_at(bytes, 1), number_at(bytes, 9)),
        CallKind::Come => Call::Come(number_at(bytes, 1)),
        CallKind::Shares => Call::Shares,
        CallKind::Cents => Call::Cents,
    }
}
