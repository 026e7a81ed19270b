// The desk as functions for C, over memory that the caller lends. Each answers one signed number: a length, or, of what is
// refused, the refusal and its place, as a number below 0.
#![tactic(auto)]

ghost use Rattle.std.specs.Prelude.{◌≡◌, ◌<ℤ◌, ◌<◌, ◌^◌, pos, IfOk};
ghost use Rattle.desk.specs.Memory.{words_asked, bytes_asked};
ghost use Rattle.wire.specs.Reading.{read};
ghost use Rattle.vullades.specs.Numbers.{asked, signed, Opens, Calls, OneOutcome};

use desk::{asked, call, open};
use wire::TurnedAway;

// How many words of memory a desk for so many creditors asks for.
#[unsafe(no_mangle)]
pub extern "C" fn vullades_words(limit: usize) -> i64
    ensures { result ≡ asked limit (words_asked limit) }
{
    signed(asked(limit).map(|loan| loan.words))
}

// How many bytes it asks for with each call, for the answer.
#[unsafe(no_mangle)]
pub extern "C" fn vullades_bytes(limit: usize) -> i64
    ensures { result ≡ asked limit (bytes_asked limit) }
{
    signed(asked(limit).map(|loan| loan.bytes))
}

// Opens a desk for so many creditors, and answers how many words it takes.
#[unsafe(no_mangle)]
#[tactic(auto, using(crate::proofs::Numbers::opens))]
pub extern "C" fn vullades_open(mem: &mut [u64], limit: usize) -> i64
    ensures opens { Opens limit mem.old mem.new result }
    ensures kept { result <ℤ pos 0 → mem.new ≡ mem.old }
{
    match open(mem, limit) {
        Ok(()) => vullades_words(limit),
        Err(away) => signed(Err(away)),
    }
}

// Does what a call asks for, and answers how many bytes the answer has, which stand first in the bytes lent for it.
#[unsafe(no_mangle)]
#[tactic(auto, using(crate::proofs::Numbers::calls, crate::proofs::Numbers::answer_fits, crate::proofs::Numbers::memory_kept, crate::proofs::Numbers::bytes_kept, crate::proofs::Numbers::one_outcome))]
pub extern "C" fn vullades_call(mem: &mut [u64], bytes: &[u8], out: &mut [u8]) -> i64
    ensures calls { Calls (read bytes.now) mem.old mem.new out.old out.new result }
    ensures memory_kept { result <ℤ pos 0 → mem.new ≡ mem.old }
    ensures bytes_kept { result <ℤ pos 0 → out.new ≡ out.old }
    ensures one_outcome { OneOutcome }
{
    signed(call(mem, bytes, out))
}

// A length, or a refusal and its place as a number below 0.
fn signed(outcome: Result<usize, TurnedAway>) -> i64
    requires { IfOk outcome (λ n. n < 2 ^ 63) }
    ensures { result ≡ signed outcome }
{
    match outcome {
        Ok(length) => length as i64,
        Err(away) => -(u64::from(away.why) as i64 * (1 << 32) + i64::from(away.place)),
    }
}
