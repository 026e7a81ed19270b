// A file of calls, and the lines that answer them.
ghost use Rattle.std.specs.Prelude.{IfOk, string_bytes};
ghost use Rattle.transcript.specs.Laws.{CallsHeld, Cut, EachRight, OneTranscript, UnreadHeld};
ghost use Rattle.transcript.specs.Sessions.{estate_at};
ghost use Rattle.transcript.specs.Transcripts.{Answers, IsTranscript};

use crate::session::Session;
use std::alloc::{AllocError, Global};
use text::Shown;
use wire::Calls;

// The answers to the calls that a file holds, one behind the other, a line for each. What cannot be read is answered once,
// as the last.
#[tactic(auto, using(crate::proofs::Lines::laws))]
pub fn transcript(heap: Global, calls: &[u8]) -> Result<String, AllocError>
    ensures lines { IfOk result (λ text. IsTranscript calls.now (string_bytes text)) }
    ensures one { OneTranscript }
    ensures calls { CallsHeld }
    ensures unread { UnreadHeld }
    ensures cut { Cut }
    ensures right { EachRight }
{
    answer_all(heap, Session::open(heap)?, calls)
}

// The answers of a session to the calls that a file holds.
#[tactic(auto, using(crate::proofs::Lines::steps))]
fn answer_all(heap: Global, session: Session, calls: &[u8]) -> Result<String, AllocError>
    ensures { IfOk result (λ text. Answers (estate_at session) calls.now (string_bytes text)) }
{
    let mut session = session;
    let mut text = String::new(heap);
    for bytes in Calls(calls) {
        let answer = session.answer(heap, bytes)?;
        writeln!(text, "{}", Shown(&answer))?;
    }
    Ok(text)
}
