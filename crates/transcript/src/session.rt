// A desk in memory of its own.
ghost use Rattle.std.specs.Prelude.{◌≡◌, ◌≤◌, IfOk, length, slice_index};
ghost use Rattle.desk.specs.Memory.{bytes_asked, Stands};
ghost use Rattle.estate.specs.Changes.{after};
ghost use Rattle.estate.specs.Estates.{new_estate};
ghost use Rattle.estate.specs.Limits.{most_served};
ghost use Rattle.wire.specs.Meaning.{told};
ghost use Rattle.wire.specs.Reading.{read};

use desk::{asked, call, open};
use estate::MOST_SERVED;
use std::alloc::{AllocError, Global};
use wire::{Answer, DecodeError};

// A desk for as many creditors as the programs serve, and bytes for its answers.
#[derive(Drop)]
pub(crate) struct Session {
    memory: Vec<u64>,
    sent: Vec<u8>,
    ghost stands: { Stands memory.items },
    ghost limit: { slice_index memory.items 0 ≡ most_served },
    ghost enough: { bytes_asked most_served ≤ length sent.items },
}

impl Session {
    ghost use Rattle.transcript.specs.Sessions.{answer_at, estate_at, served};

    // One without claims, in which nothing is there.
    #[tactic(auto, using(crate::proofs::Serving::openings))]
    pub(crate) fn open(heap: Global) -> Result<Session, AllocError>
        ensures { IfOk result (λ s. estate_at s ≡ new_estate) }
    {
        let loan = asked(MOST_SERVED).unwrap();
        let mut memory = vec![in heap; 0; loan.words]?;
        let sent = vec![in heap; 0; loan.bytes]?;
        open(&mut memory, MOST_SERVED).unwrap();
        Ok(Session { memory, sent })
    }

    // The answer to a call, which these bytes are or are not.
    #[tactic(auto, using(crate::proofs::Serving::replies))]
    pub(crate) fn answer(
        &mut self,
        heap: Global,
        bytes: &[u8],
    ) -> Result<Answer<Vec<u64>>, AllocError>
        ensures said { IfOk result (λ a. told (λ v. v.items) a ≡ answer_at self.old bytes.now) }
        ensures kept { estate_at self.new ≡ after served (estate_at self.old) (read bytes.now) }
    {
        let length = match call(&mut self.memory, bytes, &mut self.sent) {
            Ok(length) => length,
            Err(turned_away) => return Ok(Answer::Refused(turned_away)),
        };
        match Answer::decode(heap, &self.sent[..length]) {
            Ok(answer) => Ok(answer),
            Err(DecodeError::OutOfMemory) => Err(AllocError),
            Err(DecodeError::NoAnswer) => unreachable!(),
        }
    }
}
