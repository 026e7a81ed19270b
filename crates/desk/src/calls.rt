// A call on a desk, read, checked, done and answered.
ghost use Rattle.std.specs.Prelude.{◌≡◌, IfSome, IfNone};
ghost use Rattle.estate.specs.Refusals.{place, too_large};
ghost use Rattle.wire.specs.Meaning.{heard, meaning, told};
ghost use Rattle.wire.specs.Reading.{read};
ghost use Rattle.desk.specs.Calling.{Called, turned_alone};
ghost use Rattle.desk.specs.Steps.{Reads, Sends};
ghost use Rattle.desk.specs.Memory.{Lent};
ghost use Rattle.desk.specs.Promises.{DesksRight, RefusalsKeep, RefusedAlone, DescribedObeys};

use crate::header::Header;
use crate::opening::refused;
use estate::cents_allowed;
use shares::Shares;
use wire::{Answer, Call, Garbled, Numbers, Place, Refusal, TurnedAway};

// Does what the call in these bytes asks for, and writes its answer at the start of the bytes that are lent for it; how long
// that is. For a call that is turned away nothing is written, and nothing changes.
#[tactic(auto, using(crate::proofs::Checking::heard, crate::proofs::Promised::desks_right, crate::proofs::Promised::refusals_keep, crate::proofs::Promised::refused_alone, crate::proofs::Described::described_obeys))]
pub fn call(mem: &mut [u64], bytes: &[u8], out: &mut [u8]) -> Result<usize, TurnedAway>
    ensures called { Called (read bytes.now) mem.old mem.new out.old out.new result }
    ensures desks_right { DesksRight }
    ensures refusals_keep { RefusalsKeep }
    ensures refused_alone { RefusedAlone }
    ensures described_obeys { DescribedObeys }
{
    answer(mem, Call::decode(bytes), out)
}

// The same for what was read.
#[tactic(auto, using(crate::proofs::Checking::checks))]
fn answer(
    mem: &mut [u64],
    decoded: Result<Call, Garbled>,
    out: &mut [u8],
) -> Result<usize, TurnedAway>
    ensures { Called (heard decoded) mem.old mem.new out.old out.new result }
{
    let call = decoded?;
    let Some(call) = moderate(call) else {
        return Err(refused(Refusal::TooLarge, cents_place(call)));
    };
    let Some(header) = Header::of(mem, out) else {
        return Err(refused(Refusal::NotLent, 1));
    };
    header.serve(mem, call, out)
}

// The call, if the cents in it are not too many.
fn moderate(call: Call) -> Option<Call>
    ensures some { IfSome result (λ c. (c ≡ call) × (turned_alone (meaning call) ≡ 0)) }
    ensures none { IfNone result (turned_alone (meaning call) ≡ too_large) }
{
    let cents = match call {
        Call::Claim(cents) | Call::Prove(_, cents) | Call::Come(cents) => cents,
        Call::Shares | Call::Cents => 0,
    };
    cents_allowed(cents).then_some(call)
}

// The place of the cents among the numbers of a call.
fn cents_place(call: Call) -> Place
    ensures { result ≡ place (meaning call) too_large }
{
    match call {
        Call::Prove(..) => 1,
        Call::Claim(_) | Call::Come(_) | Call::Shares | Call::Cents => 0,
    }
}

impl Header {
    // Does what is asked for, and writes the answer.
    #[tactic(auto, using(crate::proofs::Answering::answers))]
    fn serve(self, mem: &mut [u64], call: Call, out: &mut [u8]) -> Result<usize, TurnedAway>
        requires reads { Reads self mem.old }
        requires lent { Lent mem.old out.old }
        requires moderate { turned_alone (meaning call) ≡ 0 }
        ensures { Called (meaning call) mem.old mem.new out.old out.new result }
    {
        let number = match call {
            Call::Claim(cents) => self.claim(mem, cents)?,
            Call::Prove(place, cents) => self.prove(mem, place, cents)?,
            Call::Come(cents) => self.come(mem, cents)?,
            Call::Shares => return send(&self.division(mem).answer(), out),
            Call::Cents => return self.cents(mem, out),
        };
        send(&Answer::<&[u64]>::Number(number), out)
    }
}

// Writes an answer at the start of lent bytes, and says how long it is.
#[tactic(auto, unfolding(crate::specs::Steps::Sends))]
pub(crate) fn send<L: Numbers>(answer: &Answer<L>, out: &mut [u8]) -> Result<usize, TurnedAway>
    ensures { Sends (told L.items answer.now) out.old out.new result }
{
    answer.encode(out).or(Err(refused(Refusal::NotLent, 1)))
}
