// The header of a desk.
ghost use Rattle.std.specs.Prelude.{IfSome, IfNone};
ghost use Rattle.desk.specs.Steps.{Reads};
ghost use Rattle.desk.specs.Memory.{Lent};

use crate::opening::asked;
use estate::MOST_THERE;

// How many words it has. Those behind the numbers are 0.
pub(crate) const HEADER: usize = 64;

// The places of its numbers.
pub(crate) const LIMIT: usize = 0;

pub(crate) const THERE: usize = 1;

pub(crate) const COUNT: usize = 2;

// The numbers of the header, and the place where the ledger behind it ends.
#[derive(Clone, Copy, Debug)]
pub(crate) struct Header {
    pub(crate) there: u64,
    pub(crate) count: usize,
    pub(crate) end: usize,
}

impl Header {
    // What it says, if its numbers may be a desk's and as much is lent as such a desk asks for.
    pub(crate) fn of(mem: &[u64], out: &[u8]) -> Option<Header>
        ensures some { IfSome result (λ h. Reads h mem.now × Lent mem.now out.now) }
        ensures none { IfNone result (Lent mem.now out.now → ⊥) }
    {
        let [limit, there, count, ..] = *mem else {
            return None;
        };
        let loan = asked(limit as usize).ok()?;
        let fits = there <= MOST_THERE
            && count <= limit
            && loan.words <= mem.len()
            && loan.bytes <= out.len();
        fits.then_some(Header {
            there,
            count: count as usize,
            end: loan.words,
        })
    }
}
