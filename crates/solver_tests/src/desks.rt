// Desks that are driven by bytes, and what they answer held against shares that were found by other means.
use crate::common::{Estate, Numbers};
use crate::rounded::whole_cents;
use desk::{asked, call, open};
use shares::check;
use std::alloc::{AllocError, Global};
use std::process::Abort;
use wire::Answer::{self, Amounts, Number, Parts};
use wire::Call::{self, Cents, Claim, Come, Prove, Shares};

// A call, and the number that it is answered.
type Step = (Call, u64);

// Steps, those that are taken later, and how many cents are there in the end and have not come yet.
#[derive(Drop)]
struct Plan {
    steps: Vec<Step>,
    later: Vec<Step>,
    there: u64,
    left: u64,
}

impl Plan {
    // All cents that are left come, or some of them.
    fn come(&mut self, random: &mut Numbers) -> Result<(), AllocError> {
        let more = match random.below(2) {
            0 => self.left,
            _ => random.below(self.left.wrapping_add(1)),
        };
        self.left = self.left.wrapping_sub(more);
        let come = self.there.wrapping_sub(self.left);
        self.steps.push((Come(more), come))?;
        Ok(())
    }

    // A third of the creditors claim something else at first; that is proved at once, or when all claims are made. Cents
    // come in between.
    fn claim(&mut self, random: &mut Numbers, place: u32, claim: u64) -> Result<(), AllocError> {
        let number = u64::from(place);
        let kind = random.below(6);
        let first = if kind < 2 { random.below(30) } else { claim };
        self.steps.push((Claim(first), number))?;
        if kind % 2 == 1 {
            self.come(random)?;
        }
        match kind {
            0 => self.later.push((Prove(place, claim), number))?,
            1 => self.steps.push((Prove(place, claim), number))?,
            _ => {}
        }
        Ok(())
    }

    // All claims are made. Cents that are left come last.
    fn make(&mut self, random: &mut Numbers, claims: &[u64]) -> Result<(), AllocError> {
        for (claim, place) in claims.iter().zip(0u32..1024) {
            self.claim(random, place, *claim)?;
        }
        self.come(random)
    }
}

fn steps(heap: Global, random: &mut Numbers, estate: Estate) -> Result<Vec<Step>, AllocError> {
    let (claims, there) = estate;
    let mut plan = Plan {
        steps: Vec::new(heap),
        later: Vec::new(heap),
        there,
        left: there,
    };
    plan.make(random, claims)?;
    let Plan {
        mut steps,
        later,
        left,
        ..
    } = plan;
    steps.extend(later)?;
    steps.push((Come(left), there))?;
    Ok(steps)
}

// What a call is answered. Both go as bytes.
fn told(rt: &impl Abort, heap: Global, mem: &mut [u64], asks: Call) -> Answer<Vec<u64>> {
    let mut bytes = [0u8; 17];
    let len = asks.encode(&mut bytes).expect(rt, "no call is longer");
    let mut out = [170u8; 120];
    let sent = call(mem, &bytes[..len], &mut out).expect(rt, "turned away");
    let answer = out.get(..sent).expect(rt, "more than was lent");
    Answer::decode(heap, answer).ok().expect(rt, "no answer")
}

// How many parts a cent has, and shares in these, against other parts and shares: each creditor has as much.
fn same(one: (u64, &[u64]), other: (u64, &[u64])) -> bool {
    for (share, with) in one.1.iter().zip(other.1) {
        if share.checked_mul(other.0) != with.checked_mul(one.0) {
            return false;
        }
    }
    one.1.len() == other.1.len()
}

// Each step is answered its number.
fn take(rt: &impl Abort, heap: Global, mem: &mut [u64], steps: Vec<Step>) {
    for (call, number) in steps {
        assert!(rt; told(rt, heap, mem, call) == Number(number), "{call:?}");
    }
}

// A desk answers with these shares, which are given in so many parts of a cent; its own parts are few, so that no product is
// too large.
fn assert_shares(
    rt: &impl Abort,
    heap: Global,
    mem: &mut [u64],
    claims: &[u64],
    wanted: (u64, &[u64]),
) {
    let Parts(d, found) = told(rt, heap, mem, Shares) else {
        panic!(rt; "{claims:?}");
    };
    assert!(rt; 0 < d && d <= 1000);
    assert!(rt; same((d, &found), wanted), "{claims:?}");
    assert!(rt; check(d, claims, &found).is_ok(), "{claims:?}");
}

// A desk answers with the whole cents of these shares.
fn assert_cents(
    rt: &impl Abort,
    heap: Global,
    mem: &mut [u64],
    claims: &[u64],
    wanted: (u64, &[u64]),
) {
    let (parts, shares) = wanted;
    let Amounts(found) = told(rt, heap, mem, Cents) else {
        panic!(rt; "{claims:?}");
    };
    let cents = whole_cents(heap, parts, shares)
        .ok()
        .expect(rt, "no memory");
    assert!(rt; found == cents, "{claims:?} {found:?}");
}

// Numbers at random, and memory for a desk of up to twelve creditors.
#[derive(Drop)]
pub(crate) struct Bench {
    pub(crate) random: Numbers,
    words: [u64; 100],
}

impl Bench {
    // The memory held something else.
    pub(crate) fn new(seed: u64) -> Bench {
        Bench {
            random: Numbers(seed),
            words: [11; 100],
        }
    }

    // A desk is opened where another was, and takes the steps. It answers with these shares, which are given in so many
    // parts of a cent, and with their whole cents.
    pub(crate) fn assert_desk(
        &mut self,
        rt: &impl Abort,
        heap: Global,
        estate: Estate,
        parts: u64,
        shares: &[u64],
    ) {
        let (claims, _) = estate;
        let limit = claims.len().wrapping_add(self.random.below(3) as usize);
        let steps = steps(heap, &mut self.random, estate)
            .ok()
            .expect(rt, "no memory");
        let words = asked(limit).expect(rt, "too many").words;
        assert!(rt; words <= 100);
        let lent = &mut self.words[..words];
        open(lent, limit).expect(rt, "not opened");
        take(rt, heap, lent, steps);
        assert_shares(rt, heap, lent, claims, (parts, shares));
        assert_cents(rt, heap, lent, claims, (parts, shares));
    }
}
