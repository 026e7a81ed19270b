// As many cents, and as many creditors, as there may be.
use crate::common::{HELD, MUCH, NOT_LENT, WORDS, assert_call, desk_of};
use desk::open;
use std::process::Abort;
use std::test::Fail;
use wire::Answer::{Amounts, Number, Parts, Refused};
use wire::Call::{Cents, Claim, Come, Prove, Shares};
use wire::{Refusal, TurnedAway};

const NO_ROOM: TurnedAway = TurnedAway {
    why: Refusal::NoRoom,
    place: 0,
};

// A thousand times as much as may come at once, and one cent.
#[test]
fn as_many_cents_as_may_be(rt: HostRuntime) -> Result<(), Fail> {
    let mut mem = [HELD; WORDS];
    open(&mut mem, 3)?;
    for i in 0..1000 {
        let there = (i + 1) * MUCH;
        assert_call(&rt, &mut mem, Come(MUCH), 48, &Number(there));
    }
    assert_call(&rt, &mut mem, Come(1), 48, &Refused(NO_ROOM));
    assert!(rt; mem == desk_of(3, 1_000_000_000_000, [&[]; 3]));
    Ok(())
}

// As many claims as there may be, of ten cents each.
fn fill(rt: &impl Abort, mem: &mut [u64]) {
    for i in 0..1024 {
        assert_call(rt, mem, Claim(10), 8216, &Number(i));
    }
}

// From which place on memory holds which words, when it is full, and when the last claim has become one cent.
type Held = &'static [(usize, &'static [u64])];

const FULL: Held = &[
    (2110, &[10, 10, 10, 20, 30, 40, 50, 60, 70, 80]),
    (3132, &[10210, 10220, 10230, 10240, HELD, HELD]),
];

const CHANGED: Held = &[
    (1086, &[10, 1, 1, 10]),
    (2110, &[10, 10, 1, 11, 21, 31, 41, 51, 61, 71]),
    (2623, &[5111, 5121]),
    (3132, &[10201, 10211, 10221, 10231, HELD, HELD]),
];

fn assert_held(rt: &impl Abort, mem: &[u64], held: Held) {
    for &(at, words) in held {
        assert!(rt; at <= mem.len());
        assert!(rt; mem[at..].starts_with(words), "at {at}");
    }
}

// There is no room for one more, and a header that says so is no desk's.
fn assert_full(rt: &impl Abort, mem: &mut [u64; 3138]) {
    let before = *mem;
    assert_call(rt, mem, Claim(10), 8216, &Refused(NO_ROOM));
    assert!(rt; *mem == before);
    mem[0] = 1025;
    assert_call(rt, mem, Come(0), 8224, &Refused(NOT_LENT));
    mem[0] = 1024;
    assert!(rt; *mem == before);
}

// The last has half a cent, and each of the others 5,999 parts of 2,046; 954 of them have three cents, and 69 two.
fn assert_divided(rt: &impl Abort, mem: &mut [u64]) {
    let mut shares = [5999; 1024];
    shares[1023] = 1023;
    assert_call(rt, mem, Shares, 8216, &Parts(2046, &shares));
    let mut cents = [2; 1024];
    cents[..954].fill(3);
    cents[1023] = 0;
    assert_call(rt, mem, Cents, 8216, &Amounts(&cents));
    let sum = cents.iter().fold(0u64, |sum, n| sum.wrapping_add(*n));
    assert!(rt; sum == 3000);
}

// The last claim becomes one cent, the first in order: each sum from place 0 on is nine cents less. 3,000 cents come.
#[test]
fn as_many_creditors_as_may_be(rt: HostRuntime) -> Result<(), Fail> {
    let mut mem = [HELD; 3138];
    open(&mut mem, 1024)?;
    fill(&rt, &mut mem);
    assert_held(&rt, &mem, FULL);
    assert_full(&rt, &mut mem);
    assert_call(&rt, &mut mem, Prove(1023, 1), 8216, &Number(1023));
    assert_call(&rt, &mut mem, Come(3000), 8216, &Number(3000));
    assert_held(&rt, &mem, CHANGED);
    assert_divided(&rt, &mut mem);
    Ok(())
}
