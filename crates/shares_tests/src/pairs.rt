// Parts of a cent, claims, and shares: whether they divide, and where not.
use shares::{Fault, check};

const MOST: u64 = 18446744073709551615;

// The parts of a cent, the claims and the shares: of 100, 200 and 300 with 100, 200, 300, 400 and 500 there; equal claims;
// a coat of which one claims all and the other half; claims of zero; one creditor with less than it claims, and with all;
// all covered; nothing there; no creditors; the largest numbers.
const RIGHT: &[(u64, &[u64], &[u64])] = &[
    (6, &[100, 200, 300], &[200, 200, 200]),
    (1, &[100, 200, 300], &[50, 75, 75]),
    (4, &[100, 200, 300], &[200, 300, 300]),
    (2, &[100, 200, 300], &[100, 200, 300]),
    (4, &[300, 100, 200], &[900, 200, 500]),
    (3, &[100, 200, 300], &[200, 500, 800]),
    (6, &[10, 10, 10], &[10, 10, 10]),
    (4, &[1, 1], &[2, 2]),
    (2, &[2, 1], &[3, 1]),
    (2, &[0, 0, 7], &[0, 0, 10]),
    (4, &[0, 0], &[0, 0]),
    (2, &[9], &[8]),
    (2, &[9], &[18]),
    (1, &[5, 6], &[5, 6]),
    (7, &[1, 2], &[0, 0]),
    (1, &[], &[]),
    (MOST, &[MOST, MOST, MOST], &[MOST, MOST, MOST]),
    (1, &[MOST, MOST], &[MOST, MOST]),
    (MOST, &[0, MOST], &[0, MOST]),
    (MOST, &[MOST, 0], &[MOST, 0]),
    (MOST, &[MOST], &[MOST]),
    (1, &[MOST], &[MOST]),
];

#[test]
fn right_shares_pass(rt: HostRuntime) {
    for &(d, claims, shares) in RIGHT {
        assert!(rt; check(d, claims, shares).is_ok(), "{shares:?}");
    }
}

// The parts of a cent, claims, shares, and what is wrong.
type Wrong = (u64, &'static [u64], &'static [u64], Fault);

// Equal claims with different shares; the sum put right at the last creditor; more than both claim, divided as two do;
// in proportion to what is claimed, and all alike; the later pairs only; a lone creditor above its claim; the largest numbers.
const UNFAIR: &[Wrong] = &[
    (1, &[10, 10], &[2, 3], Fault::Pair(0, 1)),
    (1, &[10, 10, 10], &[1, 1, 3], Fault::Pair(0, 2)),
    (1, &[100, 200, 300], &[33, 33, 34], Fault::Pair(0, 2)),
    (1, &[0, 0], &[1, 1], Fault::Pair(0, 1)),
    (1, &[5, 6], &[6, 7], Fault::Pair(0, 1)),
    (3, &[100, 200, 300], &[100, 200, 300], Fault::Pair(0, 1)),
    (1, &[100, 200, 300], &[100, 100, 100], Fault::Pair(0, 1)),
    (1, &[100, 200, 300], &[50, 75, 76], Fault::Pair(1, 2)),
    (1, &[2, 2, 100, 100], &[1, 1, 30, 40], Fault::Pair(2, 3)),
    (2, &[9], &[19], Fault::Alone),
    (1, &[0], &[1], Fault::Alone),
    (1, &[MOST - 1], &[MOST], Fault::Alone),
    (1, &[0, 0], &[MOST, MOST], Fault::Pair(0, 1)),
    (
        MOST,
        &[MOST, MOST, MOST],
        &[MOST, MOST, 0],
        Fault::Pair(0, 2),
    ),
    (MOST, &[MOST, MOST, MOST], &[0, MOST, 0], Fault::Pair(0, 1)),
    (MOST, &[0, MOST], &[MOST, MOST], Fault::Pair(0, 1)),
];

// What is refused first: one share too few or too many, also where a cent has no parts; and no parts, also where two do not
// divide as two do.
const SHAPELESS: &[Wrong] = &[
    (1, &[1, 2], &[1], Fault::Unpaired),
    (1, &[1], &[1, 2], Fault::Unpaired),
    (1, &[], &[0], Fault::Unpaired),
    (1, &[0], &[], Fault::Unpaired),
    (0, &[0], &[], Fault::Unpaired),
    (0, &[1, 2], &[0, 0], Fault::NoParts),
    (0, &[1, 2], &[0, 1], Fault::NoParts),
    (0, &[], &[], Fault::NoParts),
];

#[test]
fn wrong_shares_are_refused_where_they_are_wrong(rt: HostRuntime) {
    for table in [UNFAIR, SHAPELESS] {
        for &(d, claims, shares, fault) in table {
            assert!(rt; check(d, claims, shares) == Err(fault), "{shares:?}");
        }
    }
}
