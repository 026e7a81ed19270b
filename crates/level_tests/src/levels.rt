// Claims in ascending order, and the level of what is filled into them.
use level::{Estate, Fraction, fill, total};
use std::test::Fail;

const MOST: u64 = 18446744073709551615;

// Claims, what is filled in, and the level: some of it, more than all of it, into none, nothing, and the largest numbers.
const FILLED: &[(&[u64], u64, u64, u64)] = &[
    (&[100, 200, 300], 200, 200, 3),
    (&[100, 200, 300], 400, 300, 2),
    (&[100, 200, 300], 600, 300, 1),
    (&[100, 200, 300], 601, 1, 0),
    (&[], 5, 5, 0),
    (&[0, 0], 0, 0, 2),
    (&[MOST, MOST], MOST, MOST, 2),
    (&[1, MOST, MOST], MOST, 18446744073709551614, 2),
];

#[test]
fn levels_found(rt: HostRuntime) {
    for &(claims, target, numerator, denominator) in FILLED {
        let level = Fraction {
            numerator,
            denominator,
        };
        assert!(rt; fill(claims, target) == level);
    }
}

// Claims and what they come to: the last two are more than a word holds.
const TOTALS: &[(&[u64], u64)] = &[
    (&[], 0),
    (&[100, 200, 300], 600),
    (&[0, MOST], MOST),
    (&[1, MOST], MOST),
    (&[MOST, MOST, MOST], MOST),
];

#[test]
fn totals(rt: HostRuntime) {
    for &(claims, all) in TOTALS {
        assert!(rt; total(claims) == all);
    }
}

// What is there, what is claimed, and what is divided.
const DIVIDED: &[(u64, u64, u64)] = &[
    (5, 6, 5),
    (6, 5, 5),
    (1_000_000_000_000, MOST, 1_000_000_000_000),
    (1_000_000_000_000, 0, 0),
];

#[test]
fn divided(rt: HostRuntime) -> Result<(), Fail> {
    for &(there, claimed, divided) in DIVIDED {
        let estate = Estate::new(there, claimed).ok_or("none")?;
        assert!(rt; estate.divided() == divided);
    }
    assert!(rt; Estate::new(1_000_000_000_001, 0).is_none());
    Ok(())
}
