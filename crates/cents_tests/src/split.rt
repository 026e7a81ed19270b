// Whole cents on the terms of a division, with the fast way and by division: both come to what is worked out by hand.
use crate::whole::assert_words;
use cents::Cents;
use level::{Fraction, Side, Terms};
use shares::Shares;
use std::process::Abort;

const MOST: u64 = 18446744073709551615;

// The side, what is spread and among how many, claims, and their whole cents. At a level of 100 each, claims at and above it
// and below it; at a level of 33 1/3; and claims that do not fit 32 bits. Then come terms that somebody made up: with no
// sharers; with more parts than 32 bits hold; and with shares that no word holds.
const SPLIT: &[(Side, u64, u64, &[u64], &[u64])] = &[
    (Side::Gains, 300, 3, &[100, 101, 99, 1], &[50, 50, 50, 0]),
    (Side::Losses, 300, 3, &[100, 101, 99, 1], &[50, 51, 50, 0]),
    (
        Side::Gains,
        100,
        3,
        &[33, 34, 35, 34, 1],
        &[16, 17, 17, 17, 0],
    ),
    (
        Side::Losses,
        100,
        3,
        &[34, 35, 36, 33, 1],
        &[17, 18, 19, 17, 1],
    ),
    (Side::Losses, 100, 3, &[33, 1], &[17, 0]),
    (
        Side::Gains,
        1 << 40,
        1,
        &[1 << 40, (1 << 40) + 2],
        &[1 << 39, 1 << 39],
    ),
    (
        Side::Losses,
        1 << 40,
        1,
        &[1 << 40, (1 << 40) + 2],
        &[1 << 39, (1 << 39) + 2],
    ),
    (Side::Gains, 5, 0, &[5, 7], &[0, 0]),
    (Side::Losses, 5, 0, &[5, 7], &[0, 0]),
    (Side::Gains, 5 << 31, 1 << 31, &[3, 5], &[2, 2]),
    (Side::Gains, MOST, 1 << 63, &[2, 0, 3], &[1, 0, 1]),
    (Side::Losses, 0, 1 << 63, &[1, 0, 2], &[1, 0, 1]),
];

// The whole cents on these terms, and those of the shares on them, are these words.
fn assert_split(rt: &impl Abort, terms: Terms, claims: &[u64], words: &[u64]) {
    let shares = Shares { terms, claims };
    let cents = Cents::of(shares).ok().expect(rt, "refused");
    assert_words(rt, cents, words);
    let mut written = [0; 8];
    let count = shares.write(&mut written).ok().expect(rt, "too long");
    let given = written.get(..count).expect(rt, "too long");
    let same = Cents::new(terms.parts(), given).ok().expect(rt, "refused");
    assert_words(rt, same, words);
}

#[test]
fn split_as_divided(rt: HostRuntime) {
    for &(side, numerator, denominator, claims, words) in SPLIT {
        let level = Fraction {
            numerator,
            denominator,
        };
        assert_split(&rt, Terms { side, level }, claims, words);
    }
}

// A share that is no whole cents, at the level and of the largest parts of a cent.
#[test]
fn refused_both_ways(rt: HostRuntime) {
    for (numerator, denominator) in [(100, 3), (MOST, 1 << 63)] {
        let level = Fraction {
            numerator,
            denominator,
        };
        let side = Side::Gains;
        let shares = Shares {
            terms: Terms { side, level },
            claims: &[1],
        };
        assert!(rt; Cents::of(shares).is_err());
    }
}
