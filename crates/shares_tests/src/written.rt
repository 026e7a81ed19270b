// Estates with their shares, worked out by hand: as words and as the bytes of an answer.
use level::{Fraction, Side, Terms, terms_of};
use shares::{Shares, check, share};
use std::alloc::Global;
use std::process::Abort;
use wire::{Answer, Refusal};

const MOST: u64 = 18446744073709551615;

// What is there, the claims as they came and in ascending order, the parts of a cent, and the shares: 33 1/3 each; 50 75 75;
// 50 100 150; 1 2/3 each; 1/2 each; 1 3/4 each; all covered; no creditors; more than half there, of claims out of order; one
// creditor; nothing there; and claims of zero.
type Estate = (u64, &'static [u64], &'static [u64], u64, &'static [u64]);

const DIVIDED: &[Estate] = &[
    (100, &[100, 200, 300], &[100, 200, 300], 6, &[200, 200, 200]),
    (200, &[100, 200, 300], &[100, 200, 300], 4, &[200, 300, 300]),
    (300, &[100, 200, 300], &[100, 200, 300], 2, &[100, 200, 300]),
    (5, &[10, 10, 10], &[10, 10, 10], 6, &[10, 10, 10]),
    (1, &[1, 1], &[1, 1], 4, &[2, 2]),
    (7, &[3, 3, 3, 3], &[3, 3, 3, 3], 8, &[14, 14, 14, 14]),
    (20, &[5, 6], &[5, 6], 4, &[20, 24]),
    (10, &[], &[], 1, &[]),
    (400, &[300, 100, 200], &[100, 200, 300], 4, &[900, 200, 500]),
    (7, &[9], &[9], 2, &[14]),
    (0, &[2, 1], &[1, 2], 4, &[0, 0]),
    (3, &[0, 8, 0], &[0, 0, 8], 2, &[0, 6, 0]),
];

// Words begin with these, and those behind stay.
fn assert_written(rt: &impl Abort, out: &[u64], words: &[u64]) {
    for (i, word) in out.iter().enumerate() {
        assert!(rt; *word == words.get(i).copied().unwrap_or(170), "at {i}");
    }
}

#[test]
fn shares_as_words(rt: HostRuntime) {
    for &(there, claims, in_order, d, shares) in DIVIDED {
        let terms = terms_of(there, in_order).expect(&rt, "no terms");
        let mut out = [170; 6];
        let written = Shares { terms, claims }.write(&mut out);
        assert!(rt; terms.parts() == d && written == Ok(shares.len()));
        assert_written(&rt, &out, shares);
        assert!(rt; shares.len() <= 6 && check(d, claims, shares).is_ok());
    }
}

// A row is read as these parts and shares.
fn assert_parts(rt: &impl Abort, heap: Global, row: &[u8], d: u64, shares: &[u64]) {
    let met = match &Answer::decode(heap, row) {
        Ok(Answer::Parts(parts, found)) => *parts == d && found.as_slice() == shares,
        _ => false,
    };
    assert!(rt; met, "{shares:?}");
}

#[test]
fn shares_as_bytes(rt: HostRuntime) {
    for &(there, claims, in_order, d, shares) in DIVIDED {
        let terms = terms_of(there, in_order).expect(&rt, "no terms");
        let mut out = [170u8; 56];
        let answer = Shares { terms, claims }.answer();
        let len = answer.encode(&mut out).ok().expect(&rt, "too long");
        assert_parts(&rt, rt.alloc(), &out[..len], d, shares);
    }
}

// The answer to the call for shares of 400 cents among 300, 100 and 200: its kind, 4 parts, 3 shares: 900, 200 and 500.
const ROW: &[u8] = b"\x02\x04\0\0\0\0\0\0\0\x03\0\0\0\0\0\0\0\
    \x84\x03\0\0\0\0\0\0\xc8\0\0\0\0\0\0\0\xf4\x01\0\0\0\0\0\0";

// Bytes begin with a row, and those behind stay.
fn assert_row(rt: &impl Abort, out: &[u8], row: &[u8]) {
    for (i, byte) in out.iter().enumerate() {
        assert!(rt; *byte == row.get(i).copied().unwrap_or(170), "at {i}");
    }
}

// Where a byte is wanting nothing is written.
#[test]
fn bytes_of_an_answer(rt: HostRuntime) {
    let terms = terms_of(400, &[100, 200, 300]).expect(&rt, "no terms");
    let claims = &[300, 100, 200];
    let answer = Shares { terms, claims }.answer();
    let mut out = [170u8; 48];
    assert!(rt; answer.encode(&mut out) == Ok(ROW.len()));
    assert_row(&rt, &out, ROW);
    let mut short = [170u8; 40];
    assert!(rt; answer.encode(&mut short) == Err(Refusal::NotLent));
    assert_row(&rt, &short, &[]);
}

#[test]
fn too_few_words(rt: HostRuntime) {
    let terms = terms_of(100, &[100, 200, 300]).expect(&rt, "no terms");
    let shares = Shares {
        terms,
        claims: &[100, 200, 300],
    };
    let mut out = [170; 2];
    assert!(rt; shares.write(&mut out) == Err(Refusal::NotLent));
    assert_written(&rt, &out, &[]);
}

// Sides, what is spread and among how many, a claim, and what it gets of terms that nobody found. The last of each side are
// more than a word holds, or would be on the way.
const MADE_UP: &[(Side, u64, u64, u64, u64)] = &[
    (Side::Gains, 7, 0, 5, 0),
    (Side::Gains, 7, 2, 3, 6),
    (Side::Gains, 7, 2, 4, 7),
    (Side::Gains, MOST, MOST, MOST, MOST),
    (Side::Losses, 7, 2, 3, 6),
    (Side::Losses, 7, 2, 4, 9),
    (Side::Losses, MOST - 1, 1, MOST, MOST),
    (Side::Losses, 0, 1, MOST, MOST),
];

#[test]
fn shares_of_made_up_terms(rt: HostRuntime) {
    for &(side, numerator, denominator, claim, parts) in MADE_UP {
        let level = Fraction {
            numerator,
            denominator,
        };
        assert!(rt; share(Terms { side, level }, claim) == parts, "{claim}");
    }
}
