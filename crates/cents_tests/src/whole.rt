// Estates with their whole cents, worked out by hand: as words and as the bytes of an answer.
use cents::{Cents, Parted, Split};
use level::terms_of;
use shares::Shares;
use std::alloc::Global;
use std::process::Abort;
use wire::{Answer, Refusal};

// What is there, the claims as they came and in ascending order, and the cents. The shares are
// 33 1/3 each; 50, 75, 75; 50, 100, 150; 1 2/3 each; 1/2 each; 1 3/4 each; all that is claimed; of
// no creditors; 225, 50, 125; of one creditor; of nothing there; and of claims of zero. Then, with
// less than half there, 1 3/4, 1/2, 1 3/4; and 1 1/4, 1/2, 1 1/4. Then, with more than half there,
// 99 1/6, 99 1/6, 1/2, 99 1/6; 1 5/6, 7 5/6, 1/2, 6 5/6; 2 1/6, 8 1/6, 1/2, 7 1/6; 1 1/2, 7 1/2,
// 1/2, 6 1/2; 7 3/4, 2 3/4, 3/4, 8 3/4; and 266 2/3, 66 2/3, 166 2/3.
const PAID: &[(u64, &[u64], &[u64], &[u64])] = &[
    (100, &[100, 200, 300], &[100, 200, 300], &[34, 33, 33]),
    (200, &[100, 200, 300], &[100, 200, 300], &[50, 75, 75]),
    (300, &[100, 200, 300], &[100, 200, 300], &[50, 100, 150]),
    (5, &[10, 10, 10], &[10, 10, 10], &[2, 2, 1]),
    (1, &[1, 1], &[1, 1], &[1, 0]),
    (7, &[3, 3, 3, 3], &[3, 3, 3, 3], &[2, 2, 2, 1]),
    (20, &[5, 6], &[5, 6], &[5, 6]),
    (10, &[], &[], &[]),
    (400, &[300, 100, 200], &[100, 200, 300], &[225, 50, 125]),
    (7, &[9], &[9], &[7]),
    (0, &[2, 1], &[1, 2], &[0, 0]),
    (3, &[0, 8, 0], &[0, 0, 8], &[0, 3, 0]),
    (4, &[9, 1, 8], &[1, 8, 9], &[2, 0, 2]),
    (3, &[9, 1, 8], &[1, 8, 9], &[1, 1, 1]),
    (
        298,
        &[100, 100, 1, 100],
        &[1, 100, 100, 100],
        &[99, 99, 1, 99],
    ),
    (17, &[3, 9, 1, 8], &[1, 3, 8, 9], &[2, 8, 0, 7]),
    (18, &[3, 9, 1, 8], &[1, 3, 8, 9], &[2, 8, 1, 7]),
    (16, &[3, 9, 1, 8], &[1, 3, 8, 9], &[2, 8, 0, 6]),
    (20, &[8, 3, 1, 9], &[1, 3, 8, 9], &[8, 3, 1, 8]),
    (500, &[300, 100, 200], &[100, 200, 300], &[267, 67, 166]),
];

// The cents of what is there, with the claims as they came and in ascending order.
fn paid<'a>(rt: &impl Abort, there: u64, claims: &'a [u64], in_order: &[u64]) -> Cents<Split<'a>> {
    let terms = terms_of(there, in_order).expect(rt, "no terms");
    let shares = Shares { terms, claims };
    Cents::of(shares).ok().expect(rt, "no cents")
}

// Words begin with these, and those behind stay.
fn assert_written(rt: &impl Abort, out: &[u64], words: &[u64]) {
    for (i, word) in out.iter().enumerate() {
        assert!(rt; *word == words.get(i).copied().unwrap_or(170), "at {i}");
    }
}

// The cents are written as these words, and what lies behind them stays.
pub(crate) fn assert_words<P: Parted + Drop>(rt: &impl Abort, cents: Cents<P>, words: &[u64]) {
    let mut out = [170; 1025];
    assert!(rt; cents.write(&mut out) == Ok(words.len()));
    assert_written(rt, &out, words);
}

#[test]
fn cents_as_words(rt: HostRuntime) {
    for &(there, claims, in_order, words) in PAID {
        assert_words(&rt, paid(&rt, there, claims, in_order), words);
    }
}

// A row is read as these amounts.
fn assert_amounts(rt: &impl Abort, heap: Global, row: &[u8], cents: &[u64]) {
    let met = match &Answer::decode(heap, row) {
        Ok(Answer::Amounts(found)) => found.as_slice() == cents,
        _ => false,
    };
    assert!(rt; met, "{cents:?}");
}

#[test]
fn cents_as_bytes(rt: HostRuntime) {
    for &(there, claims, in_order, cents) in PAID {
        let mut out = [170u8; 48];
        let answer = paid(&rt, there, claims, in_order).answer();
        let len = answer.encode(&mut out).ok().expect(&rt, "too long");
        assert_amounts(&rt, rt.alloc(), &out[..len], cents);
    }
}

// The answer to the call for cents of 500 cents among 300, 100 and 200: its kind, 3 amounts: 267,
// 67 and 166.
const ROW: &[u8] = b"\x03\x03\0\0\0\0\0\0\0\
    \x0b\x01\0\0\0\0\0\0\x43\0\0\0\0\0\0\0\xa6\0\0\0\0\0\0\0";

// Bytes begin with a row, and those behind stay.
fn assert_row(rt: &impl Abort, out: &[u8], row: &[u8]) {
    for (i, byte) in out.iter().enumerate() {
        assert!(rt; *byte == row.get(i).copied().unwrap_or(170), "at {i}");
    }
}

#[test]
fn bytes_of_an_answer(rt: HostRuntime) {
    let answer = paid(&rt, 500, &[300, 100, 200], &[100, 200, 300]).answer();
    let mut out = [170u8; 48];
    assert!(rt; answer.encode(&mut out) == Ok(ROW.len()));
    assert_row(&rt, &out, ROW);
}

// One word and one byte too few.
#[test]
fn too_little_room_and_nothing_is_written(rt: HostRuntime) {
    let cents = paid(&rt, 500, &[300, 100, 200], &[100, 200, 300]);
    let mut words = [170; 2];
    assert!(rt; cents.write(&mut words) == Err(Refusal::NotLent));
    assert_written(&rt, &words, &[]);
    let mut bytes = [170u8; 32];
    assert!(rt; cents.answer().encode(&mut bytes) == Err(Refusal::NotLent));
    assert_row(&rt, &bytes, &[]);
}

// The same number for each of 1,024, but another from one place to another.
pub(crate) fn stretch(number: u64, other: u64, from: usize, to: usize) -> [u64; 1024] {
    let mut all = [number; 1024];
    for (i, one) in all.iter_mut().enumerate() {
        if from <= i && i < to {
            *one = other;
        }
    }
    all
}

// How many creditors, what is there, what each claims, what each has at least, and how many have a
// cent more.
const MANY: &[(usize, u64, u64, u64, usize)] = &[
    (65, 64, 1, 0, 64),
    (65, 33, 1, 0, 33),
    (1024, 512, 1, 0, 512),
    (1024, 1, 1_000_000_000, 0, 1),
    (1024, 999_999_999_999, 1_000_000_000, 976_562_499, 1023),
];

#[test]
fn the_first_of_equal_claims_have_a_cent_more(rt: HostRuntime) {
    for &(count, there, claim, least, more) in MANY {
        assert!(rt; count <= 1024);
        let claims = &[claim; 1024][..count];
        let words = stretch(least, least + 1, 0, more);
        assert_words(&rt, paid(&rt, there, claims, claims), &words[..count]);
    }
}
