// Answers and their rows, written out by hand.
use std::alloc::Global;
use std::process::Abort;
use std::test::Fail;
use wire::{Answer, DecodeError, Refusal, TurnedAway};

const REFUSED: &[u8] = b"\x00\x05\0\0\0\0\0\0\0\x01\0\0\0\0\0\0\0";

const NUMBER: &[u8] = b"\x01\x15\xcd\x5b\x07\0\0\0\0";

const SHARES: &[u8] =
    b"\x02\x04\0\0\0\0\0\0\0\x02\0\0\0\0\0\0\0\xc8\0\0\0\0\0\0\0\x2c\x01\0\0\0\0\0\0";

const CENTS: &[u8] = b"\x03\x01\0\0\0\0\0\0\0\x22\0\0\0\0\0\0\0";

const NO_CENTS: &[u8] = b"\x03\0\0\0\0\0\0\0\0";

// Bytes begin with a row, and those behind stay.
pub(crate) fn assert_row(rt: &impl Abort, out: &[u8], row: &[u8]) {
    for (i, byte) in out.iter().enumerate() {
        assert!(rt; *byte == row.get(i).copied().unwrap_or(170), "at {i}");
    }
}

// The row is read as the answer, and the answer is written as the row; what lies behind stays.
fn there_and_back(rt: &impl Abort, heap: Global, answer: Answer<Vec<u64>>, row: &[u8]) {
    let mut out = [170u8; 40];
    assert!(rt; answer.encode(&mut out) == Ok(row.len()));
    assert_row(rt, &out, row);
    assert!(rt; Answer::decode(heap, row) == Ok(answer));
}

#[test]
fn answers_and_their_rows(rt: HostRuntime) -> Result<(), Fail> {
    let heap = rt.alloc();
    let refused = TurnedAway {
        why: Refusal::NoRoom,
        place: 1,
    };
    there_and_back(&rt, heap, Answer::Refused(refused), REFUSED);
    there_and_back(&rt, heap, Answer::Number(123456789), NUMBER);
    there_and_back(
        &rt,
        heap,
        Answer::Parts(4, vec![in heap; 200, 300]?),
        SHARES,
    );
    there_and_back(&rt, heap, Answer::Amounts(vec![in heap; 34]?), CENTS);
    there_and_back(&rt, heap, Answer::Amounts(Vec::new(heap)), NO_CENTS);
    Ok(())
}

// A byte less than it takes is too few, and nothing is written.
#[test]
fn too_little_lent(rt: HostRuntime) {
    let mut out = [170u8; 32];
    let shares: &[u64] = &[200, 300];
    let answer = Answer::Parts(4, shares);
    assert!(rt; answer.encode(&mut out) == Err(Refusal::NotLent));
    assert_row(&rt, &out, &[]);
}

// No byte, an unknown kind, a list longer or shorter than its count, half a number, an unknown refusal, a place of 2^32.
const NONE: &[&[u8]] = &[
    b"",
    b"\x04",
    b"\x03\x02\0\0\0\0\0\0\0\x22\0\0\0\0\0\0\0",
    b"\x03\0\0\0\0\0\0\0\0\x22\0\0\0\0\0\0\0",
    b"\x01\0\0\0\0",
    b"\x00\x06\0\0\0\0\0\0\0\0\0\0\0\0\0\0\0",
    b"\x00\0\0\0\0\0\0\0\0\0\0\0\0\0\0\0\0",
    b"\x00\x01\0\0\0\0\0\0\0\0\0\0\0\x01\0\0\0",
];

#[test]
fn rows_that_are_no_answers(rt: HostRuntime) {
    for &row in NONE {
        assert!(rt; Answer::decode(rt.alloc(), row) == Err(DecodeError::NoAnswer));
    }
}
