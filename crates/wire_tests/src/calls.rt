// Calls and their rows, written out by hand.
use crate::answers::assert_row;
use std::process::Abort;
use wire::{Call, Calls, Garbled, Refusal};

// Calls, and the bytes of each.
const GOOD: &[(Call, &[u8])] = &[
    (
        Call::Claim(0x0102030405060708),
        b"\x00\x08\x07\x06\x05\x04\x03\x02\x01",
    ),
    (Call::Claim(0), b"\0\0\0\0\0\0\0\0\0"),
    (
        Call::Prove(3, 300),
        b"\x01\x03\0\0\0\0\0\0\0\x2c\x01\0\0\0\0\0\0",
    ),
    (
        Call::Prove(4294967295, 0),
        b"\x01\xff\xff\xff\xff\0\0\0\0\0\0\0\0\0\0\0\0",
    ),
    (
        Call::Come(18446744073709551615),
        b"\x02\xff\xff\xff\xff\xff\xff\xff\xff",
    ),
    (Call::Shares, b"\x03"),
    (Call::Cents, b"\x04"),
];

#[test]
fn rows_that_are_calls(rt: HostRuntime) {
    for &(call, row) in GOOD {
        assert!(rt; Call::decode(row) == Ok(call), "{row:?}");
    }
}

// A call is written at the start, and what lies behind stays; a byte less than it takes is too few.
fn assert_call(rt: &impl Abort, call: Call, row: &[u8]) {
    let len = row.len();
    assert!(rt; len >= 1 && len <= 20);
    let mut out = [170u8; 20];
    assert!(rt; call.encode(&mut out[..len - 1]) == Err(Refusal::NotLent));
    assert_row(rt, &out, &[]);
    assert!(rt; call.encode(&mut out) == Ok(len));
    assert_row(rt, &out, row);
}

#[test]
fn calls_that_are_rows(rt: HostRuntime) {
    for &(call, row) in GOOD {
        assert_call(&rt, call, row);
    }
}

// A kind, how many bytes there are, those behind it 0, and the place of the first that does not fit.
const BAD: &[(u8, usize, u32)] = &[
    (0, 0, 0),
    (5, 1, 0),
    (5, 9, 0),
    (255, 18, 0),
    (0, 1, 1),
    (0, 8, 8),
    (0, 10, 9),
    (1, 1, 1),
    (1, 9, 9),
    (1, 16, 16),
    (1, 18, 17),
    (2, 1, 1),
    (2, 8, 8),
    (2, 10, 9),
    (3, 2, 1),
    (4, 2, 1),
];

#[test]
fn rows_that_are_none(rt: HostRuntime) {
    for &(kind, len, place) in BAD {
        let mut row = [0u8; 18];
        row[0] = kind;
        assert!(rt; len <= 18);
        assert!(rt;
            Call::decode(&row[0..len]) == Err(Garbled(place)),
            "{kind} {len}"
        );
    }
}

// Places of 2^32 and of 2^64 - 1 are held as the last of 32 bits, and not cut to 0 or to that of another claim.
#[test]
fn places_past_32_bits(rt: HostRuntime) {
    let first = b"\x01\0\0\0\0\x01\0\0\0\x05\0\0\0\0\0\0\0";
    assert!(rt; Call::decode(first) == Ok(Call::Prove(4294967295, 5)));
    let last = b"\x01\xff\xff\xff\xff\xff\xff\xff\xff\x05\0\0\0\0\0\0\0";
    assert!(rt; Call::decode(last) == Ok(Call::Prove(4294967295, 5)));
}

// Calls that follow each other with nothing between. The last is cut short.
const IN_A_ROW: &[u8] = b"\x03\x02\x07\0\0\0\0\0\0\0\x04\x00\x01";

// The bytes of each, and what they are read as.
const EACH: &[(&[u8], Result<Call, Garbled>)] = &[
    (b"\x03", Ok(Call::Shares)),
    (b"\x02\x07\0\0\0\0\0\0\0", Ok(Call::Come(7))),
    (b"\x04", Ok(Call::Cents)),
    (b"\x00\x01", Err(Garbled(2))),
];

// The first is split off as this one, and read so. Gives what is behind it.
fn behind<'a>(
    rt: &impl Abort,
    rows: &'a [u8],
    row: &[u8],
    call: Result<Call, Garbled>,
) -> &'a [u8] {
    let (first, behind) = Call::split_first(rows);
    assert!(rt; first == row);
    assert!(rt; Call::decode(first) == call, "{row:?}");
    behind
}

// One after the other is split off, until none is left. Behind an unknown one nothing can be read.
#[test]
fn calls_one_by_one(rt: HostRuntime) {
    let mut rest = IN_A_ROW;
    for &(row, call) in EACH {
        rest = behind(&rt, rest, row, call);
    }
    assert!(rt; rest.is_empty());
    let all: &[u8] = b"\x09\x03\x03";
    let rest = behind(&rt, all, all, Err(Garbled(0)));
    assert!(rt; rest.is_empty());
}

// The same, taken by turns: after the last there is none.
#[test]
fn calls_in_turn(rt: HostRuntime) {
    let mut calls = Calls(IN_A_ROW);
    for &(row, call) in EACH {
        assert!(rt; calls.next() == Some(row));
        assert!(rt; Call::decode(row) == call, "{row:?}");
    }
    assert!(rt; calls.next().is_none());
}
