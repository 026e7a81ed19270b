// Calls that are turned away: why, at which place, and that nothing is changed.
use crate::common::{Ledger, MOST, MUCH, WORDS, assert_row, desk_of};
use std::process::Abort;
use std::test::Fail;
use wire::Call::{Claim, Come, Prove, Shares};
use wire::Refusal::{NoRoom, NotLent, NotThere, TooLarge, Unreadable};
use wire::{Answer, Call, Place, Refusal, TurnedAway};

// The header in front of a ledger of three, how many words are lent, and how many bytes for an answer.
type Lent = ([u64; 3], usize, usize);

// A full desk with five cents less than there may be, and just what it asks for; and numbers that are none of a desk.
const FULL: Lent = ([3, 999_999_999_995, 3], 73, 48);

const NO_DESK: Lent = ([MOST; 3], 73, 48);

// What stands behind the header.
const CLAIMS: Ledger = [&[300, 100, 200], &[100, 200, 300], &[100, 300, 600]];

// The bytes are turned away so, and no word is changed.
fn turned_away(rt: &impl Abort, lent: Lent, bytes: &[u8], why: Refusal, place: Place) {
    let (header, words, room) = lent;
    assert!(rt; words <= WORDS);
    let mut before = desk_of(3, 0, CLAIMS);
    before[..3].copy_from_slice(&header);
    let mut mem = before;
    let refused = Answer::Refused(TurnedAway { why, place });
    assert_row(rt, &mut mem[..words], bytes, room, &refused);
    assert!(rt; mem == before);
}

// Bytes that are no call, and the place of the first that does not fit: none, an unknown kind, too few, too many.
const GARBLED: &[(&[u8], Place)] = &[
    (b"", 0),
    (b"\x05", 0),
    (b"\x00\xff\xff\xff\xff\xff\xff\xff", 8),
    (b"\x02\xff\xff\xff\xff\xff\xff\xff\xff\0", 9),
    (b"\x01\0\0\0\0\0\0\0\0\0\0\0\0\0\0\0\0\0", 17),
    (b"\x04\x04", 1),
];

// However large the cents would be, and whatever memory holds.
#[test]
fn unreadable_calls(rt: HostRuntime) {
    for &(bytes, place) in GARBLED {
        turned_away(&rt, FULL, bytes, Unreadable, place);
        turned_away(&rt, NO_DESK, bytes, Unreadable, place);
    }
}

// Too large; besides not there, no room, no desk. No desk, besides no room; a byte or a word less than is asked for, less
// than a header; a claim or a cent too many; a limit of which three times is cut to 2 in a word; besides no room, not there.
// Not there, and on a desk without creditors. No room for a claim, on a desk without creditors, and for a cent too many.
const REFUSED: &[(Lent, Call, Refusal, Place)] = &[
    (FULL, Prove(2, MUCH + 1), TooLarge, 1),
    (([3, 0, 3], 73, 48), Come(MUCH + 1), TooLarge, 0),
    (FULL, Prove(3, MUCH + 1), TooLarge, 1),
    (FULL, Claim(MUCH + 1), TooLarge, 0),
    (NO_DESK, Claim(MUCH + 1), TooLarge, 0),
    (NO_DESK, Prove(0, MOST), TooLarge, 1),
    (NO_DESK, Claim(0), NotLent, 1),
    (([3, 0, 3], 73, 47), Shares, NotLent, 1),
    (([3, 0, 3], 72, 48), Come(1), NotLent, 1),
    (([0; 3], 63, 24), Come(1), NotLent, 1),
    (([0; 3], 2, 24), Shares, NotLent, 1),
    (([3, 0, 4], 73, 48), Shares, NotLent, 1),
    (([3, 1_000_000_000_001, 3], 73, 48), Come(0), NotLent, 1),
    (([6148914691236517206, 0, 3], 73, 48), Shares, NotLent, 1),
    (([3, 0, 3], 72, 48), Claim(1), NotLent, 1),
    (([3, 0, 3], 73, 47), Prove(3, 1), NotLent, 1),
    (FULL, Prove(3, 5), NotThere, 0),
    (FULL, Prove(4294967295, 0), NotThere, 0),
    (([0; 3], 64, 24), Prove(0, 5), NotThere, 0),
    (FULL, Claim(0), NoRoom, 0),
    (([0; 3], 64, 24), Claim(5), NoRoom, 0),
    (FULL, Come(6), NoRoom, 0),
];

#[test]
fn refused_calls(rt: HostRuntime) -> Result<(), Fail> {
    for &(lent, asked, why, place) in REFUSED {
        let mut bytes = [0u8; 17];
        let len = asked.encode(&mut bytes)?;
        turned_away(&rt, lent, &bytes[..len], why, place);
    }
    Ok(())
}
