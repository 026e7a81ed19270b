// Lines, and what they are read as, or the place of the first byte that does not fit.
use crate::common::{MOST, Numbers};
use std::alloc::{AllocError, Global};
use std::process::Abort;
use std::test::Fail;
use text::{ReadError, Shown, Spaced, read_numbers, read_shares};
use wire::Answer;

// Numbers, or the place at which a line ceases to be any.
type Read<'a> = Result<&'a [u64], usize>;

fn assert_numbers(rt: &impl Abort, heap: Global, line: &[u8], want: Read) {
    let met = match read_numbers(heap, line) {
        Ok(numbers) => want == Ok(numbers.as_slice()),
        Err(ReadError::Misfit(at)) => want == Err(at),
        Err(ReadError::OutOfMemory) => false,
    };
    assert!(rt; met, "{line:?}");
}

// How many parts a cent has, and shares; or the place at which a line ceases to be any.
type Divided<'a> = Result<(u64, &'a [u64]), usize>;

fn assert_shares(rt: &impl Abort, heap: Global, line: &[u8], want: Divided) {
    let met = match read_shares(heap, line) {
        Ok(read) => want == Ok((read.parts, read.shares.as_slice())),
        Err(ReadError::Misfit(at)) => want == Err(at),
        Err(ReadError::OutOfMemory) => false,
    };
    assert!(rt; met, "{line:?}");
}

// None, one, several; blanks of each kind around and between them, a return at the end and inside; zeros in front, and more
// digits than a word's; the largest word.
const NUMBERS: &[(&[u8], Read)] = &[
    (b"", Ok(&[])),
    (b" ", Ok(&[])),
    (b"\r", Ok(&[])),
    (b" \t\r \t", Ok(&[])),
    (b"0", Ok(&[0])),
    (b"7", Ok(&[7])),
    (b"100 200 300", Ok(&[100, 200, 300])),
    (b"100\t200\r300", Ok(&[100, 200, 300])),
    (b"1   2 \t 3\t\t4", Ok(&[1, 2, 3, 4])),
    (b"  5 6", Ok(&[5, 6])),
    (b"\t5 6", Ok(&[5, 6])),
    (b"5 6  \t", Ok(&[5, 6])),
    (b"5 6\r", Ok(&[5, 6])),
    (b"0 0 00", Ok(&[0, 0, 0])),
    (b"007 010", Ok(&[7, 10])),
    (b"0000000000000000000000000000042 1", Ok(&[42, 1])),
    (b"9 10 99 100 101", Ok(&[9, 10, 99, 100, 101])),
    (b"18446744073709551615", Ok(&[MOST])),
    (
        b"018446744073709551615 18446744073709551614",
        Ok(&[MOST, MOST - 1]),
    ),
    (
        b"9999999999999999999 10000000000000000000",
        Ok(&[9_999_999_999_999_999_999, 10_000_000_000_000_000_000]),
    ),
];

// 2^64, which ceases to fit at its last digit, and with more around it; larger ones; letters, signs and points; the bytes
// beside those that fit; bytes that no text has; feeds; and the first of two.
const NO_NUMBERS: &[(&[u8], Read)] = &[
    (b"18446744073709551616", Err(19)),
    (b"1 18446744073709551616 2", Err(21)),
    (b"018446744073709551616", Err(20)),
    (b"18446744073709551620", Err(19)),
    (b"184467440737095516150", Err(20)),
    (b"20000000000000000000", Err(19)),
    (b"99999999999999999999", Err(19)),
    (b"x", Err(0)),
    (b"1x", Err(1)),
    (b"1 2 three", Err(4)),
    (b"0x10", Err(1)),
    (b"1e3", Err(1)),
    (b"-1", Err(0)),
    (b"1 -2", Err(2)),
    (b"+1", Err(0)),
    (b"1 +2", Err(2)),
    (b"100, 200", Err(3)),
    (b"1.5", Err(1)),
    (b"1_000", Err(1)),
    (b"100 200 300;", Err(11)),
    (b"1/2", Err(1)),
    (b"1:2", Err(1)),
    (b"1\x002", Err(1)),
    (b"\0", Err(0)),
    (b"1 \x80", Err(2)),
    (b"\xb2", Err(0)),
    (b"\xef\xbb\xbf1", Err(0)),
    (b"1\xc2\xa02", Err(1)),
    (b"\xff", Err(0)),
    (b"\n", Err(0)),
    (b"1 2\n", Err(3)),
    (b"1 2\r\n", Err(4)),
    (b"1\x0b2", Err(1)),
    (b"1\x0c2", Err(1)),
    (b"  a  b", Err(2)),
    (b"d 6: 1", Err(0)),
];

#[test]
fn numbers(rt: HostRuntime) {
    for table in [NUMBERS, NO_NUMBERS] {
        for &(line, want) in table {
            assert_numbers(&rt, rt.alloc(), line, want);
        }
    }
}

// As they are printed; none; with nothing or much between; zeros in front; no parts; the largest words.
const SHARES: &[(&[u8], Divided)] = &[
    (b"d 6: 200 200 200", Ok((6, &[200, 200, 200]))),
    (b"d 1:", Ok((1, &[]))),
    (b"d 6: ", Ok((6, &[]))),
    (b"d 6:\t\r", Ok((6, &[]))),
    (b"d 6:1 2", Ok((6, &[1, 2]))),
    (b"d 06: 1", Ok((6, &[1]))),
    (b"d 0: 5", Ok((0, &[5]))),
    (b"d 2: 3  4\t5\r", Ok((2, &[3, 4, 5]))),
    (b"d 18446744073709551615: 1", Ok((MOST, &[1]))),
    (
        b"d 0018446744073709551615:18446744073709551615",
        Ok((MOST, &[MOST])),
    ),
];

// Each place at which the head goes wrong, or is cut short; parts of a cent past a word; and what misfits behind the head.
const NO_SHARES: &[(&[u8], Divided)] = &[
    (b"", Err(0)),
    (b"d", Err(1)),
    (b"x", Err(0)),
    (b"dx", Err(1)),
    (b"d ", Err(2)),
    (b"d x", Err(2)),
    (b"d :", Err(2)),
    (b"d 6", Err(3)),
    (b"d 6 :", Err(3)),
    (b"d 6;", Err(3)),
    (b"d 6x: 1", Err(3)),
    (b"d 12", Err(4)),
    (b"D 6:", Err(0)),
    (b" d 6: 1", Err(0)),
    (b"d6: 1", Err(1)),
    (b"d: 1", Err(1)),
    (b"d\t6: 1", Err(1)),
    (b"d  6: 1", Err(2)),
    (b"d -6: 1", Err(2)),
    (b"d 6\r", Err(3)),
    (b"d 6\n: 1", Err(3)),
    (b": 1", Err(0)),
    (b"6: 1", Err(0)),
    (b"100 200 300", Err(0)),
    (b"d 18446744073709551616: 1", Err(21)),
    (b"d 99999999999999999999: 1", Err(21)),
    (b"d 184467440737095516150: 1", Err(22)),
    (b"d 6::", Err(4)),
    (b"d 6: x", Err(5)),
    (b"d 6:-1", Err(4)),
    (b"d 6: 200 200 20o", Err(15)),
    (b"d 6: 18446744073709551616", Err(24)),
    (b"d 10: 1, 2", Err(7)),
    (b"d 6: 1\n", Err(6)),
    (b"d 6: d 6: 1", Err(5)),
    (b"d 6: \0", Err(5)),
    (b"d 6: 1\xff", Err(6)),
    (b"\xef\xbb\xbfd 6: 1", Err(0)),
];

#[test]
fn shares(rt: HostRuntime) {
    for table in [SHARES, NO_SHARES] {
        for &(line, want) in table {
            assert_shares(&rt, rt.alloc(), line, want);
        }
    }
}

// Up to 70 numbers, of any size.
fn fill(list: &mut Vec<u64>, random: &mut Numbers) -> Result<(), AllocError> {
    for _ in 0..random.below(71) {
        list.push(random.any_size())?;
    }
    Ok(())
}

// A list is read as it is printed.
fn assert_spaced(rt: &impl Abort, heap: Global, list: &[u64]) {
    let line = Spaced(list).to_string(heap).ok().expect(rt, "no memory");
    assert_numbers(rt, heap, line.as_bytes(), Ok(list));
}

// Shares in these parts of a cent are read as they are printed.
fn assert_shown(rt: &impl Abort, heap: Global, parts: u64, shares: &[u64]) {
    let copy = shares.to_vec(heap).ok().expect(rt, "no memory");
    let answer = Answer::Parts(parts, copy);
    let line = Shown(&answer).to_string(heap).ok().expect(rt, "no memory");
    assert_shares(rt, heap, line.as_bytes(), Ok((parts, shares)));
}

#[test]
fn read_as_printed(rt: HostRuntime) -> Result<(), Fail> {
    let heap = rt.alloc();
    let mut random = Numbers(1);
    for _ in 0..300 {
        let mut list = Vec::new(heap);
        fill(&mut list, &mut random)?;
        assert_spaced(&rt, heap, &list);
        assert_shown(&rt, heap, random.any_size(), &list);
    }
    Ok(())
}
