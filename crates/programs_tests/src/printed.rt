// Numbers, lists and answers as text.
use crate::common::{MOST, assert_shown, assert_spaced};
use std::test::Fail;
use wire::{Answer, Place, Refusal, TurnedAway};

const TEN_19: u64 = 10_000_000_000_000_000_000;

// Numbers, and how each is printed.
const NUMBERS: &[(u64, &[u8])] = &[
    (0, b"0"),
    (1, b"1"),
    (9, b"9"),
    (10, b"10"),
    (11, b"11"),
    (99, b"99"),
    (100, b"100"),
    (101, b"101"),
    (999_999_999, b"999999999"),
    (1_000_000_000, b"1000000000"),
    (1_000_000_000_000, b"1000000000000"),
    (0x8000_0000_0000_0000, b"9223372036854775808"),
    (TEN_19 - 1, b"9999999999999999999"),
    (TEN_19, b"10000000000000000000"),
    (TEN_19 + 1, b"10000000000000000001"),
    (MOST - 1, b"18446744073709551614"),
    (MOST, b"18446744073709551615"),
];

#[test]
fn numbers(rt: HostRuntime) {
    for &(n, text) in NUMBERS {
        assert_shown(&rt, rt.alloc(), Answer::Number(n), text);
        assert_spaced(&rt, rt.alloc(), &[n], text);
    }
}

// Lists, how they are printed as cents or claims, the parts of a cent, and how they are printed as shares in these.
const LISTS: &[(&[u64], &[u8], u64, &[u8])] = &[
    (&[], b"", 1, b"d 1:"),
    (&[0], b"0", 2, b"d 2: 0"),
    (&[34, 33, 33], b"34 33 33", 6, b"d 6: 34 33 33"),
    (&[0, 0], b"0 0", 0, b"d 0: 0 0"),
    (&[9, 10, 99, 100], b"9 10 99 100", 10, b"d 10: 9 10 99 100"),
    (
        &[MOST, 0, TEN_19, 1],
        b"18446744073709551615 0 10000000000000000000 1",
        MOST,
        b"d 18446744073709551615: 18446744073709551615 0 10000000000000000000 1",
    ),
    (
        &[1, 2, 3, 4, 5, 6, 7, 8, 9, 10],
        b"1 2 3 4 5 6 7 8 9 10",
        100,
        b"d 100: 1 2 3 4 5 6 7 8 9 10",
    ),
];

#[test]
fn lists(rt: HostRuntime) -> Result<(), Fail> {
    let heap = rt.alloc();
    for &(list, cents, d, shares) in LISTS {
        assert_spaced(&rt, heap, list, cents);
        assert_shown(&rt, heap, Answer::Amounts(list.to_vec(heap)?), cents);
        assert_shown(&rt, heap, Answer::Parts(d, list.to_vec(heap)?), shares);
    }
    Ok(())
}

// Refusals, the places at which a call is refused, and how these are printed.
const REFUSED: &[(Refusal, Place, &[u8])] = &[
    (Refusal::Unreadable, 0, b"refused 1 at 0"),
    (Refusal::Unreadable, 1, b"refused 1 at 1"),
    (Refusal::Unreadable, 16, b"refused 1 at 16"),
    (Refusal::Unreadable, 4294967295, b"refused 1 at 4294967295"),
    (Refusal::TooLarge, 0, b"refused 2 at 0"),
    (Refusal::TooLarge, 1, b"refused 2 at 1"),
    (Refusal::TooLarge, 16, b"refused 2 at 16"),
    (Refusal::TooLarge, 4294967295, b"refused 2 at 4294967295"),
    (Refusal::NotLent, 0, b"refused 3 at 0"),
    (Refusal::NotLent, 1, b"refused 3 at 1"),
    (Refusal::NotLent, 16, b"refused 3 at 16"),
    (Refusal::NotLent, 4294967295, b"refused 3 at 4294967295"),
    (Refusal::NotThere, 0, b"refused 4 at 0"),
    (Refusal::NotThere, 1, b"refused 4 at 1"),
    (Refusal::NotThere, 16, b"refused 4 at 16"),
    (Refusal::NotThere, 4294967295, b"refused 4 at 4294967295"),
    (Refusal::NoRoom, 0, b"refused 5 at 0"),
    (Refusal::NoRoom, 1, b"refused 5 at 1"),
    (Refusal::NoRoom, 16, b"refused 5 at 16"),
    (Refusal::NoRoom, 4294967295, b"refused 5 at 4294967295"),
];

#[test]
fn refusals(rt: HostRuntime) {
    for &(why, place, text) in REFUSED {
        let refused = Answer::Refused(TurnedAway { why, place });
        assert_shown(&rt, rt.alloc(), refused, text);
    }
}
