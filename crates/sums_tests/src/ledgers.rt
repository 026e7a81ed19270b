// Ledgers written out by hand, before and after: a row of claims as they came, one of the same in order, and one of the sums
// over these. Each row has room for four; words behind the claims are 8, and two words behind the rows are 6 and 9.
use crate::simple::{MOST, put};
use register::{Moved, Unfit};
use std::process::Abort;
use sums::{add, change, tree_of};

type Rows = [&'static [u64]; 3];

fn words_of(rows: Rows) -> [u64; 14] {
    let [came, in_order, sums] = rows;
    let mut words = [0, 0, 0, 0, 0, 0, 0, 0, 0, 0, 0, 0, 6, 9];
    put(&mut words, 0, came);
    put(&mut words, 4, in_order);
    put(&mut words, 8, sums);
    words
}

// Rows, how many claims are there, one more, its place among the words in order, and the rows after: the first claim; before
// the others, within, last; among equals; zero; and claims that no word holds together.
const ADDED: &[(Rows, usize, u64, usize, Rows)] = &[
    (
        [&[8, 8, 8, 8], &[8, 8, 8, 8], &[8, 8, 8, 8]],
        0,
        50,
        4,
        [&[50, 8, 8, 8], &[50, 8, 8, 8], &[50, 8, 8, 8]],
    ),
    (
        [&[40, 20, 8, 8], &[20, 40, 8, 8], &[20, 60, 8, 8]],
        2,
        10,
        4,
        [&[40, 20, 10, 8], &[10, 20, 40, 8], &[10, 30, 70, 8]],
    ),
    (
        [&[40, 20, 8, 8], &[20, 40, 8, 8], &[20, 60, 8, 8]],
        2,
        30,
        5,
        [&[40, 20, 30, 8], &[20, 30, 40, 8], &[20, 50, 90, 8]],
    ),
    (
        [&[60, 40, 20, 8], &[20, 40, 60, 8], &[20, 60, 120, 8]],
        3,
        70,
        7,
        [&[60, 40, 20, 70], &[20, 40, 60, 70], &[20, 60, 120, 190]],
    ),
    (
        [&[5, 6, 5, 8], &[5, 5, 6, 8], &[5, 10, 16, 8]],
        3,
        5,
        4,
        [&[5, 6, 5, 5], &[5, 5, 5, 6], &[5, 10, 15, 21]],
    ),
    (
        [&[6, 0, 5, 8], &[0, 5, 6, 8], &[0, 5, 11, 8]],
        3,
        0,
        4,
        [&[6, 0, 5, 0], &[0, 0, 5, 6], &[0, 0, 5, 11]],
    ),
    (
        [&[MOST, 5, 8, 8], &[5, MOST, 8, 8], &[5, MOST, 8, 8]],
        2,
        MOST - 1,
        5,
        [
            &[MOST, 5, MOST - 1, 8],
            &[5, MOST - 1, MOST, 8],
            &[5, MOST, MOST, 8],
        ],
    ),
];

#[test]
fn claims_added(rt: HostRuntime) {
    for &(before, count, claim, at, after) in ADDED {
        let mut words = words_of(before);
        assert!(rt; add(&mut words, count, claim) == Some(at), "{claim}");
        assert!(rt; words == words_of(after));
    }
}

const FOUR: Rows = [&[40, 10, 30, 20], &[10, 20, 30, 40], &[10, 30, 60, 100]];

// Of claims 40, 10, 30 and 20: which is changed, to what, what is answered, and the rows after: up, down, to either end,
// where it stands, to the same, to as much as another, to the most; and claims that are not there.
const CHANGED: &[(usize, u64, Result<Moved, Unfit>, Rows)] = &[
    (
        1,
        25,
        Ok(Moved { from: 4, to: 5 }),
        [&[40, 25, 30, 20], &[20, 25, 30, 40], &[20, 45, 75, 115]],
    ),
    (
        0,
        15,
        Ok(Moved { from: 7, to: 5 }),
        [&[15, 10, 30, 20], &[10, 15, 20, 30], &[10, 25, 45, 75]],
    ),
    (
        1,
        99,
        Ok(Moved { from: 4, to: 7 }),
        [&[40, 99, 30, 20], &[20, 30, 40, 99], &[20, 50, 90, 189]],
    ),
    (
        2,
        0,
        Ok(Moved { from: 6, to: 4 }),
        [&[40, 10, 0, 20], &[0, 10, 20, 40], &[0, 10, 30, 70]],
    ),
    (
        3,
        21,
        Ok(Moved { from: 5, to: 5 }),
        [&[40, 10, 30, 21], &[10, 21, 30, 40], &[10, 31, 61, 101]],
    ),
    (2, 30, Ok(Moved { from: 6, to: 6 }), FOUR),
    (
        1,
        20,
        Ok(Moved { from: 4, to: 4 }),
        [&[40, 20, 30, 20], &[20, 20, 30, 40], &[20, 40, 70, 110]],
    ),
    (
        0,
        MOST,
        Ok(Moved { from: 7, to: 7 }),
        [
            &[MOST, 10, 30, 20],
            &[10, 20, 30, MOST],
            &[10, 30, 60, MOST],
        ],
    ),
    (4, 15, Err(Unfit::NotThere), FOUR),
    (18446744073709551615, 15, Err(Unfit::NotThere), FOUR),
];

#[test]
fn claims_changed(rt: HostRuntime) {
    for &(i, claim, answer, after) in CHANGED {
        let mut words = words_of(FOUR);
        assert!(rt; change(&mut words, 4, i, claim) == answer, "{i} {claim}");
        assert!(rt; words == words_of(after));
    }
}

const TWO: Rows = [&[20, 10, 8, 7], &[10, 20, 5, 4], &[10, 30, 3, 2]];

// Two claims where there is room for four: a claim behind them is not there, and what lies behind them stays.
#[test]
fn fewer_claims(rt: HostRuntime) {
    let mut words = words_of(TWO);
    assert!(rt; change(&mut words, 2, 2, 15) == Err(Unfit::NotThere));
    assert!(rt; change(&mut words, 0, 0, 15) == Err(Unfit::NotThere));
    assert!(rt; words == words_of(TWO));
    let moved = Moved { from: 5, to: 4 };
    assert!(rt; change(&mut words, 2, 0, 9) == Ok(moved));
    assert!(rt; words == words_of([&[9, 10, 8, 7], &[9, 10, 5, 4], &[9, 19, 3, 2]]));
    assert!(rt; add(&mut words, 2, 1) == Some(4));
    assert!(rt; words == words_of([&[9, 10, 1, 7], &[1, 9, 10, 4], &[1, 10, 20, 2]]));
}

// How many claims there are said to be: as many as there is room for, and more.
const FULL: &[usize] = &[4, 5, 14, 18446744073709551615];

#[test]
fn no_room(rt: HostRuntime) {
    for &count in FULL {
        let mut words = words_of(FOUR);
        assert!(rt; add(&mut words, count, 15).is_none());
        if count > 4 {
            assert!(rt; change(&mut words, count, 0, 15) == Err(Unfit::NotThere));
            assert!(rt; tree_of(&words, count).is_none());
        }
        assert!(rt; words == words_of(FOUR));
    }
}

// Rows whose first claim is not among those in order: these have another, do not ascend, or are all the same.
const OUT_OF_ORDER: &[Rows] = &[
    [&[40, 10, 30, 20], &[10, 20, 30, 41], &[10, 30, 60, 101]],
    [&[25, 10, 30, 20], &[40, 30, 20, 10], &[40, 70, 90, 100]],
    [&[40, 10, 30, 20], &[8, 8, 8, 8], &[1, 2, 3, 4]],
];

#[test]
fn out_of_order(rt: HostRuntime) {
    for &rows in OUT_OF_ORDER {
        let mut words = words_of(rows);
        assert!(rt; change(&mut words, 4, 0, 15) == Err(Unfit::OutOfOrder));
        assert!(rt; words == words_of(rows));
    }
}

// How many of seven words are lent, how many claims these have room for, and the words after as many are added.
const LENT: &[(usize, usize, &[u64])] = &[
    (0, 0, &[8, 8, 8, 8, 8, 8, 8]),
    (1, 0, &[8, 8, 8, 8, 8, 8, 8]),
    (2, 0, &[8, 8, 8, 8, 8, 8, 8]),
    (3, 1, &[3, 3, 3, 8, 8, 8, 8]),
    (4, 1, &[3, 3, 3, 8, 8, 8, 8]),
    (5, 1, &[3, 3, 3, 8, 8, 8, 8]),
    (6, 2, &[3, 3, 3, 3, 3, 6, 8]),
    (7, 2, &[3, 3, 3, 3, 3, 6, 8]),
];

#[test]
fn odd_words(rt: HostRuntime) {
    for &(len, room, after) in LENT {
        assert!(rt; len <= 7);
        let mut words = [8; 7];
        for count in 0..room {
            assert!(rt; add(&mut words[..len], count, 3) == Some(room));
        }
        assert!(rt; add(&mut words[..len], room, 3).is_none());
        assert!(rt; &words[..] == after);
    }
}

// How many claims there are, these in order, and the sums over them.
const TREES: &[(usize, &[u64], &[u64])] = &[
    (0, &[], &[]),
    (1, &[10], &[10]),
    (3, &[10, 20, 30], &[10, 30, 60]),
    (4, &[10, 20, 30, 40], &[10, 30, 60, 100]),
];

// Of so many claims these are read.
fn assert_read(rt: &impl Abort, words: &[u64], count: usize, claims: &[u64], sums: &[u64]) {
    let tree = tree_of(words, count).expect(rt, "none");
    assert!(rt; tree.claims == claims, "of {count}");
    assert!(rt; tree.sums == sums, "of {count}");
}

#[test]
fn trees_read(rt: HostRuntime) {
    let words = words_of(FOUR);
    for &(count, claims, sums) in TREES {
        assert_read(&rt, &words, count, claims, sums);
    }
}
