// What is not written: wrong numbers among the sums before a place, which stay. Those from there on are made of the last of
// them, and are right where that is.
use crate::simple::put;
use register::Moved;
use sums::{add, change};

// Seven claims. The sums over them are 10, 30, 60, 100, 150, 210 and 280.
const SEVEN: [u64; 8] = [10, 20, 30, 40, 50, 60, 70, 8];

fn words_of(came: &[u64], in_order: &[u64], sums: &[u64]) -> [u64; 25] {
    let mut words = [9; 25];
    put(&mut words, 0, came);
    put(&mut words, 8, in_order);
    put(&mut words, 16, sums);
    words
}

// One more claim, its place among the words in order, and these after; the sums before, of which those below 10 are wrong,
// and after: it comes last, before the last, behind the middle, in the middle, and first; and in the middle, where the sum
// just before is wrong.
const ADDED: &[(u64, usize, &[u64], &[u64], &[u64])] = &[
    (
        80,
        15,
        &[10, 20, 30, 40, 50, 60, 70, 80],
        &[1, 2, 3, 4, 5, 6, 280, 7],
        &[1, 2, 3, 4, 5, 6, 280, 360],
    ),
    (
        65,
        14,
        &[10, 20, 30, 40, 50, 60, 65, 70],
        &[1, 2, 3, 4, 5, 210, 6, 7],
        &[1, 2, 3, 4, 5, 210, 275, 345],
    ),
    (
        45,
        12,
        &[10, 20, 30, 40, 45, 50, 60, 70],
        &[1, 2, 3, 100, 4, 5, 6, 7],
        &[1, 2, 3, 100, 145, 195, 255, 325],
    ),
    (
        35,
        11,
        &[10, 20, 30, 35, 40, 50, 60, 70],
        &[1, 2, 60, 3, 4, 5, 6, 7],
        &[1, 2, 60, 95, 135, 185, 245, 315],
    ),
    (
        0,
        8,
        &[0, 10, 20, 30, 40, 50, 60, 70],
        &[1, 2, 3, 4, 5, 6, 7, 8],
        &[0, 10, 30, 60, 100, 150, 210, 280],
    ),
    (
        35,
        11,
        &[10, 20, 30, 35, 40, 50, 60, 70],
        &[1, 60, 2, 3, 4, 5, 6, 7],
        &[1, 60, 2, 37, 77, 127, 187, 257],
    ),
];

#[test]
fn sums_before_stay(rt: HostRuntime) {
    for &(claim, at, in_order, before, after) in ADDED {
        let mut words = words_of(&SEVEN, &SEVEN, before);
        let came = [10, 20, 30, 40, 50, 60, 70, claim];
        assert!(rt; add(&mut words, 7, claim) == Some(at), "{claim}");
        assert!(rt; words == words_of(&came, in_order, after), "{claim}");
    }
}

// Which is changed, to what, from where to where, and the words in order after; the sums before, of which those below 10
// are wrong, and after: where it stands, in either half and in the middle; up and down, into the middle and through it;
// last and first; and where the sum just before is wrong. The word behind the last sum stays.
const CHANGED: &[(usize, u64, Moved, &[u64], &[u64], &[u64])] = &[
    (
        1,
        25,
        Moved { from: 9, to: 9 },
        &[10, 25, 30, 40, 50, 60, 70, 8],
        &[10, 1, 2, 3, 4, 5, 6, 8],
        &[10, 35, 65, 105, 155, 215, 285, 8],
    ),
    (
        5,
        65,
        Moved { from: 13, to: 13 },
        &[10, 20, 30, 40, 50, 65, 70, 8],
        &[1, 2, 3, 4, 150, 5, 6, 8],
        &[1, 2, 3, 4, 150, 215, 285, 8],
    ),
    (
        3,
        45,
        Moved { from: 11, to: 11 },
        &[10, 20, 30, 45, 50, 60, 70, 8],
        &[1, 2, 60, 3, 4, 5, 6, 8],
        &[1, 2, 60, 105, 155, 215, 285, 8],
    ),
    (
        1,
        45,
        Moved { from: 9, to: 11 },
        &[10, 30, 40, 45, 50, 60, 70, 8],
        &[10, 1, 2, 3, 4, 5, 6, 8],
        &[10, 40, 80, 125, 175, 235, 305, 8],
    ),
    (
        5,
        35,
        Moved { from: 13, to: 11 },
        &[10, 20, 30, 35, 40, 50, 70, 8],
        &[1, 2, 60, 3, 4, 5, 6, 8],
        &[1, 2, 60, 95, 135, 185, 255, 8],
    ),
    (
        4,
        15,
        Moved { from: 12, to: 9 },
        &[10, 15, 20, 30, 40, 60, 70, 8],
        &[10, 1, 2, 3, 4, 5, 6, 8],
        &[10, 25, 45, 75, 115, 175, 245, 8],
    ),
    (
        6,
        75,
        Moved { from: 14, to: 14 },
        &[10, 20, 30, 40, 50, 60, 75, 8],
        &[1, 2, 3, 4, 5, 210, 6, 8],
        &[1, 2, 3, 4, 5, 210, 285, 8],
    ),
    (
        0,
        5,
        Moved { from: 8, to: 8 },
        &[5, 20, 30, 40, 50, 60, 70, 8],
        &[1, 2, 3, 4, 5, 6, 7, 8],
        &[5, 25, 55, 95, 145, 205, 275, 8],
    ),
    (
        1,
        25,
        Moved { from: 9, to: 9 },
        &[10, 25, 30, 40, 50, 60, 70, 8],
        &[4, 1, 2, 3, 5, 6, 7, 8],
        &[4, 29, 59, 99, 149, 209, 279, 8],
    ),
];

#[test]
fn sums_before_a_change_stay(rt: HostRuntime) {
    for &(i, claim, moved, in_order, before, after) in CHANGED {
        assert!(rt; i < 8);
        let mut words = words_of(&SEVEN, &SEVEN, before);
        let mut came = SEVEN;
        came[i] = claim;
        assert!(rt; change(&mut words, 7, i, claim) == Ok(moved), "{i} {claim}");
        assert!(rt; words == words_of(&came, in_order, after), "{i} {claim}");
    }
}
