// Claims in order in a part of memory that begins in its middle, at the second of six words. What lies outside the part
// stays.
use register::{Moved, Row};

const MOST: usize = 18446744073709551614;

const FOUR: [u64; 6] = [7, 10, 20, 30, 40, 9];

// Words, how many claims are there, one more, its place, and the words after: where nothing is, first, within, last, among
// equals, zero.
const INSERTED: &[([u64; 6], usize, u64, usize, [u64; 6])] = &[
    ([7, 1, 2, 3, 4, 9], 0, 5, 1, [7, 5, 2, 3, 4, 9]),
    ([7, 20, 40, 8, 8, 9], 2, 10, 1, [7, 10, 20, 40, 8, 9]),
    ([7, 20, 40, 8, 8, 9], 2, 30, 2, [7, 20, 30, 40, 8, 9]),
    ([7, 20, 40, 60, 8, 9], 3, 70, 4, [7, 20, 40, 60, 70, 9]),
    ([7, 5, 5, 6, 8, 9], 3, 5, 1, [7, 5, 5, 5, 6, 9]),
    ([7, 0, 5, 6, 8, 9], 3, 0, 1, [7, 0, 0, 5, 6, 9]),
];

#[test]
fn claims_inserted(rt: HostRuntime) {
    for &(before, count, claim, at, after) in INSERTED {
        let mut words = before;
        let mut row = Row::new(&mut words, 1, count);
        assert!(rt; row.insert(claim) == Some(at));
        assert!(rt; row.count == count + 1);
        assert!(rt; words == after);
    }
}

// Words, how many claims are there, one of them, its place, and the words after: first, within, last, one of equals, the
// only one, zero.
const REMOVED: &[([u64; 6], usize, u64, usize, [u64; 6])] = &[
    ([7, 10, 20, 30, 40, 9], 4, 10, 1, [7, 20, 30, 40, 0, 9]),
    ([7, 10, 20, 30, 40, 9], 4, 20, 2, [7, 10, 30, 40, 0, 9]),
    ([7, 10, 20, 30, 8, 9], 3, 30, 3, [7, 10, 20, 0, 8, 9]),
    ([7, 5, 5, 5, 6, 9], 4, 5, 1, [7, 5, 5, 6, 0, 9]),
    ([7, 10, 8, 8, 8, 9], 1, 10, 1, [7, 0, 8, 8, 8, 9]),
    ([7, 0, 1, 2, 8, 9], 3, 0, 1, [7, 1, 2, 0, 8, 9]),
];

#[test]
fn claims_removed(rt: HostRuntime) {
    for &(before, count, claim, at, after) in REMOVED {
        let mut words = before;
        let mut row = Row::new(&mut words, 1, count);
        assert!(rt; row.remove(claim) == Some(at));
        assert!(rt; row.count == count - 1);
        assert!(rt; words == after);
    }
}

// Of claims 10, 20, 30 and 40: one of them, another for it, the places, and the words after: up, down, to either end, where
// it stands, and to the same.
const REPLACED: &[(u64, u64, Moved, [u64; 6])] = &[
    (10, 35, Moved { from: 1, to: 3 }, [7, 20, 30, 35, 40, 9]),
    (40, 25, Moved { from: 4, to: 3 }, [7, 10, 20, 25, 30, 9]),
    (20, 99, Moved { from: 2, to: 4 }, [7, 10, 30, 40, 99, 9]),
    (30, 0, Moved { from: 3, to: 1 }, [7, 0, 10, 20, 40, 9]),
    (20, 21, Moved { from: 2, to: 2 }, [7, 10, 21, 30, 40, 9]),
    (30, 30, Moved { from: 3, to: 3 }, [7, 10, 20, 30, 40, 9]),
    (10, 20, Moved { from: 1, to: 1 }, [7, 20, 20, 30, 40, 9]),
];

#[test]
fn claims_replaced(rt: HostRuntime) {
    for &(old, new, moved, after) in REPLACED {
        let mut words = FOUR;
        let mut row = Row::new(&mut words, 1, 4);
        assert!(rt; row.replace(old, new) == Some(moved));
        assert!(rt; row.count == 4);
        assert!(rt; words == after);
    }
}

// Starts and counts for which there is no room for one more: a part that ends with the last word, a start at the end and
// past it, and two numbers whose sum no word holds.
const NO_ROOM: &[(usize, usize)] = &[(1, 5), (6, 0), (7, 0), (1, MOST), (MOST, MOST)];

#[test]
fn no_room(rt: HostRuntime) {
    for &(start, count) in NO_ROOM {
        let mut words = FOUR;
        let mut row = Row::new(&mut words, start, count);
        assert!(rt; row.insert(10).is_none());
        row.count = count + 1;
        assert!(rt; row.remove(10).is_none());
        assert!(rt; row.replace(10, 15).is_none());
        assert!(rt; words == FOUR);
    }
}

// Below, between and above the claims, and what lies just outside.
const NOT_THERE: &[u64] = &[5, 15, 45, 7, 9];

#[test]
fn not_there(rt: HostRuntime) {
    for &claim in NOT_THERE {
        let mut words = FOUR;
        let mut row = Row::new(&mut words, 1, 4);
        assert!(rt; row.remove(claim).is_none());
        assert!(rt; row.replace(claim, 10).is_none());
        assert!(rt; words == FOUR);
    }
}
