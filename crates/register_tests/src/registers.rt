// Claims entered, as they came and in order. A register of eight words has room for four.
use register::{Entry, Moved, Register, Unfit, enter_all};

// Entries, how many claims there are then, and the words, each of which was 8: none, ascending, descending, equal and zero,
// one too many, the first and the last changed and one that is not there, and a change to the same.
const ENTERED: &[(&[Entry], usize, [u64; 8])] = &[
    (&[], 0, [8, 8, 8, 8, 8, 8, 8, 8]),
    (
        &[Entry::Add(100), Entry::Add(200), Entry::Add(300)],
        3,
        [100, 200, 300, 8, 100, 200, 300, 8],
    ),
    (
        &[Entry::Add(300), Entry::Add(200), Entry::Add(100)],
        3,
        [300, 200, 100, 8, 100, 200, 300, 8],
    ),
    (
        &[Entry::Add(5), Entry::Add(0), Entry::Add(5), Entry::Add(2)],
        4,
        [5, 0, 5, 2, 0, 2, 5, 5],
    ),
    (
        &[
            Entry::Add(9),
            Entry::Add(7),
            Entry::Add(8),
            Entry::Add(6),
            Entry::Add(1),
        ],
        4,
        [9, 7, 8, 6, 6, 7, 8, 9],
    ),
    (
        &[
            Entry::Add(20),
            Entry::Add(10),
            Entry::Add(30),
            Entry::Change(0, 40),
            Entry::Change(2, 0),
            Entry::Change(3, 50),
        ],
        3,
        [40, 10, 0, 8, 0, 10, 40, 8],
    ),
    (
        &[Entry::Add(20), Entry::Add(10), Entry::Change(0, 20)],
        2,
        [20, 10, 8, 8, 10, 20, 8, 8],
    ),
];

#[test]
fn claims_entered(rt: HostRuntime) {
    for &(entries, count, after) in ENTERED {
        let mut rows = [8; 8];
        assert!(rt; enter_all(&mut rows, entries) == count);
        assert!(rt; rows == after);
    }
}

// Of claims 10, 20 and 20: which is changed, to what, what is answered, and the words after: to the same, one of equals,
// first to last, last to first; one that is not there.
const CHANGED: &[(usize, u64, Result<Moved, Unfit>, [u64; 8])] = &[
    (
        1,
        20,
        Ok(Moved { from: 5, to: 5 }),
        [10, 20, 20, 8, 10, 20, 20, 8],
    ),
    (
        2,
        15,
        Ok(Moved { from: 5, to: 5 }),
        [10, 20, 15, 8, 10, 15, 20, 8],
    ),
    (
        0,
        99,
        Ok(Moved { from: 4, to: 6 }),
        [99, 20, 20, 8, 20, 20, 99, 8],
    ),
    (
        2,
        0,
        Ok(Moved { from: 5, to: 4 }),
        [10, 20, 0, 8, 0, 10, 20, 8],
    ),
    (3, 15, Err(Unfit::NotThere), [10, 20, 20, 8, 10, 20, 20, 8]),
];

#[test]
fn claims_changed(rt: HostRuntime) {
    for &(i, claim, answer, after) in CHANGED {
        let mut rows = [10, 20, 20, 8, 10, 20, 20, 8];
        let mut register = Register::new(&mut rows, 3);
        assert!(rt; register.change(i, claim) == answer);
        assert!(rt; rows == after);
    }
}

// More claims than there is room for, and words that no register has left.
#[test]
fn nothing_done(rt: HostRuntime) {
    let mut rows = [10, 20, 20, 8, 11, 20, 20, 8];
    let mut register = Register::new(&mut rows, 5);
    assert!(rt; register.change(0, 15) == Err(Unfit::NotThere));
    register.count = 3;
    assert!(rt; register.change(0, 15) == Err(Unfit::OutOfOrder));
    register.count = 4;
    assert!(rt; register.add(15).is_none());
    assert!(rt; rows == [10, 20, 20, 8, 11, 20, 20, 8]);
}

// An odd word at the end is never used.
#[test]
fn odd_words(rt: HostRuntime) {
    let mut rows = [8, 8, 8];
    let mut register = Register::new(&mut rows, 0);
    assert!(rt; register.add(3) == Some(1));
    assert!(rt; register.add(4).is_none());
    assert!(rt; register.count == 1);
    assert!(rt; rows == [3, 3, 8]);
}
