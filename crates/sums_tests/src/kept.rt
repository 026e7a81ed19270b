// Ledgers of claims that come and change, compared with what a simple way gives.
use crate::simple::{Chance, MOST, put, sums_over};
use level::terms_of;
use std::process::Abort;
use sums::{add, change, tree_of};

// Words which were 8 hold a ledger with room for so many, of claims that came so.
fn assert_words(rt: &impl Abort, rows: &[u64], room: usize, came: &[u64], in_order: &[u64]) {
    let mut words = [8; 3077];
    let count = in_order.len();
    assert!(rt; room <= 1025 && count <= 1025 && rows.len() <= 3077);
    put(&mut words, 0, came);
    put(&mut words, room, in_order);
    put(&mut words, 2 * room, &sums_over(in_order)[..count]);
    for (i, (word, wanted)) in rows.iter().zip(&words).enumerate() {
        assert!(rt; word == wanted, "at {i} of {count}");
    }
}

// The terms on which claims of a ledger are paid are those of the claims in order.
fn assert_terms(rt: &impl Abort, rows: &[u64], in_order: &[u64]) {
    let tree = tree_of(rows, in_order.len()).expect(rt, "no room");
    for there in [0, 9, 1_000_000_000, 1_000_000_000_000] {
        assert!(rt; tree.terms(there) == terms_of(there, in_order), "{there}");
    }
}

// Every word of a ledger of claims that came so, in words which were 8, and the terms on which these claims are paid.
fn assert_kept(rt: &impl Abort, rows: &[u64], came: &[u64]) {
    let room = rows.len() / 3;
    let count = came.len();
    assert!(rt; count <= room && count <= 1025);
    let mut in_order = [0; 1025];
    in_order[..count].copy_from_slice(came);
    in_order[..count].sort_unstable();
    assert_words(rt, rows, room, came, &in_order[..count]);
    assert_terms(rt, rows, &in_order[..count]);
}

// How many claims are told apart, and after how many steps all is looked at each time.
type Pace = (u64, usize);

// Claims come until there is no room.
fn come(rt: &impl Abort, chance: &mut Chance, rows: &mut [u64], came: &mut [u64], pace: Pace) {
    let (kinds, every) = pace;
    for count in 0..came.len() {
        came[count] = chance.word() % kinds.max(1);
        assert!(rt; add(rows, count, came[count]).is_some());
        if count % every.max(1) == 0 {
            assert_kept(rt, rows, &came[..count + 1]);
        }
    }
    assert!(rt; add(rows, came.len(), 1).is_none());
}

// One claim is changed.
fn change_one(
    rt: &impl Abort,
    chance: &mut Chance,
    rows: &mut [u64],
    came: &mut [u64],
    kinds: u64,
) {
    let room = came.len();
    assert!(rt; 0 < room);
    let i = chance.word() as usize % room;
    came[i] = chance.word() % kinds.max(1);
    assert!(rt; change(rows, room, i, came[i]).is_ok());
}

// Words lent, how many claims they have room for, how many claims are told apart, how many changes come after these, and
// after how many steps all is looked at each time.
const RUNS: &[(usize, usize, u64, usize, usize)] = &[
    (15, 5, 1_000_000_000, 300, 1),
    (16, 5, 4, 300, 1),
    (17, 5, MOST, 300, 1),
    (3072, 1024, 1_000_000_000, 2048, 61),
    (3073, 1024, 20, 2048, 61),
    (3074, 1024, 1 << 56, 2048, 61),
];

#[test]
fn kept_as_claims_come_and_change(rt: HostRuntime) {
    let mut chance = Chance(2);
    for &(len, room, kinds, changes, every) in RUNS {
        assert!(rt; len <= 3077 && room <= 1024);
        let mut words = [8; 3077];
        let mut came = [0; 1024];
        let rows = &mut words[..len];
        let came = &mut came[..room];
        come(&rt, &mut chance, rows, came, (kinds, every));
        for turn in 0..changes {
            change_one(&rt, &mut chance, rows, came, kinds);
            if turn % every.max(1) == 0 {
                assert_kept(&rt, rows, came);
            }
        }
        assert_kept(&rt, rows, came);
    }
}
