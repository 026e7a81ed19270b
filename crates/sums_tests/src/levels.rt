// Levels, sums of all claims and terms worked out by hand, over sums worked out by hand.
use crate::simple::MOST;
use level::{Fraction, Side, Terms};
use std::process::Abort;
use sums::Tree;

// The tree of claims and the sums over them.
fn tree_of<'a>(rt: &impl Abort, claims: &'a [u64], sums: &'a [u64]) -> Tree<'a> {
    Tree::new(claims, sums).expect(rt, "not one sum for each claim")
}

const SEVEN: &[u64] = &[10, 20, 30, 40, 50, 60, 70];

const OVER_SEVEN: &[u64] = &[10, 30, 60, 100, 150, 210, 280];

const LARGE: &[u64] = &[1_000_000_000_001];

const NINE: &[u64] = &[1, 2, 3, 4, 5, 6, 7, 8, 9];

const OVER_NINE: &[u64] = &[1, 3, 6, 10, 15, 21, 28, 36, 45];

// Claims and the sums over them, what is filled in, and the level: nothing, up to a claim and one cent more, up to all of it
// and one cent more; one creditor; none; claims of zero; equal claims; and the largest numbers.
const FILLED: &[(&[u64], &[u64], u64, u64, u64)] = &[
    (&[100, 200, 300], &[100, 300, 600], 0, 0, 3),
    (&[100, 200, 300], &[100, 300, 600], 200, 200, 3),
    (&[100, 200, 300], &[100, 300, 600], 300, 300, 3),
    (&[100, 200, 300], &[100, 300, 600], 301, 201, 2),
    (&[100, 200, 300], &[100, 300, 600], 500, 400, 2),
    (&[100, 200, 300], &[100, 300, 600], 501, 201, 1),
    (&[100, 200, 300], &[100, 300, 600], 600, 300, 1),
    (&[100, 200, 300], &[100, 300, 600], 601, 1, 0),
    (&[7], &[7], 0, 0, 1),
    (&[7], &[7], 7, 7, 1),
    (&[7], &[7], 8, 1, 0),
    (&[], &[], 0, 0, 0),
    (&[], &[], 5, 5, 0),
    (&[0, 0], &[0, 0], 0, 0, 2),
    (&[0, 0], &[0, 0], 1, 1, 0),
    (&[5, 5, 5, 5], &[5, 10, 15, 20], 19, 19, 4),
    (&[5, 5, 5, 5], &[5, 10, 15, 20], 20, 20, 4),
    (&[5, 5, 5, 5], &[5, 10, 15, 20], 21, 1, 0),
    (SEVEN, OVER_SEVEN, 70, 70, 7),
    (SEVEN, OVER_SEVEN, 71, 61, 6),
    (SEVEN, OVER_SEVEN, 130, 120, 6),
    (SEVEN, OVER_SEVEN, 131, 101, 5),
    (SEVEN, OVER_SEVEN, 220, 160, 4),
    (SEVEN, OVER_SEVEN, 221, 121, 3),
    (SEVEN, OVER_SEVEN, 250, 150, 3),
    (SEVEN, OVER_SEVEN, 251, 101, 2),
    (SEVEN, OVER_SEVEN, 270, 120, 2),
    (SEVEN, OVER_SEVEN, 271, 61, 1),
    (SEVEN, OVER_SEVEN, 280, 70, 1),
    (SEVEN, OVER_SEVEN, 281, 1, 0),
    (NINE, OVER_NINE, 9, 9, 9),
    (NINE, OVER_NINE, 10, 9, 8),
    (NINE, OVER_NINE, 30, 24, 6),
    (NINE, OVER_NINE, 31, 21, 5),
    (NINE, OVER_NINE, 44, 16, 2),
    (NINE, OVER_NINE, 45, 9, 1),
    (NINE, OVER_NINE, 46, 1, 0),
    (&[MOST], &[MOST], MOST, MOST, 1),
    (&[MOST, MOST], &[MOST, MOST], MOST, MOST, 2),
    (&[1, MOST, MOST], &[1, MOST, MOST], MOST, MOST - 1, 2),
    (&[1, MOST - 1], &[1, MOST], MOST, MOST - 1, 1),
    (&[1, MOST - 2], &[1, MOST - 1], MOST, 1, 0),
];

#[test]
fn levels_found(rt: HostRuntime) {
    for &(claims, sums, target, numerator, denominator) in FILLED {
        let level = Fraction {
            numerator,
            denominator,
        };
        let tree = tree_of(&rt, claims, sums);
        assert!(rt; tree.descend(target).level == level, "at {target}");
    }
}

// Claims, the sums over them, and what they come to: the last three are more than a word holds, and the one before as much.
const TOTALS: &[(&[u64], &[u64], u64)] = &[
    (&[], &[], 0),
    (&[9], &[9], 9),
    (&[0, 0], &[0, 0], 0),
    (&[100, 200, 300], &[100, 300, 600], 600),
    (&[5, 5, 5, 5], &[5, 10, 15, 20], 20),
    (SEVEN, OVER_SEVEN, 280),
    (NINE, OVER_NINE, 45),
    (&[1, MOST - 1], &[1, MOST], MOST),
    (&[1, MOST], &[1, MOST], MOST),
    (&[1, MOST - 1, MOST], &[1, MOST, MOST], MOST),
    (&[MOST, MOST, MOST], &[MOST, MOST, MOST], MOST),
];

#[test]
fn totals(rt: HostRuntime) {
    for &(claims, sums, all) in TOTALS {
        let tree = tree_of(&rt, claims, sums);
        assert!(rt; tree.total() == all, "{all}");
    }
}

// What is there, the claims, the sums over them; what is levelled, and what is spread among how many: some there, one cent
// below one half, one half, one cent above; some lost; of seven claims one half, and more; all covered, exactly and with
// more; nothing there; no creditors; claims that no word holds together; and as much as may be there.
const TERMS: &[(u64, &[u64], &[u64], Side, u64, u64)] = &[
    (200, &[100, 200, 300], &[100, 300, 600], Side::Gains, 300, 2),
    (299, &[100, 200, 300], &[100, 300, 600], Side::Gains, 298, 1),
    (300, &[100, 200, 300], &[100, 300, 600], Side::Gains, 300, 1),
    (
        301,
        &[100, 200, 300],
        &[100, 300, 600],
        Side::Losses,
        298,
        1,
    ),
    (
        400,
        &[100, 200, 300],
        &[100, 300, 600],
        Side::Losses,
        300,
        2,
    ),
    (140, SEVEN, OVER_SEVEN, Side::Gains, 70, 1),
    (160, SEVEN, OVER_SEVEN, Side::Losses, 140, 3),
    (11, &[5, 6], &[5, 11], Side::Losses, 0, 2),
    (20, &[5, 6], &[5, 11], Side::Losses, 0, 2),
    (0, &[1, 2], &[1, 3], Side::Gains, 0, 2),
    (10, &[], &[], Side::Gains, 0, 0),
    (7, &[2, MOST, MOST], &[2, MOST, MOST], Side::Gains, 12, 2),
    (1_000_000_000_000, LARGE, LARGE, Side::Losses, 2, 1),
];

#[test]
fn terms_found(rt: HostRuntime) {
    for &(there, claims, sums, side, numerator, denominator) in TERMS {
        let level = Fraction {
            numerator,
            denominator,
        };
        let tree = tree_of(&rt, claims, sums);
        assert!(rt; tree.terms(there) == Some(Terms { side, level }), "{there}");
    }
}

// One cent more than may be there.
#[test]
fn too_much_there(rt: HostRuntime) {
    let tree = tree_of(&rt, LARGE, LARGE);
    assert!(rt; tree.terms(1_000_000_000_001).is_none());
}

// Claims and sums of which there is not one for each.
const UNPAIRED: &[(&[u64], &[u64])] = &[
    (&[], &[0]),
    (&[5], &[]),
    (SEVEN, OVER_NINE),
    (NINE, OVER_SEVEN),
];

#[test]
fn no_tree(rt: HostRuntime) {
    for &(claims, sums) in UNPAIRED {
        assert!(rt; Tree::new(claims, sums).is_none());
    }
}
