// Levels, terms and what all claim, compared with what is found by going through all claims. The sums over claims are worked
// out in the simple way.
use crate::simple::{Chance, MOST, sums_over};
use level::{fill, terms_of, total};
use std::process::Abort;
use sums::Tree;

// How many creditors there are, and of how many claims one is looked at. Of 1,024 and 1,025 the 1,024th is.
const COUNTS: &[(usize, usize)] = &[
    (0, 1),
    (1, 1),
    (2, 1),
    (3, 1),
    (4, 1),
    (5, 1),
    (6, 1),
    (7, 1),
    (8, 1),
    (9, 1),
    (15, 1),
    (16, 1),
    (17, 1),
    (1023, 11),
    (1024, 11),
    (1025, 11),
];

// The least that is claimed, and how many claims are told apart: all zero, equal, as large as may be; few, more and many of
// them, from zero on; and claims that no word holds together.
const CLAIMED: &[(u64, u64)] = &[
    (0, 1),
    (7, 1),
    (MOST, 1),
    (0, 3),
    (0, 50),
    (1, 1_000_000_000),
    (0, MOST),
    (MOST - 1, 2),
];

// Claims that come by chance: at least so much, and of so many kinds.
fn claims_by(chance: &mut Chance, least: u64, kinds: u64) -> [u64; 1025] {
    let mut claims = [0; 1025];
    for claim in claims.iter_mut() {
        *claim = least.saturating_add(chance.word() % kinds.max(1));
    }
    claims
}

// The level and the terms are found, in as few steps as may be.
fn assert_found(rt: &impl Abort, tree: &Tree<'_>, target: u64) {
    let found = tree.descend(target);
    assert!(rt; found.level == fill(tree.claims, target), "at {target}");
    assert!(rt; found.steps <= 11);
    assert!(rt; 1 << found.steps <= 2 * tree.claims.len() + 1);
    assert!(rt;
        tree.terms(target) == terms_of(target, tree.claims),
        "at {target}"
    );
}

// Filled in are nothing, one cent, all that is claimed, and the most; for one claim of so many, all up to and with it, and
// as much as fills each up to this one; and one cent less and more than these.
fn assert_tree(rt: &impl Abort, tree: &Tree<'_>, of: usize) {
    let all = tree.total();
    assert!(rt; all == total(tree.claims));
    for target in [0, 1, all, all.saturating_add(1), MOST] {
        assert_found(rt, tree, target);
    }
    let mut sum: u64 = 0;
    for (i, claim) in tree.claims.iter().enumerate() {
        let sharers = (tree.claims.len() - i) as u64;
        let filled = sum.saturating_add(claim.saturating_mul(sharers));
        sum = sum.saturating_add(*claim);
        if i % of.max(1) == 0 {
            for target in [sum, filled] {
                assert_found(rt, tree, target.saturating_sub(1));
                assert_found(rt, tree, target);
                assert_found(rt, tree, target.saturating_add(1));
            }
        }
    }
}

// The same of the tree of claims in order.
fn assert_claims(rt: &impl Abort, claims: &[u64], of: usize) {
    assert!(rt; claims.len() <= 1025);
    let sums = sums_over(claims);
    let tree = Tree::new(claims, &sums[..claims.len()]).expect(rt, "no tree");
    assert_tree(rt, &tree, of);
}

#[test]
fn as_by_going_through_all(rt: HostRuntime) {
    let mut chance = Chance(1);
    for &(least, kinds) in CLAIMED {
        for &(count, of) in COUNTS {
            assert!(rt; count <= 1025);
            let mut claims = claims_by(&mut chance, least, kinds);
            claims[..count].sort_unstable();
            assert_claims(&rt, &claims[..count], of);
        }
    }
}
