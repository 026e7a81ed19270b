// At how many nodes it is decided where the level lies.
use crate::simple::{MOST, sums_over};
use std::process::Abort;
use sums::Tree;

const SEVEN: &[u64] = &[10, 20, 30, 40, 50, 60, 70];

// Claims, what is filled in, and how many steps that takes: of no creditor; of one, always one; of two; of three, always
// two; of four, where the first step is at the last claim; of five and six, with one and two claims behind the first step;
// of seven, always three; and of eight, where the first step is again at the last claim.
const STEPS: &[(&[u64], u64, u32)] = &[
    (&[], 0, 0),
    (&[], MOST, 0),
    (&[7], 0, 1),
    (&[7], 7, 1),
    (&[7], 8, 1),
    (&[1, 2], 2, 2),
    (&[1, 2], 3, 2),
    (&[1, 2], 4, 1),
    (&[1, 2, 3], 3, 2),
    (&[1, 2, 3], 5, 2),
    (&[1, 2, 3], 6, 2),
    (&[1, 2, 3], 7, 2),
    (&[1, 2, 3, 4], 4, 3),
    (&[1, 2, 3, 4], 10, 3),
    (&[1, 2, 3, 4], 11, 1),
    (&[1, 2, 3, 4, 5], 14, 3),
    (&[1, 2, 3, 4, 5], 15, 2),
    (&[1, 2, 3, 4, 5], 16, 2),
    (&[1, 2, 3, 4, 5, 6], 18, 3),
    (&[1, 2, 3, 4, 5, 6], 20, 3),
    (&[1, 2, 3, 4, 5, 6], 21, 3),
    (&[1, 2, 3, 4, 5, 6], 22, 2),
    (SEVEN, 0, 3),
    (SEVEN, 100, 3),
    (SEVEN, 200, 3),
    (SEVEN, 220, 3),
    (SEVEN, 221, 3),
    (SEVEN, 280, 3),
    (SEVEN, 281, 3),
    (&[1, 2, 3, 4, 5, 6, 7, 8], 0, 4),
    (&[1, 2, 3, 4, 5, 6, 7, 8], 36, 4),
    (&[1, 2, 3, 4, 5, 6, 7, 8], 37, 1),
];

// So many steps are taken.
fn assert_steps(rt: &impl Abort, claims: &[u64], target: u64, steps: u32) {
    assert!(rt; claims.len() <= 1025);
    let sums = sums_over(claims);
    let tree = Tree::new(claims, &sums[..claims.len()]).expect(rt, "no tree");
    assert!(rt; tree.descend(target).steps == steps, "at {target}");
}

#[test]
fn steps_taken(rt: HostRuntime) {
    for &(claims, target, steps) in STEPS {
        assert_steps(&rt, claims, target, steps);
    }
}

// Of claims of 1, 2, 3 and so on: how many there are, what is filled in, and how many steps that takes. 1,023 claims take
// always as many. Of 1,024 and 1,025 the last ones lie behind the first step, and take no more, or one more.
const OF_MANY: &[(usize, u64, u32)] = &[
    (1023, 0, 10),
    (1023, 523_776, 10),
    (1023, 523_777, 10),
    (1024, 0, 11),
    (1024, 524_800, 11),
    (1024, 524_801, 1),
    (1025, 0, 11),
    (1025, 525_824, 11),
    (1025, 525_825, 2),
    (1025, 525_826, 2),
];

// Claims of 1, 2, 3 and so on.
fn counted() -> [u64; 1025] {
    let mut claims = [0; 1025];
    for (i, claim) in claims.iter_mut().enumerate() {
        *claim = i as u64 + 1;
    }
    claims
}

#[test]
fn steps_taken_among_many(rt: HostRuntime) {
    let claims = counted();
    for &(count, target, steps) in OF_MANY {
        assert!(rt; count <= 1025);
        assert_steps(&rt, &claims[..count], target, steps);
    }
}

// How many claims there are, and how many steps are taken at most: one more where there are twice as many.
const AT_MOST: &[(usize, u32)] = &[
    (0, 0),
    (1, 1),
    (2, 2),
    (3, 2),
    (4, 3),
    (7, 3),
    (8, 4),
    (15, 4),
    (16, 5),
    (31, 5),
    (32, 6),
    (1000, 10),
    (1023, 10),
    (1024, 11),
    (1025, 11),
];

// The most steps that are taken, whatever is filled in: 600 numbers, from none to more than all that is claimed.
fn most_steps(tree: &Tree<'_>) -> u32 {
    let count = tree.claims.len() as u64;
    let part = (count.wrapping_mul(count) / 1000).wrapping_add(1);
    let mut most = 0;
    for i in 0..600u64 {
        most = tree.descend(i.wrapping_mul(part)).steps.max(most);
    }
    most
}

#[test]
fn steps_at_most(rt: HostRuntime) {
    let claims = counted();
    let sums = sums_over(&claims);
    for &(count, steps) in AT_MOST {
        assert!(rt; count <= 1025);
        let tree = Tree::new(&claims[..count], &sums[..count]).expect(&rt, "no tree");
        assert!(rt; most_steps(&tree) == steps, "of {count}");
    }
}
