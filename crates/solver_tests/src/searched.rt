// All divisions of small estates in twelfths of a cent, of which one passes between every two creditors.
use crate::common::sum;
use crate::desks::Bench;
use shares::Fault::{self, Pair};
use shares::check;
use std::alloc::{AllocError, Global};
use std::process::Abort;

// What a creditor claims in twelfths of a cent, and its share in these.
type Part = (u64, u64);

// What one does not claim of what both have together is the other's, and what both claim is halved.
fn as_two(one: Part, other: Part) -> bool {
    let together = one.1.wrapping_add(other.1);
    let ones = together.saturating_sub(other.0);
    let others = together.saturating_sub(one.0);
    let both = together.wrapping_sub(ones).wrapping_sub(others);
    one.1.wrapping_mul(2) == ones.wrapping_mul(2).wrapping_add(both)
        && other.1.wrapping_mul(2) == others.wrapping_mul(2).wrapping_add(both)
}

// Looks at the first with each behind it, then at the second.
fn verdict(parts: &[Part]) -> Result<(), Fault> {
    for (i, one) in parts.iter().enumerate() {
        for (j, other) in parts.iter().enumerate() {
            if i < j && !as_two(*one, *other) {
                return Err(Pair(i, j));
            }
        }
    }
    Ok(())
}

// What each of three claims, or has.
type Three = [u64; 3];

// All ways in which the three have together what is there, and none more than it claims.
fn divisions(heap: Global, claims: Three, there: u64) -> Result<Vec<Three>, AllocError> {
    let [first, second, third] = claims;
    let mut divisions = Vec::new(heap);
    for i in 0..first.wrapping_add(1) {
        for j in 0..second.wrapping_add(1) {
            if let Some(k) = there.checked_sub(i.wrapping_add(j))
                && k <= third
            {
                divisions.push([i, j, k])?;
            }
        }
    }
    Ok(divisions)
}

// Of a division among the first of three `check` says what the plain words say. Gives whether it passes.
fn assert_checked(rt: &impl Abort, count: usize, claims: Three, division: Three) -> bool {
    assert!(rt; count <= 3);
    let [first, second, third] = claims.map(|claim| claim.wrapping_mul(12));
    let [a, b, c] = division;
    let parts = [(first, a), (second, b), (third, c)];
    let wanted = verdict(&parts[..count]);
    let found = check(12, &claims[..count], &division[..count]);
    assert!(rt; found == wanted, "{claims:?} {division:?}");
    wanted.is_ok()
}

// Among the first of three, where the others claim nothing: the desk answers the division that passes, and no other passes.
// Gives how many divisions there are.
fn assert_one(
    rt: &impl Abort,
    heap: Global,
    bench: &mut Bench,
    count: usize,
    estate: (Three, u64),
) -> usize {
    assert!(rt; count <= 3);
    let (claims, there) = estate;
    let twelfths = claims.map(|claim| claim.wrapping_mul(12));
    let all = divisions(heap, twelfths, there.wrapping_mul(12));
    let all = all.ok().expect(rt, "no memory");
    let mut passed = 0u64;
    for division in &all {
        if assert_checked(rt, count, claims, *division) {
            passed = passed.wrapping_add(1);
            bench.assert_desk(rt, heap, (&claims[..count], there), 12, &division[..count]);
        }
    }
    assert!(rt; passed == 1, "{claims:?} {there}");
    all.len()
}

// How many creditors, and how many lists of claims from 0 to 4 cents these can have.
const LISTS: [(usize, u64); 4] = [(0, 1), (1, 5), (2, 25), (3, 125)];

#[test]
fn one_division_passes(rt: HostRuntime) {
    let mut bench = Bench::new(3);
    let mut estates = 0u64;
    let mut gone_through = 0usize;
    for (count, lists) in LISTS {
        for list in 0..lists {
            let claims = [list % 5, list / 5 % 5, list / 25];
            for there in 0..=sum(&claims) {
                let all = assert_one(&rt, rt.alloc(), &mut bench, count, (claims, there));
                gone_through = gone_through.wrapping_add(all);
                estates = estates.wrapping_add(1);
            }
        }
    }
    assert_eq!(rt; (estates, gone_through), (1016, 164_216));
}
