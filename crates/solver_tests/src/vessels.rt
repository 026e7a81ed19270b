// Estates poured into vessels. All vessels are as high as the largest claim, and stand in connected water. Of each claim the
// lower half stands at the bottom of its vessel, and the upper half hangs at the top; between them is a thin tube.
use crate::common::{Estate, sum};
use crate::desks::Bench;
use shares::check;
use std::alloc::{AllocError, Global};
use std::process::Abort;

// Heights in parts of a cent: up to which the lower half stands, and from which on the upper half hangs. One part of water
// fills a vessel by one part of a cent, and the tube holds none.
#[derive(Drop)]
struct Vessel {
    lower: u64,
    upper: u64,
    water: u64,
}

// The water rises by one part of a cent. Gives how many parts that takes.
fn rise(vessels: &mut [Vessel], height: u64) -> u64 {
    let mut taken = 0u64;
    for vessel in vessels.iter_mut() {
        if height < vessel.lower || vessel.upper <= height {
            vessel.water = vessel.water.wrapping_add(1);
            taken = taken.wrapping_add(1);
        }
    }
    taken
}

// What is in each vessel when all that is there has been poured in, or all are full.
fn pour(heap: Global, parts: u64, estate: Estate) -> Result<Vec<u64>, AllocError> {
    let (claims, there) = estate;
    let height = claims
        .iter()
        .copied()
        .max()
        .unwrap_or(0)
        .wrapping_mul(parts);
    let mut vessels = Vec::new(heap);
    for claim in claims {
        let lower = claim.wrapping_mul(parts / 2);
        let upper = height.wrapping_sub(lower);
        let water = 0;
        vessels.push(Vessel {
            lower,
            upper,
            water,
        })?;
    }
    let mut left = there.wrapping_mul(parts);
    for step in 0..height {
        if left == 0 {
            break;
        }
        left = left.wrapping_sub(rise(&mut vessels, step));
    }
    vessels.iter().map(|vessel| vessel.water).collect(heap)
}

// There is one part less in one vessel and one more in another.
fn shift(water: &mut [u64], from: usize, to: usize) {
    for (i, one) in water.iter_mut().enumerate() {
        *one = one
            .wrapping_sub(u64::from(i == from))
            .wrapping_add(u64::from(i == to));
    }
}

// What was poured in is accepted. One part less in one vessel and one more in another is refused, whichever these are. Gives
// how often it was.
fn assert_checked(rt: &impl Abort, parts: u64, claims: &[u64], water: &mut [u64]) -> u64 {
    let mut refused = 0u64;
    assert!(rt; check(parts, claims, water).is_ok(), "{claims:?}");
    for i in 0..water.len() {
        for j in 0..water.len() {
            if i != j && water.get(i) > Some(&0) {
                shift(water, i, j);
                assert!(rt; check(parts, claims, water).is_err(), "{claims:?}");
                shift(water, j, i);
                refused = refused.wrapping_add(1);
            }
        }
    }
    refused
}

// So many estates of up to so many creditors with claims of up to so many cents each; two cents more than is claimed are
// there at most. Gives how many shares were compared, and how many moves were refused.
fn assert_estates(
    rt: &impl Abort,
    heap: Global,
    bench: &mut Bench,
    parts: u64,
    estates: (u64, u64, u64),
) -> (u64, u64) {
    let (how_many, creditors, most) = estates;
    let mut compared = 0u64;
    let mut refused = 0u64;
    for _ in 0..how_many {
        let count = bench.random.below(creditors.wrapping_add(1));
        let claims = bench.random.claims(heap, count, most);
        let claims = claims.ok().expect(rt, "no memory");
        let all = sum(&claims);
        let there = bench.random.below(all.wrapping_add(3));
        let water = pour(heap, parts, (&claims, there));
        let mut water = water.ok().expect(rt, "no memory");
        let poured = there.min(all).wrapping_mul(parts);
        assert!(rt; sum(&water) == poured, "{claims:?}");
        bench.assert_desk(rt, heap, (&claims, there), parts, &water);
        compared = compared.wrapping_add(count);
        refused = refused.wrapping_add(assert_checked(rt, parts, &claims, &mut water));
    }
    (compared, refused)
}

// A cent has twice as many parts as the least number that 1 to 6 divide, so that the water stops after a whole step.
#[test]
fn few_creditors(rt: HostRuntime) {
    let mut bench = Bench::new(1);
    let estates = (30_000, 6, 20);
    let (compared, refused) = assert_estates(&rt, rt.alloc(), &mut bench, 120, estates);
    assert!(rt;
        compared > 85_000 && refused > 150_000,
        "{compared} {refused}"
    );
}

// Twice the least number that 1 to 10 divide.
#[test]
fn more_creditors(rt: HostRuntime) {
    let mut bench = Bench::new(2);
    let estates = (4000, 10, 3);
    let (compared, refused) = assert_estates(&rt, rt.alloc(), &mut bench, 5040, estates);
    assert!(rt;
        compared > 18_000 && refused > 60_000,
        "{compared} {refused}"
    );
}
