// Whole cents, each creditor for itself.
use std::alloc::{AllocError, Global};

// What is left of a share when it is rounded down to whole cents.
fn rest(parts: u64, share: u64) -> u64 {
    share.checked_rem(parts).unwrap_or(0)
}

// How many creditors lack less of the next cent than the one at a place: those with more parts left, and those with as many
// at an earlier place.
fn rank(parts: u64, shares: &[u64], place: usize, share: u64) -> u64 {
    let mut before = 0u64;
    for (i, other) in shares.iter().enumerate() {
        let (one, other) = (rest(parts, share), rest(parts, *other));
        let first = other > one || (other == one && i < place);
        before = before.wrapping_add(u64::from(first));
    }
    before
}

// How many cents are left when all are rounded down.
fn left(parts: u64, shares: &[u64]) -> u64 {
    let rests = shares
        .iter()
        .fold(0u64, |all, share| all.wrapping_add(rest(parts, *share)));
    rests.checked_div(parts).unwrap_or(0)
}

// The whole cents of shares in so many parts of a cent that come to whole cents: each rounded down, and one cent more for
// as many creditors as cents are left, those of the lowest ranks.
pub(crate) fn whole_cents(
    heap: Global,
    parts: u64,
    shares: &[u64],
) -> Result<Vec<u64>, AllocError> {
    let left = left(parts, shares);
    let mut cents = Vec::new(heap);
    for (place, share) in shares.iter().enumerate() {
        let down = share.checked_div(parts).unwrap_or(0);
        let more = rank(parts, shares, place, *share) < left;
        cents.push(down.wrapping_add(u64::from(more)))?;
    }
    Ok(cents)
}
