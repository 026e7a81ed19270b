// The sums over claims, read and renewed.
ghost use Rattle.std.specs.Prelude.{◌≡◌, ◌^◌, ◌<◌, ◌≤◌, length};
ghost use Rattle.sums.specs.Sums.{total_of, renewed, sums_from};

// What all claims come to: the last sum, and 0 where there are none.
pub(crate) fn total(sums: &[u64]) -> u64
    ensures { result ≡ total_of sums.now }
{
    sums.last().copied().unwrap_or(0)
}

// Renews the sums over claims after those from one place on have changed. Those before are not written.
#[tactic(auto, using(crate::proofs::Written::renewing))]
pub(crate) fn renew(sums: &mut [u64], claims: &[u64], from: usize)
    requires paired { length sums.old ≡ length claims.now }
    requires within { from ≤ length claims.now }
    ensures { sums.new ≡ renewed from claims.now sums.old }
{
    let before = total(&sums[..from]);
    let sums = &mut sums[from..];
    let claims = &claims[from..];
    // within the limits claims have at most 31 bits
    if sum_small(sums, claims, before) >= 1 << 31 {
        sum_any(sums, claims, before);
    }
}

// The sums over these claims, where so much is claimed before them.
#[tactic(auto, using(crate::proofs::Written::any))]
fn sum_any(sums: &mut [u64], claims: &[u64], before: u64)
    requires { length sums.old ≡ length claims.now }
    ensures { sums.new ≡ sums_from before claims.now }
{
    let mut sum = before;
    for i in 0..claims.len() {
        sum = sum.saturating_add(claims[i]);
        sums[i] = sum;
    }
}

// The same where what it answers has at most 31 bits, which are those of all claims and some more. Nothing saturates then.
#[tactic(auto, using(crate::proofs::Written::small))]
fn sum_small(sums: &mut [u64], claims: &[u64], before: u64) -> u64
    requires { length sums.old ≡ length claims.now }
    ensures { result < 2 ^ 31 → sums.new ≡ sums_from before claims.now }
{
    let mut bits = claims.len() as u64 | before >> 31;
    let mut sum = before;
    for i in 0..claims.len() {
        bits |= claims[i];
        sum = sum.wrapping_add(claims[i]);
        sums[i] = sum;
    }
    bits
}
