// Sums worked out in the simple way, and claims that seem to come by chance.

// The largest word.
pub(crate) const MOST: u64 = 18446744073709551615;

// Puts words behind the first so many of others.
pub(crate) fn put(words: &mut [u64], at: usize, row: &[u64]) {
    for (word, number) in words.iter_mut().skip(at).zip(row) {
        *word = *number;
    }
}

// The sum at each place: of all claims up to and with the one there, or the largest word where that is more.
pub(crate) fn sums_over(claims: &[u64]) -> [u64; 1025] {
    let mut sums: [u64; 1025] = [0; 1025];
    for (j, sum) in sums.iter_mut().enumerate() {
        if j < claims.len() {
            for claim in &claims[..j + 1] {
                *sum = sum.saturating_add(*claim);
            }
        }
    }
    sums
}

// Words that seem to come by chance, and are the same in each run.
#[derive(Clone, Copy)]
pub(crate) struct Chance(pub(crate) u64);

impl Chance {
    pub(crate) fn word(&mut self) -> u64 {
        self.0 = self
            .0
            .wrapping_mul(6364136223846793005)
            .wrapping_add(1442695040888963407);
        self.0 ^ self.0 >> 32
    }
}
