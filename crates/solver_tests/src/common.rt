// Numbers at random, and estates made of them.
use std::alloc::{AllocError, Global};

// Numbers that look random, the same in each run: each is made of the one before.
#[derive(Drop)]
pub(crate) struct Numbers(pub(crate) u64);

impl Numbers {
    // One below a limit, made of the high digits.
    pub(crate) fn below(&mut self, limit: u64) -> u64 {
        let next = self.0.wrapping_mul(6364136223846793005);
        self.0 = next.wrapping_add(1442695040888963407);
        (self.0 >> 33).checked_rem(limit).unwrap_or(0)
    }

    // What is claimed one after the other, up to so many cents each. A quarter of the creditors claim what the one before
    // does, and an eighth nothing.
    pub(crate) fn claims(
        &mut self,
        heap: Global,
        creditors: u64,
        most: u64,
    ) -> Result<Vec<u64>, AllocError> {
        let mut claims = Vec::new(heap);
        let mut last = most;
        for _ in 0..creditors {
            last = match self.below(8) {
                0 => 0,
                1 | 2 => last,
                _ => self.below(most.wrapping_add(1)),
            };
            claims.push(last)?;
        }
        Ok(claims)
    }
}

// What is claimed, and how many cents are there.
pub(crate) type Estate<'a> = (&'a [u64], u64);

pub(crate) fn sum(numbers: &[u64]) -> u64 {
    numbers.iter().fold(0, |all, n| all.wrapping_add(*n))
}
