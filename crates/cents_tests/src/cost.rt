// How often shares are looked at until it is known who has a cent more.
use cents::Cents;
use std::cell::Cell;
use wire::{Numbers, Refusal};

// Shares that count how often one of them is looked at.
#[derive(Clone, Copy)]
struct Counted<'a> {
    shares: &'a [u64],
    looks: &'a Cell<u64>,
}

impl Numbers for Counted<'_> {
    ghost items = { λ c. c.shares.now };

    fn count(&self) -> usize {
        self.shares.count()
    }

    fn get(&self, i: usize) -> Option<u64> {
        self.looks.set(self.looks.get().wrapping_add(1));
        self.shares.get(i).copied()
    }

    fn put(&self, out: &mut [u8]) -> Result<usize, Refusal> {
        self.shares.put(out)
    }
}

// The parts of a cent, what each of the first 512 of 1,024 creditors has, what each of the others has, and how often each
// share may be looked at: once to add up what is lacking, and once for each amount that is lacked while cents are left.
// Nobody lacks anything; all lack the same; and half lack more than the others, who have some of the cents left.
const FEW: &[(u64, u64, u64, u64)] = &[(4, 8, 12, 1), (4, 3, 7, 2), (4, 3, 2, 3)];

#[test]
fn few_looks_where_few_amounts_are_lacked(rt: HostRuntime) {
    for &(parts, first, other, looks) in FEW {
        let mut shares = [other; 1024];
        shares[..512].fill(first);
        let counted = Counted {
            shares: &shares,
            looks: &Cell::new(0),
        };
        assert!(rt; Cents::new(parts, counted).is_ok());
        assert!(rt; counted.looks.get() <= looks * 1024);
    }
}

// Each has a part less than the one before it, and all together lack one cent for each but the last.
#[test]
fn most_looks_where_all_lack_something_else(rt: HostRuntime) {
    let mut shares = [0; 1024];
    for (i, share) in shares.iter_mut().enumerate() {
        *share = 524_799 - i as u64;
    }
    let counted = Counted {
        shares: &shares,
        looks: &Cell::new(0),
    };
    assert!(rt; Cents::new(524_800, counted).is_ok());
    assert!(rt; counted.looks.get() <= (1 + 1023) * 1024);
}
