// Numbers at random, and how what is printed is looked at.
use std::alloc::{AllocError, Global};
use std::process::Abort;
use text::{Shown, Spaced};
use wire::Answer;

// The largest word.
pub(crate) const MOST: u64 = 18446744073709551615;

// Numbers that look random, the same in each run: the next is made of a counter.
#[derive(Drop)]
pub(crate) struct Numbers(pub(crate) u64);

impl Numbers {
    pub(crate) fn next(&mut self) -> u64 {
        self.0 = self.0.wrapping_add(0x9e37_79b9_7f4a_7c15);
        let mixed = (self.0 ^ (self.0 >> 30)).wrapping_mul(0xbf58_476d_1ce4_e5b9);
        let mixed = (mixed ^ (mixed >> 27)).wrapping_mul(0x94d0_49bb_1331_11eb);
        mixed ^ (mixed >> 31)
    }

    // One below a limit.
    pub(crate) fn below(&mut self, limit: u64) -> u64 {
        self.next().checked_rem(limit).unwrap_or(0)
    }

    // One of any number of digits.
    pub(crate) fn any_size(&mut self) -> u64 {
        let shift = self.next() % 64;
        self.next() >> shift
    }
}

// Numbers are printed so, with a space between each two.
pub(crate) fn assert_spaced(rt: &impl Abort, heap: Global, numbers: &[u64], want: &[u8]) {
    let printed = Spaced(numbers).to_string(heap).ok().expect(rt, "no memory");
    assert!(rt; printed.as_bytes() == want, "{printed}");
}

// An answer is printed so.
pub(crate) fn assert_shown(rt: &impl Abort, heap: Global, answer: Answer<Vec<u64>>, want: &[u8]) {
    let printed = Shown(&answer).to_string(heap).ok().expect(rt, "no memory");
    assert!(rt; printed.as_bytes() == want, "{printed}");
}

// Puts a number behind a text, and what ends it.
pub(crate) fn say(text: &mut String, n: u64, end: &str) -> Result<(), AllocError> {
    write!(text, "{n}{end}")
}
