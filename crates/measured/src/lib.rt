// The level that is found in a ledger, as a function for C: what the benchmark measures besides calls. No client needs it.
#![tactic(auto)]

ghost use Rattle.measured.specs.Levels.{Measured};

use sums::tree_of;

// A fraction: what is spread, and among how many creditors.
#[repr(C)]
#[derive(Clone, Copy)]
pub struct Level {
    pub numerator: u64,
    pub denominator: u64,
}

// The level up to which so much there fills the claims of a ledger of so many, if there is one.
#[unsafe(no_mangle)]
#[tactic(auto, using(crate::proofs::Levels::measured))]
pub extern "C" fn measured_level(
    ledger: &[u64],
    count: usize,
    there: u64,
    level: &mut Level,
) -> bool
    ensures { Measured ledger.now count there level.old level.new result }
{
    let Some(tree) = tree_of(ledger, count) else {
        return false;
    };
    let Some(terms) = tree.terms(there) else {
        return false;
    };
    *level = Level {
        numerator: terms.level.numerator,
        denominator: terms.level.denominator,
    };
    true
}
