// Whole cents for shares in parts of a cent.
#![tactic(auto)]

mod bits;
mod parted;
mod rounding;
mod split;
mod whole;

pub use parted::{Handed, Parted};
pub use split::Split;
pub use whole::{Cents, CentsError};
