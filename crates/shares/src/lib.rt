// Shares in parts of a cent: written as the terms of a division have them, and checked two by two.
#![tactic(auto)]

mod pairs;
mod written;

pub use pairs::{Fault, check};
pub use written::{Shares, share};
