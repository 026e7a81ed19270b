// The level: how much each creditor gets of its claim, or loses of it, at most. One fraction decides a whole division.
#![tactic(auto)]

mod closed;
mod facts;
mod filling;

pub use closed::{Terms, terms_of};
pub use facts::{Estate, Side, total};
pub use filling::{Fraction, fill};
