// Whether a text of claims and shares is a division, checked two by two.
#![tactic(auto)]

mod checking;
mod lines;

pub use checking::{Finding, audit};
