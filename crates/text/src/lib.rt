// Answers as lines of text, and lines that are read: claims, and shares.
#![tactic(auto)]

mod printing;
mod reading;

pub use printing::{Shown, Spaced};
pub use reading::{ReadError, ShareLine, is_blank, read_numbers, read_shares};
