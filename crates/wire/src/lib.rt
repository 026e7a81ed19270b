// Calls and answers as rows of bytes: one byte for the kind, then numbers of eight bytes each, low byte first.
#![tactic(auto)]

mod answers;
mod calls;
mod kinds;
mod numbers;
mod refusals;
mod rows;

pub use answers::{Answer, DecodeError};
pub use calls::{Call, Calls};
pub use kinds::Unknown;
pub use numbers::Numbers;
pub use refusals::{Garbled, Place, Refusal, TurnedAway};
