// Claims in lent memory, as they came and in order.
#![tactic(auto)]

mod entries;
mod row;
mod rows;

pub use entries::{Entry, enter_all};
pub use row::{Moved, Row};
pub use rows::{Register, Unfit};
