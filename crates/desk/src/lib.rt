// A desk over lent memory: it answers every call, or turns it away and changes nothing.
#![tactic(auto)]

mod calls;
mod changes;
mod division;
mod header;
mod opening;

pub use calls::call;
pub use opening::{Loan, asked, open};
