// Sums over claims in ascending order, kept as a tree: all claims together, and the level, without going through them.
#![tactic(auto)]

mod descending;
mod ledger;
mod renewing;
mod tree;

pub use descending::Descent;
pub use ledger::{add, change, tree_of};
pub use tree::Tree;
