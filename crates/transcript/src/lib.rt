// What a desk for the creditors that the programs serve answers to a file of calls, as text.
#![tactic(auto)]

mod file;
mod session;

pub use file::transcript;
