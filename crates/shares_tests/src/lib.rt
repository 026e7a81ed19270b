// Shares worked out by hand, and shares that are known to be wrong.
#![tactic(auto)]

#[cfg(test)]
mod pairs;
#[cfg(test)]
mod written;
