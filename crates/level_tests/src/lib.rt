// Levels and terms worked out by hand.
#![tactic(auto)]

#[cfg(test)]
mod levels;
#[cfg(test)]
mod terms;
