// Desks in lent memory, word for word and byte for byte, worked out by hand.
#![tactic(auto)]

#[cfg(test)]
mod common;
#[cfg(test)]
mod garbage;
#[cfg(test)]
mod many;
#[cfg(test)]
mod opening;
#[cfg(test)]
mod refusals;
#[cfg(test)]
mod steps;
