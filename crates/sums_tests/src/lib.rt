// Trees of sums, and ledgers that keep them: worked out by hand, and compared with what a simple way gives.
#![tactic(auto)]

#[cfg(test)]
mod kept;
#[cfg(test)]
mod ledgers;
#[cfg(test)]
mod levels;
#[cfg(test)]
mod searched;
#[cfg(test)]
mod simple;
#[cfg(test)]
mod steps;
#[cfg(test)]
mod untouched;
