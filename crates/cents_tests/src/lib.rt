// Whole cents worked out by hand.
#![tactic(auto)]

#[cfg(test)]
mod cost;
#[cfg(test)]
mod given;
#[cfg(test)]
mod split;
#[cfg(test)]
mod whole;
