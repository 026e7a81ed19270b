// Registers written out by hand, before and after.
#![tactic(auto)]

#[cfg(test)]
mod parts;
#[cfg(test)]
mod registers;
