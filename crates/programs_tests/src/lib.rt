// What the programs print and read, and what they find, written out by hand.
#![tactic(auto)]

#[cfg(test)]
mod audits;
#[cfg(test)]
mod common;
#[cfg(test)]
mod dealt;
#[cfg(test)]
mod lines;
#[cfg(test)]
mod printed;
#[cfg(test)]
mod transcripts;
