// Thousands of estates, divided by other means than the library's.
#![tactic(auto)]

#[cfg(test)]
mod common;
#[cfg(test)]
mod desks;
#[cfg(test)]
mod rounded;
#[cfg(test)]
mod searched;
#[cfg(test)]
mod vessels;
