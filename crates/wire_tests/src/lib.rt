// Rows of bytes, good and bad, and what they are as calls and answers.
#![tactic(auto)]

#[cfg(test)]
mod answers;
#[cfg(test)]
mod calls;
