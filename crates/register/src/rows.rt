// A register: two rows of words side by side, for claims as they came and, from the middle on, for the same in order. It is
// kept in memory of a fixed size that is lent, beside other things, so it is no vector.
ghost use Rattle.std.specs.Prelude.{◌≡◌, Some};
ghost use Rattle.register.specs.Rows.{unfit_text, AddedTo, ChangedIn};

use crate::row::{Moved, Row};
use std::error::Error;
use std::fmt;

// Why a claim was not changed.
#[derive(Clone, Copy, Debug, PartialEq, Eq)]
pub enum Unfit {
    // no such claim is there
    NotThere,
    // the claim is not found among those in order, so no register has left these words
    OutOfOrder,
}

impl fmt::Display for Unfit {
    ghost output = { λ why. Some (unfit_text why) };

    fn fmt<W: fmt::Write>(&self, f: &mut fmt::Formatter<W>) -> fmt::Result {
        f.write_str(match self {
            Unfit::NotThere => "no such claim is there",
            Unfit::OutOfOrder => "the claims are not in order",
        })
    }
}

impl Error for Unfit {}

// The words that are lent, and how many claims are said to be in them, which may be more than there is room for. The
// two rows halve the words, which have a fixed size. It has no `==`, since they are lent to be written.
#[derive(Debug, Drop)]
pub struct Register<'a> {
    pub rows: &'a mut [u64],
    pub count: usize,
}

impl<'a> Register<'a> {
    // A register of `count` claims, if words are lent that are one.
    pub fn new(rows: &'a mut [u64], count: usize) -> Self
        ensures { result ≡ record { rows = rows.entry; count = count } }
    {
        Register { rows, count }
    }

    // Adds a claim last, and answers where it is among those in order. Where there is no room, nothing is done.
    pub fn add(&mut self, claim: u64) -> Option<usize>
        ensures { AddedTo claim self.old self.new result }
    {
        let middle = self.rows.len() / 2;
        if middle <= self.count {
            return None;
        }
        self.rows[self.count] = claim;
        let at = Row::new(self.rows, middle, self.count).insert(claim)?;
        self.count += 1;
        Some(at)
    }

    // Changes the claim at a place, and answers what moved among those in order. Where that does not fit, nothing is done.
    pub fn change(&mut self, i: usize, claim: u64) -> Result<Moved, Unfit>
        ensures { ChangedIn i claim self.old self.new result }
    {
        let middle = self.rows.len() / 2;
        if middle < self.count || self.count <= i {
            return Err(Unfit::NotThere);
        }
        let old = self.rows[i];
        let moved = Row::new(self.rows, middle, self.count)
            .replace(old, claim)
            .ok_or(Unfit::OutOfOrder)?;
        self.rows[i] = claim;
        Ok(moved)
    }
}
