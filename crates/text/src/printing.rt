// Numbers and answers as text.
ghost use Rattle.std.specs.Prelude.{Some};
ghost use Rattle.text.specs.Printed.{answer_text, behind, spaced};
ghost use Rattle.wire.specs.Meaning.{told};

use std::fmt;
use wire::Answer;

// Numbers with a space before each.
#[derive(Clone, Copy)]
struct Behind<'a>(&'a [u64]);

impl fmt::Display for Behind<'_> {
    ghost output = { λ list. Some (behind list.0.now) };

    fn fmt<W: fmt::Write>(&self, f: &mut fmt::Formatter<W>) -> fmt::Result {
        for n in self.0 {
            write!(f, " {n}")?;
        }
        Ok(())
    }
}

// Numbers with a space between each two: `34 33 33`.
#[derive(Clone, Copy)]
pub struct Spaced<'a>(pub &'a [u64]);

impl fmt::Display for Spaced<'_> {
    ghost output = { λ list. Some (spaced list.0.now) };

    fn fmt<W: fmt::Write>(&self, f: &mut fmt::Formatter<W>) -> fmt::Result {
        match self.0 {
            [] => Ok(()),
            [first, rest @ ..] => write!(f, "{first}{}", Behind(rest)),
        }
    }
}

// An answer: a number, `d 6: 200 200 200`, `34 33 33` or `refused 5 at 0`.
#[derive(Clone, Copy)]
pub struct Shown<'a>(pub &'a Answer<Vec<u64>>);

impl fmt::Display for Shown<'_> {
    ghost output = { λ shown. Some (answer_text (told (λ v. v.items) shown.0.now)) };

    fn fmt<W: fmt::Write>(&self, f: &mut fmt::Formatter<W>) -> fmt::Result {
        match self.0 {
            Answer::Refused(turned_away) => write!(f, "{turned_away}"),
            Answer::Number(n) => write!(f, "{n}"),
            Answer::Parts(d, shares) => write!(f, "d {d}:{}", Behind(shares)),
            Answer::Amounts(cents) => write!(f, "{}", Spaced(cents)),
        }
    }
}
