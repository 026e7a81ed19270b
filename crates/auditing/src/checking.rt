// Claims and shares that are read from a text, and checked.
ghost use Rattle.std.specs.Prelude.{IfOk, Some};
ghost use Rattle.auditing.specs.Audits.{finding_text, IsAudited};
ghost use Rattle.auditing.specs.Laws.{DesksPass, OneFinding, RightDivides};

use crate::lines::{blank_lines, first_line};
use estate::MOST_SERVED;
use shares::{Fault, check};
use std::alloc::{AllocError, Global};
use std::fmt;
use text::{ReadError, read_numbers, read_shares};

// What an audit finds.
#[derive(Clone, Copy, Debug, PartialEq, Eq)]
pub enum Finding {
    // the shares are a division
    Right,
    // they are none
    Wrong(Fault),
    // the first line ceases to be claims at this place, counted from 0
    ClaimsMisfit(usize),
    // there are more claims than are served
    TooMany,
    // the second line ceases to be shares at this place
    SharesMisfit(usize),
    // another line is not blank: this one, counted from 1
    Line(usize),
}

impl fmt::Display for Finding {
    ghost output = { λ finding. Some (finding_text finding) };

    fn fmt<W: fmt::Write>(&self, f: &mut fmt::Formatter<W>) -> fmt::Result {
        match self {
            Finding::Right => write!(f, "right"),
            Finding::Wrong(fault @ (Fault::Unpaired | Fault::NoParts)) => {
                write!(f, "line 2: {fault}")
            }
            Finding::Wrong(fault) => write!(f, "{fault}"),
            Finding::ClaimsMisfit(at) => {
                write!(
                    f,
                    "line 1, from byte {at} on: claims are written as 100 200 300"
                )
            }
            Finding::TooMany => write!(f, "line 1: more than {MOST_SERVED} claims"),
            Finding::SharesMisfit(at) => {
                write!(
                    f,
                    "line 2, from byte {at} on: shares are written as d 6: 200 200 200"
                )
            }
            Finding::Line(line) => write!(f, "line {line}: nothing may stand behind the shares"),
        }
    }
}

// Whether a text is claims, and in the line below them a division among these.
#[tactic(auto, using(crate::proofs::Findings::laws))]
pub fn audit(heap: Global, text: &[u8]) -> Result<Finding, AllocError>
    ensures finding { IfOk result (IsAudited text.now) }
    ensures one { OneFinding }
    ensures desks_pass { DesksPass }
    ensures right_divides { RightDivides }
{
    find(heap, text)
}

// The same by itself: the theorems stand on `audit`, so that no exit of this function has to carry them.
#[tactic(auto, using(crate::proofs::Findings::found))]
fn find(heap: Global, text: &[u8]) -> Result<Finding, AllocError>
    ensures { IfOk result (IsAudited text.now) }
{
    let (first, behind) = first_line(text);
    let claims = match read_numbers(heap, first) {
        Ok(claims) => claims,
        Err(ReadError::Misfit(at)) => return Ok(Finding::ClaimsMisfit(at)),
        Err(ReadError::OutOfMemory) => return Err(AllocError),
    };
    if claims.len() > MOST_SERVED {
        return Ok(Finding::TooMany);
    }
    let (second, rest) = first_line(behind);
    let read = match read_shares(heap, second) {
        Ok(read) => read,
        Err(ReadError::Misfit(at)) => return Ok(Finding::SharesMisfit(at)),
        Err(ReadError::OutOfMemory) => return Err(AllocError),
    };
    if let Some(lines) = blank_lines(rest) {
        return Ok(Finding::Line(lines + 3));
    }
    match check(read.parts, &claims, &read.shares) {
        Ok(()) => Ok(Finding::Right),
        Err(fault) => Ok(Finding::Wrong(fault)),
    }
}
