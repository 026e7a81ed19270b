// Lines that are read: numbers, and shares as they are printed.
ghost use Rattle.std.specs.Prelude.{◌≡◌, ◌==◌, ◌&&◌, IfOk, is_some, SomeIff, IsTrue, None, [], drop};
ghost use Rattle.text.specs.Laws.{NumbersBack, SharesBack, MisfitsFirst};
ghost use Rattle.text.specs.Read.{closed, shares_of, grown, grows, headed, heads, is_blank, numbers_from, numbers_of, so_far};
ghost use Rattle.text.specs.Read.{in_parts, IsHead, IsRead};
ghost use Rattle.text.specs.declared.reading.ReadError.TheVariants.{OutOfMemory};

use std::alloc::{AllocError, Global};

// Why a line was not read.
#[derive(Clone, Copy, Debug, PartialEq, Eq)]
pub enum ReadError {
    // the byte at this place, counted from 0, is the first that does not fit
    Misfit(usize),
    OutOfMemory,
}

impl From<AllocError> for ReadError {
    ghost from_gives = { λ _ e. e ≡ OutOfMemory };

    fn from(_e: AllocError) -> Self {
        Self::OutOfMemory
    }
}

// A line of shares, and how many parts a cent has in it.
#[derive(Debug, PartialEq, Eq, Drop)]
pub struct ShareLine {
    pub parts: u64,
    pub shares: Vec<u64>,
}

// The numbers in a line: `100 200 300`.
#[tactic(auto, using(crate::proofs::Back::numbers_back, crate::proofs::Places::numbers_misfits_first))]
pub fn read_numbers(heap: Global, line: &[u8]) -> Result<Vec<u64>, ReadError>
    ensures read { IsRead (λ v. v.items) (numbers_of line.now) result }
    ensures back { NumbersBack }
    ensures misfit { MisfitsFirst numbers_of }
{
    numbers_from(heap, line, 0)
}

// The shares in a line: `d 6: 200 200 200`.
#[tactic(auto, using(crate::proofs::Back::shares_back, crate::proofs::Heads::shares_misfits_first))]
pub fn read_shares(heap: Global, line: &[u8]) -> Result<ShareLine, ReadError>
    ensures read { IsRead in_parts (shares_of line.now) result }
    ensures back { SharesBack }
    ensures misfit { MisfitsFirst shares_of }
{
    let (parts, start) = head(line)?;
    let shares = numbers_from(heap, line, start)?;
    Ok(ShareLine { parts, shares })
}

// The numbers in a line from a place on.
#[tactic(auto, using(crate::proofs::Lines::numbers_next, crate::proofs::Lines::numbers_end))]
fn numbers_from(heap: Global, line: &[u8], start: usize) -> Result<Vec<u64>, ReadError>
    ensures { IsRead (λ v. v.items) (numbers_from start [] None (drop start line.now)) result }
{
    let mut whole = Vec::new(heap);
    // that of which digits are being read
    let mut begun = None;
    for at in start..line.len() {
        if is_blank(line[at]) {
            close(&mut whole, begun.take())?;
        } else {
            let Some(number) = grown(begun.unwrap_or(0), line[at]) else {
                return Err(ReadError::Misfit(at));
            };
            begun = Some(number);
        }
    }
    close(&mut whole, begun)?;
    Ok(whole)
}

// Puts the number of which digits were read behind those that are whole, if there is one.
fn close(whole: &mut Vec<u64>, begun: Option<u64>) -> Result<(), AllocError>
    ensures { IfOk result (λ _. whole.new.items ≡ closed whole.old.items begun) }
{
    if let Some(number) = begun {
        whole.push(number)?;
    }
    Ok(())
}

// How many parts a cent has by the head of a line of shares, `d 6:`, and where that ends.
#[tactic(auto, using(crate::proofs::Lines::head_next, crate::proofs::Lines::head_end))]
fn head(line: &[u8]) -> Result<(u64, usize), ReadError>
    ensures { IsHead line.now result }
{
    let mut begun = None;
    for (at, byte) in line.iter().enumerate() {
        if let Some(parts) = ended(begun, *byte) {
            return Ok((parts, at + 1));
        }
        let Some(next) = headed(at, begun, *byte) else {
            return Err(ReadError::Misfit(at));
        };
        begun = next;
    }
    Err(ReadError::Misfit(line.len()))
}

// The number whose digits are read, where the colon of a head is behind them.
fn ended(begun: Option<u64>, byte: u8) -> Option<u64>
    ensures { SomeIff result (IsTrue (byte == 58 && is_some begun)) (so_far begun) }
{
    if byte == b':' { begun } else { None }
}

// What a byte at this place makes of such a head; none if it does not fit.
fn headed(at: usize, begun: Option<u64>, byte: u8) -> Option<Option<u64>>
    ensures { SomeIff result (IsTrue (heads at begun byte)) (headed at begun byte) }
{
    match at {
        0 => (byte == b'd').then_some(begun),
        1 => (byte == b' ').then_some(begun),
        _ => Some(Some(grown(begun.unwrap_or(0), byte)?)),
    }
}

// A number with one more digit; none if the byte is no digit, or no word holds the number.
fn grown(number: u64, digit: u8) -> Option<u64>
    ensures { SomeIff result (IsTrue (grows number digit)) (grown number digit) }
{
    let b'0'..=b'9' = digit else {
        return None;
    };
    number.checked_mul(10)?.checked_add(u64::from(digit - b'0'))
}

// Whether a byte may stand between numbers: a space, a tab, or the return that ends a line before its feed.
pub fn is_blank(byte: u8) -> bool
    ensures { result ≡ is_blank byte }
{
    matches!(byte, b' ' | b'\t' | b'\r')
}
