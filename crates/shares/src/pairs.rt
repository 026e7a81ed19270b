// Whether given shares divide, by a look at each two creditors. No code here finds a share.
ghost use Rattle.std.specs.Prelude.{◌≡◌, Some, length};
ghost use Rattle.shares.specs.Laws.{SharesPass, AcceptsDivisions, OnlyDivisions, NobodyAbove, OneVerdict};
ghost use Rattle.shares.specs.Pairs.{is_fair, fault_text, Searched, Verdict};

use std::error::Error;
use std::fmt;

// Why shares are no division.
#[derive(Clone, Copy, Debug, PartialEq, Eq)]
pub enum Fault {
    // there is not one share for each claim
    Unpaired,
    // a cent has no parts
    NoParts,
    // these two, the lower place first, do not divide as two do; all pairs before them do
    Pair(usize, usize),
    // the only creditor has more than it claims
    Alone,
}

impl fmt::Display for Fault {
    ghost output = { λ why. Some (fault_text why) };

    fn fmt<W: fmt::Write>(&self, f: &mut fmt::Formatter<W>) -> fmt::Result {
        match self {
            Fault::Unpaired => write!(f, "not one share for each claim"),
            Fault::NoParts => write!(f, "a cent has no parts"),
            // the places alone, as who checks a division wants them
            Fault::Pair(i, j) => write!(f, "{i} and {j}"),
            Fault::Alone => write!(f, "the only creditor has more than it claims"),
        }
    }
}

impl Error for Fault {}

// Whether two divide as two do, who claim c and k cents and have a and b d-ths of a cent. No number here passes 128 bits;
// what they claim together might, and is not made.
fn is_fair(d: u64, c: u64, k: u64, a: u64, b: u64) -> bool
    ensures { result ≡ is_fair d c k a b }
{
    let first = u128::from(d) * u128::from(c);
    let second = u128::from(d) * u128::from(k);
    let both = u128::from(a) + u128::from(b);
    // each leaves the other what is above its own claim
    let to_second = both.saturating_sub(first);
    let to_first = both.saturating_sub(second);
    to_second <= second && 2 * u128::from(a) + to_second == both + to_first
}

// The first two that do not divide as two do, the lower place first.
fn first_unfair(d: u64, claims: &[u64], shares: &[u64]) -> Option<(usize, usize)>
    requires { length shares.now ≡ length claims.now }
    ensures { Searched d claims.now shares.now result }
{
    let mut found = None;
    'pairs: for i in 0..claims.len() {
        for j in i + 1..claims.len() {
            if !is_fair(d, claims[i], claims[j], shares[i], shares[j]) {
                found = Some((i, j));
                break 'pairs;
            }
        }
    }
    found
}

// Whether shares, in d-ths of a cent, divide what they come to among claims in whole cents.
#[tactic(auto, using(crate::proofs::Carried::check))]
pub fn check(d: u64, claims: &[u64], shares: &[u64]) -> Result<(), Fault>
    ensures verdict { Verdict d claims.now shares.now result }
    ensures shares_pass { SharesPass }
    ensures accepts_divisions { AcceptsDivisions }
    ensures only_divisions { OnlyDivisions }
    ensures nobody_above { NobodyAbove }
    ensures one_verdict { OneVerdict }
{
    if shares.len() != claims.len() {
        return Err(Fault::Unpaired);
    }
    if d == 0 {
        return Err(Fault::NoParts);
    }
    if let Some((i, j)) = first_unfair(d, claims, shares) {
        return Err(Fault::Pair(i, j));
    }
    if claims.len() == 1 && u128::from(d) * u128::from(claims[0]) < u128::from(shares[0]) {
        return Err(Fault::Alone);
    }
    Ok(())
}
