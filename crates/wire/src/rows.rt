// Numbers in rows of bytes, eight bytes each, low byte first.
ghost use Rattle.std.specs.List.{flat_map};
ghost use Rattle.std.specs.Prelude.{◌≡◌, ◌+◌, ◌*◌, ◌/◌, ◌≤◌, ◌++◌, length, IfOk};
ghost use Rattle.wire.specs.Bytes.{Fitting, eight, number_at, numbers, row};
ghost use Rattle.wire.specs.Written.{Written};

use crate::numbers::Numbers;
use crate::refusals::Refusal;
use std::alloc::{AllocError, Global};

// The number whose eight bytes begin at a place.
pub(crate) fn number_at(bytes: &[u8], at: usize) -> u64
    requires { at + 8 ≤ length bytes.now }
    ensures { result ≡ number_at bytes.now at }
{
    u64::from_le_bytes(*bytes[at..].first_chunk().unwrap())
}

// Writes numbers into bytes that they just fill.
#[tactic(auto, using(crate::proofs::Bytes::just_filled))]
fn fill<L: Numbers>(out: &mut [u8], list: &L)
    requires { length out.old ≡ 8 * length (L.items list.now) }
    ensures { out.new ≡ flat_map eight (L.items list.now) }
{
    list.put(out).unwrap();
}

// Writes a row at the start of lent bytes: the byte of its kind, the numbers of its head and, in the part behind them, those
// of its list. It takes the byte and not a kind, since calls and answers have kinds of their own; `as u8` of a kind is its
// byte.
#[tactic(auto, using(crate::proofs::Bytes::row_steps))]
pub(crate) fn put_list<L: Numbers>(
    out: &mut [u8],
    kind: u8,
    head: &[u64],
    list: &L,
) -> Result<usize, Refusal>
    ensures written { Written (row kind (head.now ++ L.items list.now)) out.old out.new result }
    ensures fit { Fitting (head.now ++ L.items list.now) }
{
    let start = 1 + 8 * head.len();
    let end = start + 8 * list.count();
    if out.len() < end {
        return Err(Refusal::NotLent);
    }
    out[0] = kind;
    fill(&mut out[1..start], &head);
    fill(&mut out[start..end], list);
    Ok(end)
}

// The same without a list.
#[tactic(auto, using(crate::proofs::Bytes::without_list))]
pub(crate) fn put(out: &mut [u8], kind: u8, numbers: &[u64]) -> Result<usize, Refusal>
    ensures written { Written (row kind numbers.now) out.old out.new result }
    ensures fit { Fitting numbers.now }
{
    let none: &[u64] = &[];
    put_list(out, kind, numbers, &none)
}

// All the whole numbers in a row of bytes.
#[tactic(auto, using(crate::proofs::Bytes::steps, std::proofs::lemmas::Grind::common_steps))]
pub(crate) fn numbers_in(heap: Global, bytes: &[u8]) -> Result<Vec<u64>, AllocError>
    ensures { IfOk result (λ v. v.items ≡ numbers (length bytes.now / 8) bytes.now) }
{
    let mut list = Vec::new(heap);
    let mut rest = bytes;
    while let Some((eight, others)) = rest.split_first_chunk() {
        list.push(u64::from_le_bytes(*eight))?;
        rest = others;
    }
    Ok(list)
}
