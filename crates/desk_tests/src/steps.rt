// Calls one after the other on a desk, and every word and byte after each.
use crate::common::{HELD, LENT, Ledger, MUCH, Told, WORDS, assert_call, assert_stays, desk_of};
use desk::{call, open};
use std::process::Abort;
use std::test::Fail;
use wire::Answer::{Amounts, Number, Parts};
use wire::Call::{self, Cents, Claim, Come, Prove, Shares};

// A call and its answer; what is there then, and the ledger.
type Step = (Call, Told<'static>, u64, Ledger<'static>);

// Takes the steps on a desk that was opened with just what it asks for.
fn take(rt: &impl Abort, mem: &mut [u64; WORDS], limit: usize, steps: &[Step]) {
    assert!(rt; limit <= 8);
    let words = 64 + 3 * limit;
    for (call, told, there, ledger) in steps {
        assert_call(rt, &mut mem[..words], *call, 24 + 8 * limit, told);
        assert!(rt; *mem == desk_of(limit, *there, *ledger), "{call:?}");
    }
}

// Opens a desk with just what it asks for.
fn opened(rt: &impl Abort, limit: usize) -> [u64; WORDS] {
    assert!(rt; limit <= 8);
    let mut mem = [HELD; WORDS];
    assert!(rt; open(&mut mem[..64 + 3 * limit], limit).is_ok());
    mem
}

// No creditor.
const NOBODY: &[Step] = &[
    (Come(7), Number(7), 7, [&[]; 3]),
    (Shares, Parts(1, &[]), 7, [&[]; 3]),
    (Cents, Amounts(&[]), 7, [&[]; 3]),
];

// As many cents as one call may have.
const LARGEST: &[Step] = &[
    (Claim(MUCH), Number(0), 0, [&[MUCH]; 3]),
    (Prove(0, MUCH), Number(0), 0, [&[MUCH]; 3]),
    (Come(MUCH), Number(MUCH), MUCH, [&[MUCH]; 3]),
    (Cents, Amounts(&[MUCH]), MUCH, [&[MUCH]; 3]),
];

// Claims of 8 and 9, and of 100, 200 and 300.
const TWO: Ledger = [&[8, 9], &[8, 9], &[8, 17]];

const ALL: Ledger = [&[100, 200, 300], &[100, 200, 300], &[100, 300, 600]];

// Of 5 cents for two claims the shares are 2 1/2 each. A third comes, the smallest; all are changed, and move. Of 100, 200
// and 300 cents the shares are then 33 1/3 each; 50, 75, 75; and 50, 100, 150.
const THREE: &[Step] = &[
    (Shares, Parts(1, &[]), 0, [&[]; 3]),
    (Claim(8), Number(0), 0, [&[8]; 3]),
    (Claim(9), Number(1), 0, TWO),
    (Come(5), Number(5), 5, TWO),
    (Shares, Parts(4, &[10, 10]), 5, TWO),
    (Cents, Amounts(&[3, 2]), 5, TWO),
    (
        Claim(7),
        Number(2),
        5,
        [&[8, 9, 7], &[7, 8, 9], &[7, 15, 24]],
    ),
    (
        Prove(2, 300),
        Number(2),
        5,
        [&[8, 9, 300], &[8, 9, 300], &[8, 17, 317]],
    ),
    (
        Prove(0, 100),
        Number(0),
        5,
        [&[100, 9, 300], &[9, 100, 300], &[9, 109, 409]],
    ),
    (Prove(1, 200), Number(1), 5, ALL),
    (Come(95), Number(100), 100, ALL),
    (Shares, Parts(6, &[200, 200, 200]), 100, ALL),
    (Cents, Amounts(&[34, 33, 33]), 100, ALL),
    (Come(100), Number(200), 200, ALL),
    (Shares, Parts(4, &[200, 300, 300]), 200, ALL),
    (Cents, Amounts(&[50, 75, 75]), 200, ALL),
    (Come(100), Number(300), 300, ALL),
    (Shares, Parts(2, &[100, 200, 300]), 300, ALL),
    (Cents, Amounts(&[50, 100, 150]), 300, ALL),
];

#[test]
fn every_word_and_byte(rt: HostRuntime) {
    for &(limit, steps) in &[(0, NOBODY), (1, LARGEST), (3, THREE)] {
        let mut mem = opened(&rt, limit);
        take(&rt, &mut mem, limit, steps);
    }
}

// Eight claims as they come; of as many as there are after each, those in order and the sums.
const CAME: [u64; 8] = [6, 4, 12, 3, 5, 9, 1, 3];

const GROWN: &[(&[u64], &[u64])] = &[
    (&[6], &[6]),
    (&[4, 6], &[4, 10]),
    (&[4, 6, 12], &[4, 10, 22]),
    (&[3, 4, 6, 12], &[3, 7, 13, 25]),
    (&[3, 4, 5, 6, 12], &[3, 7, 12, 18, 30]),
    (&[3, 4, 5, 6, 9, 12], &[3, 7, 12, 18, 27, 39]),
    (&[1, 3, 4, 5, 6, 9, 12], &[1, 4, 8, 13, 19, 28, 40]),
    (&[1, 3, 3, 4, 5, 6, 9, 12], &[1, 4, 7, 11, 16, 22, 31, 43]),
];

fn grow(rt: &impl Abort, mem: &mut [u64; WORDS]) {
    for (i, (in_order, sums)) in GROWN.iter().enumerate() {
        assert!(rt; i < 8);
        assert_call(rt, &mut mem[..88], Claim(CAME[i]), 88, &Number(i as u64));
        assert!(rt; *mem == desk_of(8, 0, [&CAME[..=i], in_order, sums]));
    }
}

// The second is proved up to 8, and the sixth down to 2.
const UP: Ledger = [
    &[6, 8, 12, 3, 5, 9, 1, 3],
    &[1, 3, 3, 5, 6, 8, 9, 12],
    &[1, 4, 7, 12, 18, 26, 35, 47],
];

const DOWN: Ledger = [
    &[6, 8, 12, 3, 5, 2, 1, 3],
    &[1, 2, 3, 3, 5, 6, 8, 12],
    &[1, 3, 6, 9, 14, 20, 28, 40],
];

// Of 40 cents that are claimed ever more are there. The level up to which twice of what all get is filled in is 1, 2 1/2,
// 6 and 12: none of the claims, two, five and seven are below it. Then that of twice of what all lose is 7, 3 3/4 and
// 1 4/7: six are below it, four and one.
const EIGHT: &[Step] = &[
    (Prove(1, 8), Number(1), 0, UP),
    (Prove(5, 2), Number(5), 0, DOWN),
    (Come(4), Number(4), 4, DOWN),
    (Shares, Parts(16, &[8; 8]), 4, DOWN),
    (Cents, Amounts(&[1, 1, 1, 1, 0, 0, 0, 0]), 4, DOWN),
    (Come(5), Number(9), 9, DOWN),
    (Shares, Parts(12, &[15, 15, 15, 15, 15, 12, 6, 15]), 9, DOWN),
    (Cents, Amounts(&[2, 1, 1, 1, 1, 1, 1, 1]), 9, DOWN),
    (Come(7), Number(16), 16, DOWN),
    (Shares, Parts(6, &[18, 18, 18, 9, 15, 6, 3, 9]), 16, DOWN),
    (Cents, Amounts(&[3, 3, 3, 2, 3, 1, 0, 1]), 16, DOWN),
    (Come(4), Number(20), 20, DOWN),
    (Shares, Parts(2, &[6, 8, 12, 3, 5, 2, 1, 3]), 20, DOWN),
    (Cents, Amounts(&[3, 4, 6, 2, 3, 1, 0, 1]), 20, DOWN),
    (Come(3), Number(23), 23, DOWN),
    (Shares, Parts(4, &[12, 18, 34, 6, 10, 4, 2, 6]), 23, DOWN),
    (Cents, Amounts(&[3, 5, 9, 2, 2, 1, 0, 1]), 23, DOWN),
    (Come(5), Number(28), 28, DOWN),
    (Shares, Parts(8, &[33, 49, 81, 12, 25, 8, 4, 12]), 28, DOWN),
    (Cents, Amounts(&[4, 6, 10, 2, 3, 1, 1, 1]), 28, DOWN),
    (Come(6), Number(34), 34, DOWN),
    (
        Shares,
        Parts(14, &[73, 101, 157, 31, 59, 17, 7, 31]),
        34,
        DOWN,
    ),
    (Cents, Amounts(&[6, 7, 11, 2, 4, 1, 1, 2]), 34, DOWN),
];

#[test]
fn levels_at_many_places(rt: HostRuntime) {
    let mut mem = opened(&rt, 8);
    grow(&rt, &mut mem);
    take(&rt, &mut mem, 8, EIGHT);
}

// Bytes and their answers: claims of 300, 100 and 200, and 400 cents; the shares are 225, 50 and 125.
const ROWS: &[(&[u8], &[u8])] = &[
    (b"\x00\x2c\x01\0\0\0\0\0\0", b"\x01\0\0\0\0\0\0\0\0"),
    (b"\x00\x64\0\0\0\0\0\0\0", b"\x01\x01\0\0\0\0\0\0\0"),
    (b"\x00\xc8\0\0\0\0\0\0\0", b"\x01\x02\0\0\0\0\0\0\0"),
    (b"\x02\x90\x01\0\0\0\0\0\0", b"\x01\x90\x01\0\0\0\0\0\0"),
    (
        b"\x03",
        b"\x02\x04\0\0\0\0\0\0\0\x03\0\0\0\0\0\0\0\
        \x84\x03\0\0\0\0\0\0\xc8\0\0\0\0\0\0\0\xf4\x01\0\0\0\0\0\0",
    ),
    (
        b"\x04",
        b"\x03\x03\0\0\0\0\0\0\0\
        \xe1\0\0\0\0\0\0\0\x32\0\0\0\0\0\0\0\x7d\0\0\0\0\0\0\0",
    ),
];

// What lies behind an answer stays.
fn assert_bytes(rt: &impl Abort, mem: &mut [u64], bytes: &[u8], row: &[u8]) {
    let mut out = [LENT; 60];
    assert!(rt; call(mem, bytes, &mut out) == Ok(row.len()), "{bytes:?}");
    assert!(rt; out.starts_with(row));
    assert_stays(rt, &out, row.len());
}

#[test]
fn bytes_of_answers(rt: HostRuntime) -> Result<(), Fail> {
    let mut mem = [HELD; WORDS];
    open(&mut mem, 3)?;
    for &(bytes, row) in ROWS {
        assert_bytes(&rt, &mut mem, bytes, row);
    }
    let ledger: Ledger = [&[300, 100, 200], &[100, 200, 300], &[100, 300, 600]];
    assert!(rt; mem == desk_of(3, 400, ledger));
    Ok(())
}
