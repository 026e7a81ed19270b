// Memory that held anything.
use crate::common::{
    HELD, LENT, MOST, MUCH, NOT_LENT, WORDS, assert_call, assert_stays, desk_of, put,
};
use desk::call;
use std::process::Abort;
use std::test::Fail;
use wire::Answer::Number;
use wire::Call::{self, Cents, Claim, Come, Prove, Shares};

// Memory that held one number all over, and holds a header, and words from the 64th on.
fn memory(held: u64, header: [u64; 3], behind: &[u64]) -> [u64; WORDS] {
    let mut words = [held; WORDS];
    put(&mut words, 0, &header);
    put(&mut words, 64, behind);
    words
}

// What memory held all over, its header, its words from the 64th on, and from which on nothing may change: the largest
// numbers; all 0, which is a desk without creditors, since 64 words are enough for one; all 1, a desk but for its spare
// words; claims out of order, above 10^9, others in order than came, more than are counted, and none counted.
const ANYTHING: &[(u64, [u64; 3], &[u64], usize)] = &[
    (MOST, [MOST; 3], &[], 0),
    (0, [0; 3], &[], 64),
    (1, [1; 3], &[], 67),
    (HELD, [3, 5, 2], &[9, 8, 7, 6, 5, 4, 3, 2, 1], 73),
    (HELD, [3, 1000 * MUCH, 3], &[MOST; 9], 73),
    (
        HELD,
        [3, 400, 3],
        &[MOST, 0, 7, MOST, 0, 7, MOST, MOST, 7],
        73,
    ),
    (HELD, [2, 7, 2], &[3, 3, 4, 4, 4, 8], 70),
    (HELD, [3, 400, 2], &[1, 2, 300, 1, 2, 600, 1, 3, 900], 73),
    (MOST, [3, 7, 0], &[], 73),
];

// Calls, and the first byte of their answers.
const CALLS: &[(Call, u8)] = &[
    (Claim(MUCH), 1),
    (Prove(1, 5), 1),
    (Come(1), 1),
    (Shares, 2),
    (Cents, 3),
];

// An answer begins with a byte, has room, and does not reach behind its end.
fn assert_answer(rt: &impl Abort, out: &[u8; 92], sent: usize, kind: u8) {
    assert!(rt; 0 < sent && sent <= 88);
    assert!(rt; out[0] == kind);
    assert_stays(rt, out, sent);
}

// The limit, spare words, and what lies behind a desk stay.
fn assert_spared(rt: &impl Abort, mem: &[u64], before: &[u64], end: usize) {
    for (i, (word, held)) in mem.iter().zip(before).enumerate() {
        let spared = i == 0 || (3 <= i && i < 64) || end <= i;
        assert!(rt; !spared || word == held);
    }
}

// What most of these are answered is left open. None changes the limit, spare words, or what lies behind a desk or an
// answer; shares and cents, and what is turned away, change nothing. Where a desk may be shares are answered, and cents are
// answered or refused as too little is.
fn assert_within(rt: &impl Abort, before: [u64; WORDS], end: usize, row: &[u8], kind: u8) {
    let mut mem = before;
    let mut out = [LENT; 92];
    match call(&mut mem, row, &mut out) {
        Ok(sent) => {
            assert!(rt; kind == 1 || mem == before, "{row:?}");
            assert_answer(rt, &out, sent, kind);
        }
        Err(turned) => {
            assert!(rt; mem == before, "{row:?}");
            assert!(rt; kind == 1 || (turned == NOT_LENT && (kind != 2 || end == 0)));
            assert_stays(rt, &out, 0);
        }
    }
    assert!(rt; end <= WORDS);
    assert_spared(rt, &mem, &before, end);
}

// The same of each of the calls.
fn assert_all_within(rt: &impl Abort, before: [u64; WORDS], end: usize) -> Result<(), Fail> {
    for &(asked, kind) in CALLS {
        let mut row = [0u8; 17];
        let len = asked.encode(&mut row)?;
        assert_within(rt, before, end, &row[..len], kind);
    }
    Ok(())
}

#[test]
fn calls_on_anything(rt: HostRuntime) -> Result<(), Fail> {
    for &(held, header, behind, end) in ANYTHING {
        assert_all_within(&rt, memory(held, header, behind), end)?;
    }
    Ok(())
}

// Sums over seven claims of a desk for eight, and the word behind them: none, the claims in order, the largest numbers,
// the right ones turned round, one of them too small and too large, and the largest number among words of 0.
const SUMS: &[[u64; 8]] = &[
    [0; 8],
    [1, 3, 3, 5, 6, 8, 12, 0],
    [MOST; 8],
    [38, 26, 18, 12, 7, 4, 1, 0],
    [1, 4, 7, 11, 18, 26, 38, 0],
    [1, 4, 7, 13, 18, 26, 38, 0],
    [0, 0, 0, MOST, 0, 0, 0, MOST],
];

// One more claim, and another for the second, which was 8, are kept.
fn assert_kept(rt: &impl Abort, mem: &mut [u64; WORDS], there: u64) {
    assert_call(rt, &mut mem[..88], Claim(9), 88, &Number(7));
    assert_call(rt, &mut mem[..88], Prove(1, 5), 88, &Number(1));
    assert!(rt; mem.starts_with(&[8, there, 8]));
    assert!(rt; mem[64..].starts_with(&[6, 5, 12, 3, 5, 1, 3, 9]));
}

// All but the sums is right.
#[test]
fn calls_where_sums_are_wrong(rt: HostRuntime) -> Result<(), Fail> {
    let came = &[6, 8, 12, 3, 5, 1, 3];
    let in_order = &[1, 3, 3, 5, 6, 8, 12];
    for sums in SUMS {
        for there in [0, 4, 12, 19, 26, 35, 1000 * MUCH] {
            let mut mem = desk_of(8, there, [came, in_order, sums]);
            assert_all_within(&rt, mem, 88)?;
            assert_kept(&rt, &mut mem, there);
        }
    }
    Ok(())
}
