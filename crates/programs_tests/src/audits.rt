// Texts of claims and shares, and what an audit finds of them.
use auditing::Finding::{self, ClaimsMisfit, Line, Right, SharesMisfit, TooMany, Wrong};
use auditing::audit;
use shares::Fault::{Alone, NoParts, Pair, Unpaired};
use std::alloc::{AllocError, Global};
use std::process::Abort;
use std::test::Fail;

// A text has this finding, which is printed so.
fn assert_audit(rt: &impl Abort, heap: Global, text: &[u8], want: (Finding, &[u8])) {
    let found = audit(heap, text).ok().expect(rt, "no memory");
    let printed = found.to_string(heap).ok().expect(rt, "no memory");
    assert!(rt; (found, printed.as_bytes()) == want, "{text:?}");
}

// 100, 200 and 300 cents among claims of as much, and 400 among these in another order; in other parts of a cent. Claims of
// zero, nothing there, all covered, a lone creditor who gets all, and nobody. No feed at the end, blanks and zeros in front,
// returns, and white space of each kind behind. The largest numbers.
const RIGHT: &[&[u8]] = &[
    b"100 200 300\nd 6: 200 200 200\n",
    b"100 200 300\nd 4: 200 300 300\n",
    b"100 200 300\nd 2: 100 200 300\n",
    b"300 100 200\nd 4: 900 200 500\n",
    b"100 200 300\nd 12: 400 400 400\n",
    b"100 200 300\nd 1: 50 75 75\n",
    b"0\nd 2: 0\n",
    b"0 7\nd 2: 0 10\n",
    b"2 1\nd 4: 0 0\n",
    b"5 6\nd 4: 20 24\n",
    b"9\nd 2: 18\n",
    b"\nd 1:\n",
    b"\nd 1:",
    b" \t\r\nd 7: \r\n",
    b"2 1\nd 2: 3 1",
    b" 02\t1 \nd 02:3 01 ",
    b"2 1\r\nd 2: 3 1\r\n",
    b"2 1\r\nd 2: 3 1\r",
    b"2 1\nd 2: 3 1\n\n",
    b"2 1\nd 2: 3 1\n \t\r\n\n  ",
    b"18446744073709551615 18446744073709551615\nd 1: 18446744073709551615 18446744073709551615\n",
    b"18446744073709551615 0\nd 18446744073709551615: 18446744073709551615 0\n",
];

// A text, and what is found, and printed of it.
type Wanted = (&'static [u8], Finding, &'static [u8]);

// In proportion to what is claimed; all alike, and so where the first two claim alike; all to the first; rounded, with the
// rest at the last; a cent too many at the last; the last two of four. More than both claim, for both, the second and the
// first; equal claims; claims of zero; a coat in halves; the first and last, and the last two, of twelve.
// The only creditor by one part of a cent above its claim, also above zero and nearly the largest number.
// A share too few, one too many, none, and no claims, also where a cent has no parts. No parts, also where two would not
// divide as two do, the only creditor has more than it claims, and nobody claims.
const WRONG: &[Wanted] = &[
    (
        b"100 200 300\nd 6: 100 200 300\n",
        Wrong(Pair(0, 1)),
        b"0 and 1",
    ),
    (
        b"100 200 300\nd 1: 100 100 100\n",
        Wrong(Pair(0, 1)),
        b"0 and 1",
    ),
    (
        b"200 200 100\nd 1: 100 100 100\n",
        Wrong(Pair(0, 2)),
        b"0 and 2",
    ),
    (
        b"100 200 300\nd 1: 100 0 0\n",
        Wrong(Pair(0, 1)),
        b"0 and 1",
    ),
    (
        b"100 200 300\nd 1: 33 33 34\n",
        Wrong(Pair(0, 2)),
        b"0 and 2",
    ),
    (
        b"100 200 300\nd 1: 50 75 76\n",
        Wrong(Pair(1, 2)),
        b"1 and 2",
    ),
    (
        b"2 2 100 100\nd 1: 1 1 30 40\n",
        Wrong(Pair(2, 3)),
        b"2 and 3",
    ),
    (b"5 6\nd 1: 6 7\n", Wrong(Pair(0, 1)), b"0 and 1"),
    (b"5 6\nd 1: 5 7\n", Wrong(Pair(0, 1)), b"0 and 1"),
    (b"5 6\nd 1: 6 6\n", Wrong(Pair(0, 1)), b"0 and 1"),
    (b"10 10\nd 1: 2 3\n", Wrong(Pair(0, 1)), b"0 and 1"),
    (b"0 0\nd 1: 1 1\n", Wrong(Pair(0, 1)), b"0 and 1"),
    (b"2 1\nd 1: 1 1\n", Wrong(Pair(0, 1)), b"0 and 1"),
    (
        b"9 9 9 9 9 9 9 9 9 9 9 9\nd 1: 1 1 1 1 1 1 1 1 1 1 1 2\n",
        Wrong(Pair(0, 11)),
        b"0 and 11",
    ),
    (
        b"2 2 2 2 2 2 2 2 2 2 9 9\nd 1: 1 1 1 1 1 1 1 1 1 1 2 3",
        Wrong(Pair(10, 11)),
        b"10 and 11",
    ),
    (b"9\nd 2: 19\n", Wrong(Alone), ALONE),
    (b"0\nd 1: 1\n", Wrong(Alone), ALONE),
    (
        b"18446744073709551614\nd 1: 18446744073709551615\n",
        Wrong(Alone),
        ALONE,
    ),
    (b"100 200 300\nd 6: 200 200\n", Wrong(Unpaired), UNPAIRED),
    (
        b"100 200 300\nd 6: 200 200 200 200\n",
        Wrong(Unpaired),
        UNPAIRED,
    ),
    (b"100\nd 6:\n", Wrong(Unpaired), UNPAIRED),
    (b"\nd 6: 1\n", Wrong(Unpaired), UNPAIRED),
    (b"\nd 0: 0\n", Wrong(Unpaired), UNPAIRED),
    (b"1 2\nd 0: 0 0\n", Wrong(NoParts), NO_PARTS),
    (b"1 2\nd 0: 0 1\n", Wrong(NoParts), NO_PARTS),
    (b"1\nd 00: 1\n", Wrong(NoParts), NO_PARTS),
    (b"\nd 0:\n", Wrong(NoParts), NO_PARTS),
];

const ALONE: &[u8] = b"the only creditor has more than it claims";

const UNPAIRED: &[u8] = b"line 2: not one share for each claim";

const NO_PARTS: &[u8] = b"line 2: a cent has no parts";

// Claims that cannot be read: a letter, a mark of byte order, the shares first; a comma, besides shares that cannot; a return
// that ends no line; a number past a word, besides no shares.
// Shares that cannot: no text, one feed, no second line, an empty one, one behind it, or behind an empty first; claims again;
// a feed in the head; no colon, besides a third line; a point.
// A third line, also behind empty ones; bytes that are no white space; besides two that do not divide, and no parts.
const UNREAD: &[Wanted] = &[
    (b"x\nd 1: 1\n", ClaimsMisfit(0), CLAIMS_0),
    (b"\xef\xbb\xbf1\nd 1: 1\n", ClaimsMisfit(0), CLAIMS_0),
    (b"d 1: 1\n1\n", ClaimsMisfit(0), CLAIMS_0),
    (
        b"100, 200\nD 1: 100 200\n",
        ClaimsMisfit(3),
        b"line 1, from byte 3 on: claims are written as 100 200 300",
    ),
    (
        b"1\rd 1: 1\rx",
        ClaimsMisfit(2),
        b"line 1, from byte 2 on: claims are written as 100 200 300",
    ),
    (
        b"100 200 18446744073709551616",
        ClaimsMisfit(27),
        b"line 1, from byte 27 on: claims are written as 100 200 300",
    ),
    (b"", SharesMisfit(0), SHARES_0),
    (b"\n", SharesMisfit(0), SHARES_0),
    (b"1 2", SharesMisfit(0), SHARES_0),
    (b"1 2\n", SharesMisfit(0), SHARES_0),
    (b"1 2\r\n\r\n", SharesMisfit(0), SHARES_0),
    (b"1 2\n\nd 2: 1 2\n", SharesMisfit(0), SHARES_0),
    (b"\n1 2\nd 2: 1 2\n", SharesMisfit(0), SHARES_0),
    (b"1 2\n1 2\n", SharesMisfit(0), SHARES_0),
    (
        b"1 2\nd\n2: 1 2\n",
        SharesMisfit(1),
        b"line 2, from byte 1 on: shares are written as d 6: 200 200 200",
    ),
    (
        b"1 2\nd 2 1 2\nd 2: 1 2\n",
        SharesMisfit(3),
        b"line 2, from byte 3 on: shares are written as d 6: 200 200 200",
    ),
    (
        b"100 200 300\nd 6: 200 200 200.\n",
        SharesMisfit(16),
        b"line 2, from byte 16 on: shares are written as d 6: 200 200 200",
    ),
    (b"1\nd 1: 1\nx", Line(3), LINE_3),
    (b"1\nd 1: 1\n\n\r\n 0\n", Line(5), LINE_5),
    (b"1\nd 1: 1\n\0", Line(3), LINE_3),
    (b"1\nd 1: 1\n\x0b\n", Line(3), LINE_3),
    (b"1\nd 1: 1\n \x0c\n", Line(3), LINE_3),
    (b"1\nd 1: 1\n\xc2\xa0\n", Line(3), LINE_3),
    (b"1\nd 1: 9\n1\n", Line(3), LINE_3),
    (b"1 2\nd 0: 9\n1\n", Line(3), LINE_3),
];

const CLAIMS_0: &[u8] = b"line 1, from byte 0 on: claims are written as 100 200 300";

const SHARES_0: &[u8] = b"line 2, from byte 0 on: shares are written as d 6: 200 200 200";

const LINE_3: &[u8] = b"line 3: nothing may stand behind the shares";

const LINE_5: &[u8] = b"line 5: nothing may stand behind the shares";

#[test]
fn findings(rt: HostRuntime) {
    for text in RIGHT {
        assert_audit(&rt, rt.alloc(), text, (Right, b"right"));
    }
    for table in [WRONG, UNREAD] {
        for &(text, finding, printed) in table {
            assert_audit(&rt, rt.alloc(), text, (finding, printed));
        }
    }
}

// How many claims of two cents, and what is behind these; how many shares of one part of a cent, and what is behind these.
type Counted = (usize, &'static str, usize, &'static str);

// As many claims as are served. More, whatever is wrong below, but not where they cannot be read. A share too many, another
// for the last, and a third line.
const MANY: &[(Counted, Finding, &[u8])] = &[
    ((64, "\nd 1: ", 64, "\n"), Right, b"right"),
    ((65, "\nd 1: ", 65, "\n"), TooMany, TOO_MANY),
    ((65, "\nd 1: ", 64, "\n"), TooMany, TOO_MANY),
    ((1000, "\n1 1 ", 0, "\nx"), TooMany, TOO_MANY),
    ((65, "", 0, ""), TooMany, TOO_MANY),
    (
        (65, "x\nd 1: ", 65, "\n"),
        ClaimsMisfit(130),
        b"line 1, from byte 130 on: claims are written as 100 200 300",
    ),
    ((64, "\nd 1: ", 65, "\n"), Wrong(Unpaired), UNPAIRED),
    ((64, "\nd 1: ", 63, "0\n"), Wrong(Pair(0, 63)), b"0 and 63"),
    ((64, "\nd 1: ", 64, "\n1"), Line(3), LINE_3),
];

const TOO_MANY: &[u8] = b"line 1: more than 64 claims";

// Puts the same behind a text so many times.
fn put(text: &mut String, what: &str, times: usize) -> Result<(), AllocError> {
    for _ in 0..times {
        text.push_str(what)?;
    }
    Ok(())
}

fn count(text: &mut String, counted: Counted) -> Result<(), AllocError> {
    let (claims, middle, shares, end) = counted;
    put(text, "2 ", claims)?;
    text.push_str(middle)?;
    put(text, "1 ", shares)?;
    text.push_str(end)
}

#[test]
fn many_claims(rt: HostRuntime) -> Result<(), Fail> {
    for &(how_many, finding, printed) in MANY {
        let mut text = String::new(rt.alloc());
        count(&mut text, how_many)?;
        assert_audit(&rt, rt.alloc(), text.as_bytes(), (finding, printed));
    }
    Ok(())
}
