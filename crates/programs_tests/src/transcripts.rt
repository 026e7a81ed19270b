// Files of calls, and what answers them, line by line.
use crate::common::{MOST, say};
use std::alloc::{AllocError, Global};
use std::process::Abort;
use std::test::Fail;
use transcript::transcript;
use wire::Call::{self, Cents, Claim, Come, Prove, Shares};

const MUCH: u64 = 1_000_000_000;

// Puts a call behind those of a file.
fn put(file: &mut Vec<u8>, call: Call) -> Result<(), Fail> {
    let mut row = [0u8; 17];
    let len = call.encode(&mut row)?;
    file.extend_from_slice(&row[..len])?;
    Ok(())
}

// A file is answered so.
fn assert_text(rt: &impl Abort, heap: Global, file: &[u8], want: &[u8]) {
    let text = transcript(heap, file).ok().expect(rt, "no memory");
    assert!(rt; text.as_bytes() == want, "{text}");
}

// Calls, and bytes behind them, are answered so.
fn assert_answered(
    rt: &impl Abort,
    heap: Global,
    calls: &[Call],
    behind: &[u8],
    want: &[u8],
) -> Result<(), Fail> {
    let mut file = Vec::new(heap);
    for call in calls {
        put(&mut file, *call)?;
    }
    file.extend_from_slice(behind)?;
    assert_text(rt, heap, &file, want);
    Ok(())
}

// Calls, the bytes behind them, and the text.
type Answered = (&'static [Call], &'static [u8], &'static [u8]);

// Of 100, 200 and 300 cents; of 4 for the two that hold a coat; of 5, 1 and 7 among equals; of more than is claimed.
const WORKED: &[Answered] = &[
    (
        &[Claim(100), Claim(200), Claim(300), Come(100), Shares, Cents],
        b"",
        b"0\n1\n2\n100\nd 6: 200 200 200\n34 33 33\n",
    ),
    (
        &[Claim(100), Claim(200), Claim(300), Come(200), Shares, Cents],
        b"",
        b"0\n1\n2\n200\nd 4: 200 300 300\n50 75 75\n",
    ),
    (
        &[Claim(100), Claim(200), Claim(300), Come(300), Shares, Cents],
        b"",
        b"0\n1\n2\n300\nd 2: 100 200 300\n50 100 150\n",
    ),
    (
        &[Claim(4), Claim(2), Come(4), Shares, Cents],
        b"",
        b"0\n1\n4\nd 4: 12 4\n3 1\n",
    ),
    (
        &[Claim(10), Claim(10), Claim(10), Come(5), Shares, Cents],
        b"",
        b"0\n1\n2\n5\nd 6: 10 10 10\n2 2 1\n",
    ),
    (
        &[Claim(1), Claim(1), Come(1), Shares, Cents],
        b"",
        b"0\n1\n1\nd 4: 2 2\n1 0\n",
    ),
    (
        &[
            Come(7),
            Claim(3),
            Claim(3),
            Claim(3),
            Claim(3),
            Shares,
            Cents,
        ],
        b"",
        b"7\n0\n1\n2\n3\nd 8: 14 14 14 14\n2 2 2 1\n",
    ),
    (
        &[Come(9), Claim(5), Come(11), Claim(6), Cents, Shares],
        b"",
        b"9\n0\n20\n1\n5 6\nd 4: 20 24\n",
    ),
];

// No calls; nobody, with nothing there and with much; a claim that is changed, to zero too; a claim of zero; as much as may be
// at once. Then refusals, behind which the shares and the cents are as if these calls were not there.
// An unknown byte, first and behind calls, with bytes behind it that would be calls. Too much that is claimed, comes, or is
// proved, also of no claim. A claim that is not there: of none, the next, the last of 32 bits, and of 64 bits the last and
// those that are cut to 0 in 32.
const FILES: &[Answered] = &[
    (&[], b"", b""),
    (
        &[Shares, Cents, Come(MUCH), Shares, Cents],
        b"",
        b"d 1:\n\n1000000000\nd 1:\n\n",
    ),
    (
        &[
            Claim(9),
            Come(7),
            Shares,
            Prove(0, 5),
            Shares,
            Prove(0, 0),
            Shares,
            Cents,
        ],
        b"",
        b"0\n7\nd 2: 14\n0\nd 2: 10\n0\nd 2: 0\n0\n",
    ),
    (
        &[Claim(0), Claim(7), Come(5), Shares, Cents],
        b"",
        b"0\n1\n5\nd 2: 0 10\n0 5\n",
    ),
    (
        &[Claim(MUCH), Prove(0, MUCH), Come(MUCH), Shares, Cents],
        b"",
        b"0\n0\n1000000000\nd 2: 2000000000\n1000000000\n",
    ),
    (&[], b"\x05\x03\x03\x04", b"refused 1 at 0\n"),
    (
        &[Claim(1), Shares],
        b"\xff\x03",
        b"0\nd 2: 0\nrefused 1 at 0\n",
    ),
    (&[Cents], b"0123456789", b"\nrefused 1 at 0\n"),
    (
        &[
            Claim(4),
            Claim(2),
            Claim(MUCH + 1),
            Come(4),
            Come(MUCH + 1),
            Shares,
            Claim(MOST),
            Come(MOST),
            Cents,
        ],
        b"",
        b"0\n1\nrefused 2 at 0\n4\nrefused 2 at 0\nd 4: 12 4\nrefused 2 at 0\nrefused 2 at 0\n3 1\n",
    ),
    (
        &[
            Claim(4),
            Claim(2),
            Come(4),
            Prove(1, MUCH + 1),
            Shares,
            Prove(0, MOST),
            Prove(2, MUCH + 1),
            Cents,
        ],
        b"",
        b"0\n1\n4\nrefused 2 at 1\nd 4: 12 4\nrefused 2 at 1\nrefused 2 at 1\n3 1\n",
    ),
    (
        &[
            Prove(0, 1),
            Claim(4),
            Prove(1, 1),
            Claim(2),
            Come(4),
            Prove(2, 1),
            Shares,
            Prove(4294967295, 1),
            Cents,
        ],
        b"",
        b"refused 4 at 0\n0\nrefused 4 at 0\n1\n4\nrefused 4 at 0\nd 4: 12 4\nrefused 4 at 0\n3 1\n",
    ),
    (
        &[Claim(4), Claim(2), Come(4)],
        b"\x01\0\0\0\0\x01\0\0\0\x05\0\0\0\0\0\0\0\x03\x01\0\0\0\0\0\0\0\x80\x05\0\0\0\0\0\0\0\x04",
        b"0\n1\n4\nrefused 4 at 0\nd 4: 12 4\nrefused 4 at 0\n3 1\n",
    ),
    (
        &[Claim(4), Claim(2), Come(4)],
        b"\x01\xff\xff\xff\xff\xff\xff\xff\xff\x05\0\0\0\0\0\0\0\x04",
        b"0\n1\n4\nrefused 4 at 0\n3 1\n",
    ),
];

#[test]
fn files(rt: HostRuntime) -> Result<(), Fail> {
    for table in [WORKED, FILES] {
        for &(calls, behind, text) in table {
            assert_answered(&rt, rt.alloc(), calls, behind, text)?;
        }
    }
    Ok(())
}

// Calls that have numbers, as bytes that are not 0.
const LONG: &[&[u8]] = &[
    b"\x00\x01\x01\x01\x01\x01\x01\x01\x01",
    b"\x01\x01\x01\x01\x01\x01\x01\x01\x01\x02\x02\x02\x02\x02\x02\x02\x02",
    b"\x02\x03\x03\x03\x03\x03\x03\x03\x03",
];

// Cut short at a length, one is refused behind its last byte.
fn assert_cut(rt: &impl Abort, heap: Global, call: &[u8], len: usize) -> Result<(), Fail> {
    let mut want = String::new(heap);
    say(&mut want, 7, "\nrefused 1 at ")?;
    say(&mut want, len as u64, "\n")?;
    assert!(rt; len <= call.len());
    assert_answered(rt, heap, &[Come(7)], &call[..len], want.as_bytes())
}

// Each is cut short at each length.
#[test]
fn cut_short(rt: HostRuntime) -> Result<(), Fail> {
    for call in LONG {
        for len in 1..call.len() {
            assert_cut(&rt, rt.alloc(), call, len)?;
        }
    }
    Ok(())
}

// As many claims as there may be, and one more; as many cents as may be there, as many more as may come at once, and one.
fn fill_file(file: &mut Vec<u8>) -> Result<(), Fail> {
    for _ in 0..65 {
        put(file, Claim(5))?;
    }
    for _ in 0..1001 {
        put(file, Come(MUCH))?;
    }
    for call in [Come(1), Claim(0), Cents, Come(0)] {
        put(file, call)?;
    }
    Ok(())
}

// What is turned away changes nothing: each claim is paid.
fn fill_text(text: &mut String) -> Result<(), AllocError> {
    for i in 0..64 {
        say(text, i, "\n")?;
    }
    text.push_str("refused 5 at 0\n")?;
    for i in 1..=1000 {
        say(text, i * MUCH, "\n")?;
    }
    text.push_str("refused 5 at 0\nrefused 5 at 0\nrefused 5 at 0\n5")?;
    for _ in 0..63 {
        text.push_str(" 5")?;
    }
    text.push_str("\n1000000000000\n")
}

#[test]
fn no_room(rt: HostRuntime) -> Result<(), Fail> {
    let heap = rt.alloc();
    let mut file = Vec::new(heap);
    fill_file(&mut file)?;
    let mut text = String::new(heap);
    fill_text(&mut text)?;
    assert_text(&rt, heap, &file, text.as_bytes());
    Ok(())
}

// How many times something comes, a claim is changed, and shares are asked for; and how much comes.
const TIMES: u64 = 6645;

const COMES: u64 = 9001;

// What the claim at a place is in the end.
fn claimed(place: u64) -> u64 {
    place.wrapping_add(1_000_000)
}

// 20,000 calls with 64 claims. In the end each claim is a million and its place: 64,002,016 in all.
fn lengthen(file: &mut Vec<u8>) -> Result<(), Fail> {
    for i in 0..64 {
        put(file, Claim(i))?;
    }
    for i in 0..TIMES {
        put(file, Come(COMES))?;
        let place = i % 64;
        let cents = if i < TIMES - 64 {
            i * i
        } else {
            claimed(place)
        };
        put(file, Prove(place as u32, cents))?;
        put(file, Shares)?;
    }
    put(file, Cents)
}

// The claims come to 4,190,371 cents more than is there. All lose a 64th of that, 65,474 cents and 35 64ths. So each share
// rounded down is the claim less 65,475, and 29 cents are left, for the first: all lack as much.
fn end_text(text: &mut String) -> Result<(), AllocError> {
    text.push_str("\nd 128: ")?;
    for i in 0..64 {
        let in_parts = claimed(i).wrapping_mul(128);
        let end = if i < 63 { " " } else { "\n" };
        say(text, in_parts.wrapping_sub(2 * 4_190_371), end)?;
    }
    for i in 0..64 {
        let amount = claimed(i).wrapping_sub(65_475);
        let end = if i < 63 { " " } else { "\n" };
        say(text, amount.wrapping_add(u64::from(i < 29)), end)?;
    }
    Ok(())
}

// A text has so many lines, and ends so.
fn assert_ends(rt: &impl Abort, text: &str, lines: usize, end: &str) {
    assert_eq!(rt; text.lines().count(), lines);
    assert!(rt; text.as_bytes().ends_with(end.as_bytes()), "{end}");
}

#[test]
fn many_calls(rt: HostRuntime) -> Result<(), Fail> {
    let heap = rt.alloc();
    let mut file = Vec::new(heap);
    lengthen(&mut file)?;
    let mut end = String::new(heap);
    end_text(&mut end)?;
    let text = transcript(heap, &file)?;
    assert_ends(&rt, &text, 20_000, &end);
    Ok(())
}
