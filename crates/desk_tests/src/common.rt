// What is lent, and how a call is answered.
ghost use Rattle.std.specs.Prelude.{◌≤◌};

use desk::call;
use std::process::Abort;
use wire::{Answer, Call, Refusal, TurnedAway};

// The largest word, and the most cents of one call.
pub(crate) const MOST: u64 = 18446744073709551615;

pub(crate) const MUCH: u64 = 1_000_000_000;

// What words of memory hold before a desk is opened.
pub(crate) const HELD: u64 = 11;

// How many words are lent: four more than a desk for eight creditors asks for.
pub(crate) const WORDS: usize = 92;

// Too little is lent with a call, or no desk is there.
pub(crate) const NOT_LENT: TurnedAway = TurnedAway {
    why: Refusal::NotLent,
    place: 1,
};

// The three rows of a ledger, each as long as there are claims: these as they came, the same in order, and the sums over
// those in order, each of all up to and with its place.
pub(crate) type Ledger<'a> = [&'a [u64]; 3];

// Puts words behind the first so many of others.
pub(crate) fn put(words: &mut [u64; WORDS], at: usize, row: &[u64]) {
    for (word, number) in words.iter_mut().skip(at).zip(row) {
        *word = *number;
    }
}

// Memory in which a desk was opened for at most eight: behind the numbers of its header, and behind each row of its ledger,
// its words are 0.
pub(crate) fn desk_of(limit: usize, there: u64, ledger: Ledger) -> [u64; WORDS]
    requires { limit ≤ 8 }
{
    let [came, in_order, sums] = ledger;
    let mut words = [HELD; WORDS];
    words[..64 + 3 * limit].fill(0);
    put(&mut words, 0, &[limit as u64, there, came.len() as u64]);
    put(&mut words, 64, came);
    put(&mut words, 64 + limit, in_order);
    put(&mut words, 64 + 2 * limit, sums);
    words
}

// What bytes lent for an answer hold before.
pub(crate) const LENT: u8 = 170;

// Nothing is written behind the first so many bytes.
pub(crate) fn assert_stays(rt: &impl Abort, out: &[u8], sent: usize) {
    for byte in out.iter().skip(sent) {
        assert!(rt; *byte == LENT);
    }
}

pub(crate) type Told<'a> = Answer<&'a [u64]>;

// Writes an answer, and gives how many bytes it has; or gives why a call is turned away.
fn written(told: &Told, out: &mut [u8]) -> Result<usize, TurnedAway> {
    match told {
        Answer::Refused(turned) => Err(*turned),
        _ => told.encode(out).or(Err(NOT_LENT)),
    }
}

// With room for so many bytes, the bytes of a call are answered so: at the start of these, and what lies behind stays. A
// call that is turned away writes nothing.
pub(crate) fn assert_row(rt: &impl Abort, mem: &mut [u64], row: &[u8], room: usize, told: &Told) {
    assert!(rt; room <= 8224);
    let mut out = [LENT; 8224];
    let mut want = [LENT; 8224];
    let len = written(told, &mut want);
    assert!(rt; call(mem, row, &mut out[..room]) == len, "{row:?}");
    assert!(rt; out == want, "{row:?}");
}

// The same of a call.
pub(crate) fn assert_call(rt: &impl Abort, mem: &mut [u64], call: Call, room: usize, told: &Told) {
    let mut row = [0u8; 17];
    let len = call.encode(&mut row).expect(rt, "no call is longer");
    assert_row(rt, mem, &row[..len], room, told);
}
