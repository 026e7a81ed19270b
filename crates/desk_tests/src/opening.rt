// How much a desk asks for, and what opening one leaves.
use crate::common::{HELD, WORDS, desk_of};
use desk::{Loan, asked, open};
use wire::{Place, Refusal, TurnedAway};

// How many creditors, and the words and the bytes for so many.
const ASKED: &[(usize, usize, usize)] = &[
    (0, 64, 24),
    (1, 67, 32),
    (64, 256, 536),
    (1024, 3136, 8216),
];

#[test]
fn loans(rt: HostRuntime) {
    for &(limit, words, bytes) in ASKED {
        assert!(rt; asked(limit) == Ok(Loan { words, bytes }), "{limit}");
    }
    let why = Refusal::NotLent;
    assert!(rt; asked(1025) == Err(TurnedAway { why, place: 0 }));
}

// How many creditors, how many words are lent, and at which place that is refused: a creditor too many, so many that three
// times as many are cut to 2 in a word, a word too few.
const UNOPENED: &[(usize, usize, Place)] = &[
    (1025, WORDS, 0),
    (6148914691236517206, WORDS, 0),
    (0, 63, 1),
    (3, 72, 1),
];

#[test]
fn not_opened_and_nothing_is_written(rt: HostRuntime) {
    for &(limit, words, place) in UNOPENED {
        assert!(rt; words <= WORDS);
        let mut mem = [HELD; WORDS];
        let why = Refusal::NotLent;
        let opened = open(&mut mem[..words], limit);
        assert!(rt; opened == Err(TurnedAway { why, place }), "{limit} {words}");
        assert!(rt; mem == [HELD; WORDS]);
    }
}

// What lies behind stays.
#[test]
fn opened_whatever_memory_held(rt: HostRuntime) {
    let mut mem = [HELD; WORDS];
    assert!(rt; open(&mut mem, 3).is_ok());
    assert!(rt; mem == desk_of(3, 0, [&[]; 3]));
}
