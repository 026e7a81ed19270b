// Shares handed in: their whole cents, and those that are refused.
use crate::whole::{assert_words, stretch};
use cents::{Cents, CentsError};
use std::process::Abort;

const MOST: u64 = 18446744073709551615;

// Parts of a cent, shares, and their whole cents. First each lacks something else, in all kinds of
// order; then there are equals among others, of whom the first have the cents; then nobody lacks
// anything, or nobody has anything; then no share is a whole cent; and then come the largest words.
const ROUNDED: &[(u64, &[u64], &[u64])] = &[
    (10, &[1, 2, 3, 4], &[0, 0, 0, 1]),
    (10, &[4, 3, 2, 1], &[1, 0, 0, 0]),
    (10, &[13, 21, 34, 2], &[1, 2, 4, 0]),
    (10, &[12, 39, 24, 5], &[1, 4, 2, 1]),
    (10, &[6, 7, 8, 9], &[0, 1, 1, 1]),
    (10, &[9, 8, 7, 6], &[1, 1, 1, 0]),
    (10, &[7, 9, 6, 8], &[1, 1, 0, 1]),
    (10, &[18, 6, 27, 9], &[2, 0, 3, 1]),
    (7, &[3, 5, 3, 3], &[1, 1, 0, 0]),
    (7, &[3, 5, 3, 5, 3, 2], &[1, 1, 0, 1, 0, 0]),
    (7, &[9, 3, 3, 9, 3, 15], &[1, 1, 1, 1, 0, 2]),
    (6, &[2, 4, 2, 4], &[0, 1, 0, 1]),
    (6, &[4, 2, 4, 2, 4, 2], &[1, 0, 1, 0, 1, 0]),
    (6, &[1, 3, 1, 3, 1, 3], &[0, 1, 0, 1, 0, 0]),
    (6, &[3, 4, 3, 3, 5], &[1, 1, 0, 0, 1]),
    (1, &[7, 0, 5], &[7, 0, 5]),
    (4, &[8, 4, 12], &[2, 1, 3]),
    (1, &[0], &[0]),
    (3, &[0, 0, 0], &[0, 0, 0]),
    (9, &[], &[]),
    (3, &[0, 2, 0, 1], &[0, 1, 0, 0]),
    (2, &[1, 0, 1, 0], &[1, 0, 0, 0]),
    (1000, &[400, 300, 300], &[1, 0, 0]),
    (1000, &[300, 350, 350], &[0, 1, 0]),
    (1, &[MOST], &[MOST]),
    (1, &[MOST, MOST], &[MOST, MOST]),
    (2, &[MOST, MOST], &[1 << 63, MOST >> 1]),
    (
        3,
        &[MOST, MOST],
        &[6148914691236517205, 6148914691236517205],
    ),
    (MOST, &[MOST >> 1, 1 << 63], &[0, 1]),
    (MOST, &[1 << 63, MOST >> 1], &[1, 0]),
    (MOST, &[1, MOST - 1], &[0, 1]),
    (MOST, &[MOST, 0, MOST], &[1, 0, 1]),
    (MOST, &[MOST - 1, 2, MOST - 1], &[1, 0, 1]),
    (1 << 63, &[1, MOST], &[0, 2]),
    (MOST - 1, &[MOST, MOST, MOST - 3], &[1, 1, 1]),
];

// Shares come to these cents.
fn assert_cents(rt: &impl Abort, parts: u64, shares: &[u64], words: &[u64]) {
    let cents = Cents::new(parts, shares).ok().expect(rt, "refused");
    assert_words(rt, cents, words);
}

#[test]
fn rounded_to_whole_cents(rt: HostRuntime) {
    for &(parts, shares, words) in ROUNDED {
        assert_cents(&rt, parts, shares, words);
    }
}

// How many creditors, the parts of a cent, what each has, what those from one place to another
// have, and these places: they have a cent each, and nobody else has one. Where all have the same,
// they are the first.
const ONE_EACH: &[(usize, u64, u64, u64, usize, usize)] = &[
    (65, 65, 64, 64, 0, 64),
    (65, 128, 2, 65, 63, 65),
    (65, 66, 1, 2, 63, 64),
    (65, 66, 1, 2, 64, 65),
    (1024, 2, 1, 1, 0, 512),
    (1024, 3, 1, 2, 512, 1024),
    (1024, 17, 1, 2, 64, 128),
    (1024, 17, 1, 2, 960, 1024),
    (1024, 1024, 1023, 1023, 0, 1023),
    (1024, 1025, 1, 2, 1023, 1024),
    (1024, 2000, 1023, 1999, 1, 1024),
    (
        1024,
        1 << 63,
        (1 << 63) - (1 << 53),
        (1 << 63) - (1 << 53),
        0,
        1023,
    ),
];

#[test]
fn who_lack_most_have_a_cent_each(rt: HostRuntime) {
    for &(count, parts, share, other, from, to) in ONE_EACH {
        assert!(rt; count <= 1024);
        let shares = stretch(share, other, from, to);
        let words = stretch(0, 1, from, to);
        assert_cents(&rt, parts, &shares[..count], &words[..count]);
    }
}

// Of 1,024 creditors with 0, 1, 2, 0, 1, 2 and so on: the parts of a cent, and how many cents that
// makes. The first of those with 2 have them.
const THIRDS: &[(u64, usize)] = &[(3, 341), (11, 93), (33, 31), (341, 3), (1023, 1)];

#[test]
fn the_first_of_every_third_have_a_cent_each(rt: HostRuntime) {
    for &(parts, cents) in THIRDS {
        let mut shares = [0; 1024];
        let mut words = [0; 1024];
        for i in 0..1024 {
            shares[i] = (i % 3) as u64;
            words[i] = u64::from(i % 3 == 2 && i / 3 < cents);
        }
        assert_cents(&rt, parts, &shares[..], &words);
    }
}

// With 1,023 parts of a cent, and 0, 1, 2 up to 1,023 of them, there are 512 cents: one is a whole
// share, and who lack most have the others. Down from 1,023 it is the same.
#[test]
fn each_of_many_lacks_something_else(rt: HostRuntime) {
    let mut up = [0; 1024];
    let mut down = [0; 1024];
    for i in 0..1024 {
        up[i] = i as u64;
        down[i] = 1023 - i as u64;
    }
    assert_cents(&rt, 1023, &up[..], &stretch(0, 1, 512, 1024));
    assert_cents(&rt, 1023, &down[..], &stretch(0, 1, 0, 512));
}

// Parts of a cent, shares, and why they are refused: no parts, and what does not add up to whole
// cents. The last three would add up if sums were cut to words.
const REFUSED: &[(u64, &[u64], CentsError)] = &[
    (0, &[], CentsError::NoParts),
    (0, &[0, 0], CentsError::NoParts),
    (0, &[1], CentsError::NoParts),
    (2, &[1], CentsError::NotWhole),
    (3, &[1, 1, 2], CentsError::NotWhole),
    (2, &[MOST], CentsError::NotWhole),
    (2, &[MOST, MOST, MOST], CentsError::NotWhole),
    (MOST, &[MOST - 1], CentsError::NotWhole),
    (MOST, &[MOST, 1], CentsError::NotWhole),
    (3, &[MOST, 1], CentsError::NotWhole),
    (MOST, &[MOST - 1, 2], CentsError::NotWhole),
];

#[test]
fn refused_where_no_whole_cents_come(rt: HostRuntime) {
    for &(parts, shares, why) in REFUSED {
        assert!(rt; Cents::new(parts, shares).err() == Some(why));
    }
}

// Parts of a cent, what each of 1,025 creditors has, and why it is refused: what applies first.
const TOO_MANY: &[(u64, u64, CentsError)] = &[
    (0, 0, CentsError::NoParts),
    (0, 1, CentsError::NoParts),
    (1, 0, CentsError::TooMany),
    (1, 1, CentsError::TooMany),
    (2, 1, CentsError::TooMany),
];

#[test]
fn more_than_1024_shares_are_refused(rt: HostRuntime) {
    for &(parts, share, why) in TOO_MANY {
        let shares: &[u64] = &[share; 1025];
        assert!(rt; Cents::new(parts, shares).err() == Some(why));
    }
}
