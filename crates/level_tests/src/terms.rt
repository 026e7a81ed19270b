// Estates, and the terms on which they are divided.
use level::{Fraction, Side, terms_of};
use std::test::Fail;

const MOST: u64 = 18446744073709551615;

// What is there and the claims; what is levelled, what is spread among how many, and the parts of a cent: claims of 100, 200
// and 300 with 100, 200 and 300 there, one cent below and above one half, and with 200 and 100 lost; equal claims below, at
// and above one half; claims of zero; one creditor; all covered, exactly and with more; nothing there; no creditors; claims
// that no word holds together.
const TERMS: &[(u64, &[u64], Side, u64, u64, u64)] = &[
    (100, &[100, 200, 300], Side::Gains, 200, 3, 6),
    (200, &[100, 200, 300], Side::Gains, 300, 2, 4),
    (300, &[100, 200, 300], Side::Gains, 300, 1, 2),
    (299, &[100, 200, 300], Side::Gains, 298, 1, 2),
    (301, &[100, 200, 300], Side::Losses, 298, 1, 2),
    (400, &[100, 200, 300], Side::Losses, 300, 2, 4),
    (500, &[100, 200, 300], Side::Losses, 200, 3, 6),
    (5, &[10, 10, 10], Side::Gains, 10, 3, 6),
    (1, &[1, 1], Side::Gains, 2, 2, 4),
    (7, &[3, 3, 3, 3], Side::Losses, 10, 4, 8),
    (4, &[2, 4], Side::Losses, 4, 2, 4),
    (5, &[0, 0, 7], Side::Losses, 4, 1, 2),
    (3, &[0, 0], Side::Gains, 0, 2, 4),
    (4, &[9], Side::Gains, 8, 1, 2),
    (5, &[9], Side::Losses, 8, 1, 2),
    (11, &[5, 6], Side::Losses, 0, 2, 4),
    (20, &[5, 6], Side::Losses, 0, 2, 4),
    (0, &[1, 2], Side::Gains, 0, 2, 4),
    (10, &[], Side::Gains, 0, 0, 1),
    (0, &[], Side::Gains, 0, 0, 1),
    (7, &[MOST, MOST], Side::Gains, 14, 2, 4),
    (7, &[2, MOST, MOST], Side::Gains, 12, 2, 4),
];

#[test]
fn terms_found(rt: HostRuntime) -> Result<(), Fail> {
    for &(there, claims, side, numerator, denominator, parts) in TERMS {
        let terms = terms_of(there, claims).ok_or("none")?;
        let level = Fraction {
            numerator,
            denominator,
        };
        assert!(rt; terms.side == side);
        assert!(rt; terms.level == level);
        assert!(rt; terms.parts() == parts);
    }
    Ok(())
}

// As many creditors as may be, each with as large a claim as may be: of what they lose, 24,000,000,000 cents, each loses
// the same. One cent more is more than may be there.
#[test]
fn at_the_limits(rt: HostRuntime) -> Result<(), Fail> {
    let claims = [1_000_000_000; 1024];
    let terms = terms_of(1_000_000_000_000, &claims).ok_or("none")?;
    let level = Fraction {
        numerator: 48_000_000_000,
        denominator: 1024,
    };
    assert!(rt; terms.side == Side::Losses);
    assert!(rt; terms.level == level);
    assert!(rt; terms.parts() == 2048);
    assert!(rt; terms_of(1_000_000_000_001, &claims).is_none());
    Ok(())
}
