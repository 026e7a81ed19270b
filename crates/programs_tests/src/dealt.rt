// Claims and shares at random: what an audit finds of them, and what is found of each two creditors.
use crate::common::{Numbers, say};
use auditing::Finding::{self, Right, Wrong};
use auditing::audit;
use shares::Fault::{Alone, Pair};
use std::alloc::{AllocError, Global};
use std::process::Abort;
use std::test::Fail;

// What a creditor claims in parts of a cent, and its share in these.
type Part = (u64, u64);

// Up to what the lower claims, two have the same. Up to what the higher claims, the lower has half of its claim. Up to what
// they claim together, they lose the same.
fn agree(one: Part, another: Part) -> bool {
    let (lower, higher) = if one.0 <= another.0 {
        (one, another)
    } else {
        (another, one)
    };
    let both = lower.1.wrapping_add(higher.1);
    if both <= lower.0 {
        lower.1 == higher.1
    } else if both <= higher.0 {
        lower.1.wrapping_mul(2) == lower.0
    } else {
        both - higher.0 <= lower.0
            && lower.0.wrapping_sub(lower.1) == higher.0.wrapping_sub(higher.1)
    }
}

fn wanted(parts: &[Part]) -> Finding {
    for (i, one) in parts.iter().enumerate() {
        for (j, another) in parts.iter().enumerate() {
            if i < j && !agree(*one, *another) {
                return Wrong(Pair(i, j));
            }
        }
    }
    match parts {
        [(claim, share)] if share > claim => Wrong(Alone),
        _ => Right,
    }
}

// Up to seven creditors: each gets half of its claim up to a level, or loses as much. Half a cent has so many parts.
fn deal(parts: &mut Vec<Part>, random: &mut Numbers, half: u64) -> Result<(), AllocError> {
    let level = random.any_size() >> 12;
    let gains = random.below(2) == 0;
    for _ in 0..random.below(8) {
        let claimed = half.wrapping_mul(random.any_size() >> 14);
        let all = claimed.wrapping_mul(2);
        let filled = claimed.min(level);
        let share = if gains {
            filled
        } else {
            all.wrapping_sub(filled)
        };
        parts.push((all, share))?;
    }
    Ok(())
}

// These creditors with their shares, in so many parts of a cent.
fn write_parts(text: &mut String, d: u64, parts: &[Part]) -> Result<(), AllocError> {
    for (claimed, _) in parts {
        say(text, claimed.checked_div(d).unwrap_or(0), " ")?;
    }
    text.push_str("\nd ")?;
    say(text, d, ":")?;
    for (_, share) in parts {
        say(text, *share, " ")?;
    }
    Ok(())
}

// One share at random is one part more or less.
fn spoil(random: &mut Numbers, parts: &mut [Part], spoils: bool) {
    let place = random.below(parts.len() as u64) as usize;
    if let Some(part) = parts.get_mut(place)
        && spoils
    {
        part.1 ^= 1;
    }
}

// The same is found as two by two, and where nothing is spoiled all is right.
fn find(rt: &impl Abort, heap: Global, d: u64, parts: &[Part], spoils: bool) -> Finding {
    let mut text = String::new(heap);
    write_parts(&mut text, d, parts)
        .ok()
        .expect(rt, "no memory");
    let found = audit(heap, text.as_bytes()).ok().expect(rt, "no memory");
    assert!(rt; found == wanted(parts), "{text}");
    assert!(rt; spoils || found == Right, "{text}");
    found
}

// Every other time a share is one part more or less.
#[test]
fn the_same_two_by_two(rt: HostRuntime) -> Result<(), Fail> {
    let heap = rt.alloc();
    let mut random = Numbers(2);
    let mut wrong = 0usize;
    for i in 0..400 {
        let half = random.below(5).wrapping_add(1);
        let mut parts = Vec::new(heap);
        deal(&mut parts, &mut random, half)?;
        spoil(&mut random, &mut parts, i % 2 == 1);
        let found = find(&rt, heap, half.wrapping_mul(2), &parts, i % 2 == 1);
        wrong = wrong.wrapping_add(usize::from(found != Right));
    }
    assert!(rt; wrong > 100);
    Ok(())
}
