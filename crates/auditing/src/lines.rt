// A text, line by line.
ghost use Rattle.std.specs.Prelude.{◌≡◌, ◌≤◌, IfSome, length};
ghost use Rattle.auditing.specs.Texts.{blank_lines, feed_at, first_line, rest_of};

use text::is_blank;

// The first line of a text, without the feed that ends it, and what is behind that.
pub(crate) fn first_line(text: &[u8]) -> (&[u8], &[u8])
    ensures first { result.0.now ≡ first_line text.now }
    ensures rest { result.1.now ≡ rest_of text.now }
{
    let end = feed_at(text);
    (&text[..end], text.get(end + 1..).unwrap_or(&[]))
}

// The place of the first feed, or that behind the last byte.
#[tactic(auto, using(crate::proofs::Feeds::feeds))]
fn feed_at(text: &[u8]) -> usize
    ensures place { result ≡ feed_at text.now }
    ensures within { result ≤ length text.now }
{
    for (at, byte) in text.iter().enumerate() {
        if *byte == b'\n' {
            return at;
        }
    }
    text.len()
}

// How many lines are before the first that is not blank; none if all are.
#[tactic(auto, using(crate::proofs::Feeds::blanks))]
pub(crate) fn blank_lines(text: &[u8]) -> Option<usize>
    ensures lines { result ≡ blank_lines 0 text.now }
    ensures few { IfSome result (λ n. n ≤ length text.now) }
{
    let mut lines = 0;
    for byte in text {
        if is_blank(*byte) {
            continue;
        }
        if *byte != b'\n' {
            return Some(lines);
        }
        lines += 1;
    }
    None
}
