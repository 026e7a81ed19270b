// A row of claims in ascending order, in some part of lent memory: `count` words from `start` on. Places are those of words
// in the memory. What lies outside the part is left as it is.
ghost use Rattle.std.specs.Prelude.{◌≡◌, ◌+◌, ◌<◌, ◌≤◌, ◌↔◌, length, IsSome, IfSome};
ghost use Rattle.register.specs.Row.{Fits, Found, Goes, Carried, InsertedInto, RemovedFrom, ReplacedIn};

// A claim at `from` went out and one at `to` came in: what lay between has moved by one place.
#[derive(Clone, Copy, Debug, PartialEq, Eq)]
pub struct Moved {
    pub from: usize,
    pub to: usize,
}

// A part of lent memory, from `start` on and before `end`. It is no slice of its own, since places are those of the memory.
#[derive(Clone, Copy, Debug, PartialEq, Eq)]
struct Part<'a> {
    words: &'a [u64],
    start: usize,
    end: usize,
    ghost forward: { start ≤ end },
    ghost within: { end ≤ length words.now },
}

impl<'a> Part<'a> {
    // A place where a claim fits, found by halving.
    fn place(&self, claim: u64) -> usize
        ensures { Fits self.now.start self.now.end claim self.now.words.now result }
    {
        // A loop, since the library's `partition_point` says of words out of order no more than that it is in the part.
        let mut low = self.start;
        let mut left = self.end - self.start;
        while left > 0 {
            let half = left / 2;
            let more = usize::from(self.words[low + half] < claim);
            low += more * (half + 1);
            left = (left - more) / 2;
        }
        low
    }

    // The place of a claim that is there.
    fn find(&self, claim: u64) -> Option<usize>
        ensures { Found self.now.start self.now.end claim self.now.words.now result }
    {
        let at = self.place(claim);
        (at < self.end && self.words[at] == claim).then_some(at)
    }

    // Where a claim goes that comes for the one at `from`. It is looked for only on the side where it lies.
    fn new_place(&self, from: usize, claim: u64) -> usize
        requires above { self.now.start ≤ from }
        requires below { from < self.now.end }
        ensures { Goes self.now.start self.now.end from claim self.now.words.now result }
    {
        let mut side = *self;
        if self.words[from] < claim {
            side.start = from + 1;
            side.place(claim) - 1
        } else {
            side.end = from;
            side.place(claim)
        }
    }
}

// Takes out what stands at one place and puts a claim in at another. Only what lies between is moved.
fn carry(words: &mut [u64], from: usize, to: usize, claim: u64)
    requires from { from < length words.old }
    requires to { to < length words.old }
    ensures { Carried from to claim words.old words.new }
{
    if from < to {
        words.copy_within(from + 1..to + 1, from);
    } else {
        words.copy_within(to..from, to + 1);
    }
    words[to] = claim;
}

// The memory that is lent, and where in it the row is. Of a row for which the memory is too short nothing is done. It is no
// vector, since the memory has a fixed size and other things in it; it has no `==`, since its words are lent to be written.
#[derive(Debug, Drop)]
pub struct Row<'a> {
    pub words: &'a mut [u64],
    pub start: usize,
    pub count: usize,
}

impl<'a> Row<'a> {
    // The `count` words from `start` on.
    pub fn new(words: &'a mut [u64], start: usize, count: usize) -> Self
        ensures { result ≡ record { words = words.entry; start = start; count = count } }
    {
        Row {
            words,
            start,
            count,
        }
    }

    // What is read of it, if there are so many words.
    fn part(&self) -> Option<Part<'_>>
        ensures there { IsSome result
            ↔ (self.now.start + self.now.count ≤ length self.now.words.now) }
        ensures words { IfSome result (λ part. part.words.now ≡ self.now.words.now) }
        ensures start { IfSome result (λ part. part.start ≡ self.now.start) }
        ensures end { IfSome result (λ part. part.end ≡ self.now.start + self.now.count) }
    {
        let start = self.start;
        let end = start
            .checked_add(self.count)
            .filter(|&end| end <= self.words.len())?;
        Some(Part {
            words: self.words,
            start,
            end,
        })
    }

    // Puts in one more claim, and answers where. The word behind the row becomes its last; where there is none, nothing is
    // done.
    #[inline]
    pub fn insert(&mut self, claim: u64) -> Option<usize>
        ensures { InsertedInto claim self.old self.new result }
    {
        let part = self.part()?;
        if part.end == self.words.len() {
            return None;
        }
        let at = part.place(claim);
        carry(self.words, self.start + self.count, at, claim);
        self.count += 1;
        Some(at)
    }

    // Takes out one claim that is as much, and answers where it was. The row's last word becomes 0. Where no such claim is
    // found, nothing is done.
    pub fn remove(&mut self, claim: u64) -> Option<usize>
        ensures { RemovedFrom claim self.old self.new result }
    {
        let at = self.part()?.find(claim)?;
        carry(self.words, at, self.start + self.count - 1, 0);
        self.count -= 1;
        Some(at)
    }

    // Takes out one claim that is as much as `old` and puts in `new`, and answers from where to where. Where no such claim is
    // found, nothing is done.
    pub fn replace(&mut self, old: u64, new: u64) -> Option<Moved>
        ensures { ReplacedIn old new self.old self.new result }
    {
        let part = self.part()?;
        let from = part.find(old)?;
        let to = part.new_place(from, new);
        carry(self.words, from, to, new);
        Some(Moved { from, to })
    }
}
