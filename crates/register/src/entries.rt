// Claims and changes entered one after the other.
ghost use Rattle.register.specs.Entries.{claims_of, Done, Keeps};
ghost use Rattle.register.specs.Laws.{Inserts, Removes, Replaces, OnePlace, NotIn, StaysRising, Ascending, OnlyAscending, Adds, Changes, NeverOutOfOrder};
ghost use Rattle.register.specs.Rows.{middle};

use crate::rows::Register;

// What is entered.
#[derive(Clone, Copy, Debug, PartialEq, Eq)]
pub enum Entry {
    // a claim, last
    Add(u64),
    // the claim at this place is so much from now on
    Change(usize, u64),
}

impl Register<'_> {
    // Enters one.
    fn enter(&mut self, entry: Entry)
        ensures { Done entry self.old self.new }
    {
        match entry {
            Entry::Add(claim) => {
                let _ = self.add(claim);
            }
            Entry::Change(i, claim) => {
                let _ = self.change(i, claim);
            }
        }
    }
}

// Makes a register of words that may hold anything: enters all, and answers how many claims there are. A claim for which
// there is no room, and a change of one that is not there, is left out. Besides what it leaves, its contract names what the
// contracts of the other functions come to.
pub fn enter_all(rows: &mut [u64], entries: &[Entry]) -> usize
    ensures keeps { Keeps rows.old (claims_of (middle rows.old) entries.now) rows.new result }
    ensures inserts { Inserts }
    ensures removes { Removes }
    ensures replaces { Replaces }
    ensures one_place { OnePlace }
    ensures not_in { NotIn }
    ensures stays_rising { StaysRising }
    ensures ascending { Ascending }
    ensures only_ascending { OnlyAscending }
    ensures adds { Adds }
    ensures changes { Changes }
    ensures never_out_of_order { NeverOutOfOrder }
{
    let mut register = Register::new(rows, 0);
    // A loop: a `fold` would take the register and hand it back for each entry, which is no plainer, and with `for_each` the
    // check does not find what its closure leaves in `register`.
    for &entry in entries {
        register.enter(entry);
    }
    register.count
}
