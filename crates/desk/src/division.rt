// How what is there is divided among the claims of a desk.
ghost use Rattle.estate.specs.Calls.{cents};
ghost use Rattle.desk.specs.Calling.{Called};
ghost use Rattle.desk.specs.Steps.{Parted, Reads, Summed, Termed};
ghost use Rattle.desk.specs.Memory.{Lent};

use crate::calls::send;
use crate::header::{HEADER, Header};
use crate::opening::refused;
use cents::Cents;
use level::Terms;
use shares::Shares;
use sums::{Tree, tree_of};
use wire::{Refusal, TurnedAway};

impl Header {
    // The claims as they came, on the terms of the division.
    #[tactic(auto, unfolding(crate::specs::Steps::Parted))]
    pub(crate) fn division(self, mem: &[u64]) -> Shares<'_>
        requires { Reads self mem.now }
        ensures { Parted mem.now result }
    {
        Shares {
            terms: self.terms(mem),
            claims: &mem[HEADER..HEADER + self.count],
        }
    }

    // The terms, found by the sums over the claims in order.
    #[tactic(auto, using(crate::proofs::Dividing::terms_known))]
    fn terms(self, mem: &[u64]) -> Terms
        requires { Reads self mem.now }
        ensures { Termed mem.now result }
    {
        self.tree(mem).terms(self.there).unwrap()
    }

    // The claims in order, and the sums over them.
    #[tactic(auto, using(crate::proofs::Dividing::tree_known))]
    fn tree(self, mem: &[u64]) -> Tree<'_>
        requires { Reads self mem.now }
        ensures { Summed mem.now result }
    {
        tree_of(&mem[HEADER..self.end], self.count).unwrap()
    }

    // Writes the whole cents of all.
    #[tactic(auto, using(crate::proofs::Answering::cents_answers))]
    pub(crate) fn cents(self, mem: &[u64], out: &mut [u8]) -> Result<usize, TurnedAway>
        requires reads { Reads self mem.now }
        requires lent { Lent mem.now out.old }
        ensures { Called cents mem.now mem.now out.old out.new result }
    {
        let Ok(cents) = Cents::of(self.division(mem)) else {
            return Err(refused(Refusal::NotLent, 1));
        };
        send(&cents.answer(), out)
    }
}
