ghost use Rattle.std.specs.Prelude.{◌≡◌, ℕ, ◌<◌, ◌≤◌, ◌↔◌, false, IsTrue, length};
ghost use Rattle.rounds.specs.Marks.{mark, opened, Due, Closed, unmarked};
ghost use Rattle.rounds.specs.Rank.{OnlyExits, ExactlyExits};
ghost use Rattle.rounds.specs.Rounds.{Sound};

use crate::automaton::Automaton;
use crate::passing::Passing;
use crate::round::MAX_STATES;

// An automaton and lent marks of states that exit, while they are looked for. It knows of the automaton much of what
// `Edges` knows; a struct between the two would be no plainer, since each asks its own list beside it. The marks are a
// slice: the check takes no element of an array behind a `&mut` that is read through `&self`.
#[derive(Drop)]
struct Marking<'a, T: Automaton> {
    automaton: &'a T,
    marks: &'a mut [bool],
    ghost sound: { Sound (T.graph automaton.now) },
    ghost room: { (T.graph automaton.now).states ≤ length marks.now },
    ghost right: { OnlyExits (T.graph automaton.now) marks.now },
}

impl<T: Automaton> Marking<'_, T> {
    // Does the transition lead to marked states alone?
    fn opens(&self, t: usize) -> bool
        requires { t < (T.graph self.now.automaton.now).transitions }
        ensures { result ≡ opened (T.graph self.now.automaton.now) self.now.marks.now t }
    {
        match self.automaton.passing(t) {
            Passing::Silent => self.marks[usize::from(self.automaton.target(t))],
            Passing::Call => {
                self.marks[usize::from(self.automaton.target(t))]
                    && self.marks[usize::from(self.automaton.return_state(t))]
            }
            Passing::Reads => false,
        }
    }

    // Is `s` due to be marked: is it a stop, or does a transition lead to marked states alone?
    fn is_due(&self, s: usize) -> bool
        requires { s < (T.graph self.now.automaton.now).states }
        ensures { IsTrue result ↔ Due (T.graph self.now.automaton.now) self.now.marks.now s }
    {
        if self.automaton.stops(s) {
            return true;
        }
        let first = self.automaton.first(s);
        let end = self.automaton.end(s);
        // A chain with `any` was tried: the search for its proof gave up at one of its limits.
        for t in first..end {
            if self.opens(t) {
                return true;
            }
        }
        false
    }

    // Marks the states that are due, from the last to the first. Was there one?
    fn mark_more(&mut self) -> bool
        ensures same { self.new.automaton.now ≡ self.old.automaton.now }
        ensures lender { self.new.marks.ghost_name ≡ self.old.marks.ghost_name }
        ensures less { IsTrue result → unmarked self.new.marks.now < unmarked self.old.marks.now }
        ensures all { result ≡ false → Closed (T.graph self.new.automaton.now) self.new.marks.now }
    {
        let mut changed = false;
        // A loop: what a turn marks, the turns after it read.
        for s in (0..self.automaton.states()).rev() {
            if !self.marks[s] && self.is_due(s) {
                self.marks[s] = true;
                changed = true;
            }
        }
        changed
    }
}

// Marks exactly the states that exit, where none is marked yet.
#[tactic(auto, using(crate::proofs::Ranks::closed_exact))]
pub fn mark_exits<T: Automaton>(automaton: &T, marks: &mut [bool; MAX_STATES])
    requires sound { Sound (T.graph automaton.now) }
    requires few { (T.graph automaton.now).states ≤ 4096 }
    requires blank { (s : ℕ) → mark marks.old s ≡ false }
    ensures { ExactlyExits (T.graph automaton.now) marks.new }
{
    let mut marking = Marking { automaton, marks };
    while marking.mark_more() {}
}
