ghost use Rattle.std.specs.Prelude.{◌≡◌, ◌<◌, ◌≤◌, ◌↔◌, IsTrue};
ghost use Rattle.rounds.specs.Growth.{Grown};
ghost use Rattle.rounds.specs.Rank.{ExactlyExits};
ghost use Rattle.rounds.specs.Rounds.{Sound, Leads, Edge, Cycle};
ghost use Rattle.rounds.specs.Search.{Fresh, NoneBelow};

use crate::automaton::Automaton;
use crate::passing::Passing;
use crate::round::MAX_STATES;
use crate::search::Search;

/// The edges of an automaton: marks say which of its states exit. The search is lent to each method, as
/// it changes and the edges do not.
#[derive(Drop)]
pub struct Edges<'a, T: Automaton> {
    pub automaton: &'a T,
    pub exits: &'a [bool; MAX_STATES],
    ghost sound: { Sound (T.graph automaton.now) },
    ghost few: { (T.graph automaton.now).states ≤ 4096 },
    ghost exact: { ExactlyExits (T.graph automaton.now) exits.now },
}

impl<T: Automaton> Edges<'_, T> {
    // Meets what the transition `t` leads to.
    #[tactic(auto, using(crate::proofs::Ranks::calls_followed))]
    #[inline(always)]
    fn follow(&self, search: &mut Search, t: usize)
        requires { t < (T.graph self.now.automaton.now).transitions }
        ensures { Grown (Leads (T.graph self.now.automaton.now) t) search.old search.new }
    {
        match self.automaton.passing(t) {
            Passing::Silent => search.visit(self.automaton.target(t)),
            Passing::Call => {
                let target = self.automaton.target(t);
                search.visit(target);
                if self.exits[usize::from(target)] {
                    search.visit(self.automaton.return_state(t));
                }
            }
            Passing::Reads => {}
        }
    }

    // Meets what `x` has an edge to.
    #[inline(always)]
    fn expand(&self, search: &mut Search, x: u16)
        requires { x < (T.graph self.now.automaton.now).states }
        ensures { Grown (Edge (T.graph self.now.automaton.now) x) search.old search.new }
    {
        let first = self.automaton.first(usize::from(x));
        let end = self.automaton.end(usize::from(x));
        // A loop: each turn changes the search.
        for t in first..end {
            self.follow(search, t);
        }
    }

    /// Does `s` reach itself, where no state below it does?
    pub fn comes_back(&self, search: &mut Search, s: u16) -> bool
        requires inside { s < (T.graph self.now.automaton.now).states }
        requires fresh { Fresh s search.old.marks }
        requires none { NoneBelow (T.graph self.now.automaton.now) s }
        ensures exact { IsTrue result ↔ Cycle (T.graph self.now.automaton.now) s }
        ensures from { search.new.from ≡ s }
    {
        search.start(s);
        self.expand(search, s);
        // The list grows while it is read, which no iterator over it allows.
        let mut head = 0;
        while !search.has_met(s) {
            if head == search.end {
                return false;
            }
            let x = search.list[head];
            self.expand(search, x);
            head += 1;
        }
        true
    }
}
