ghost use Rattle.std.specs.Prelude.{◌≤◌, length};
ghost use Rattle.checked_table.specs.Graphs.{Noted, graph_of};
ghost use Rattle.checked_table.specs.Means.{atn_in};

use crate::records::Records;
use rounds::{Automaton, Passing};

/// Records as an automaton of which only the silent steps count, with how each transition is passed.
// States and transitions are few, so a cast of their numbers to 16 bits loses nothing. What the search asks for is inlined
// into it: a call for each question took longer than the answers.
#[derive(Drop)]
pub struct SilentSteps<'r, 'a, 'p> {
    pub records: &'r Records<'a>,
    pub passings: &'p [Passing],
    ghost few_states: { length (atn_in records.now).states ≤ 4096 },
    ghost few_transitions: { length (atn_in records.now).transitions ≤ 16384 },
    ghost known: { length (atn_in records.now).transitions ≤ length passings.now },
    ghost noted: { Noted (atn_in records.now) passings.now },
}

impl Automaton for SilentSteps<'_, '_, '_> {
    ghost graph = { λ t. graph_of (atn_in t.records.now) };

    fn states(&self) -> usize {
        usize::from(self.records.counts().states)
    }

    #[inline(always)]
    fn first(&self, s: usize) -> usize {
        let (first, _) = self.records.span(s as u16);
        usize::from(first)
    }

    #[inline(always)]
    fn end(&self, s: usize) -> usize {
        let (first, count) = self.records.span(s as u16);
        usize::from(first) + usize::from(count)
    }

    #[inline(always)]
    fn stops(&self, s: usize) -> bool {
        self.records.is_stop(s as u16)
    }

    #[inline(always)]
    fn passing(&self, t: usize) -> Passing {
        self.passings[t]
    }

    #[inline(always)]
    fn target(&self, t: usize) -> u16 {
        self.records.leads_to(t as u16)
    }

    #[inline(always)]
    fn return_state(&self, t: usize) -> u16 {
        self.records.follow_state(t as u16)
    }
}
