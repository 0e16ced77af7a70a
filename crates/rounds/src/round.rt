ghost use Rattle.std.specs.Prelude.{◌≤◌, MatchOption};
ghost use Rattle.rounds.specs.Rounds.{Sound, NoRound, LowestRound};

use crate::automaton::Automaton;
use crate::edges::Edges;
use crate::exits::mark_exits;
use crate::search::Search;

/// The most states that `goes_round` takes.
pub const MAX_STATES: usize = 4096;

/// The lowest state that goes round silently, if there is one: from it, with no return states, one or
/// more silent steps lead back to it.
pub fn goes_round<T: Automaton>(automaton: &T) -> Option<usize>
    requires sound { Sound (T.graph automaton.now) }
    requires few { (T.graph automaton.now).states ≤ 4096 }
    ensures { MatchOption result (NoRound (T.graph automaton.now)) (LowestRound (T.graph automaton.now)) }
{
    let mut exits = [false; MAX_STATES];
    mark_exits(automaton, &mut exits);
    let edges = Edges {
        automaton,
        exits: &exits,
    };
    let mut search = Search::new();
    // Each search writes its marks, so this is no `find` over the states.
    for s in 0..automaton.states() {
        if edges.comes_back(&mut search, s as u16) {
            return Some(s);
        }
    }
    None
}
