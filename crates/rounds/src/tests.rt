ghost use Rattle.std.specs.Prelude.{◌+◌, ◌<◌, ◌≤◌, ◌↔◌, IsTrue, EachIndex, length, slice_index_or};
ghost use Rattle.rounds.specs.declared.tests.TheConstants.{NO_STATE, NO_TRANSITION};

use crate::{Automaton, MAX_STATES, Passing, goes_round};
use Passing::{Reads, Silent};
use std::test::Fail;

// A state: its transitions are the `count` ones from `first` on.
#[derive(Clone, Copy)]
struct State {
    first: u16,
    count: u16,
    stop: bool,
}

// A transition to `target`; the return state of a call is `back`.
#[derive(Clone, Copy)]
struct Transition {
    passing: Passing,
    target: u16,
    back: u16,
}

// An automaton in two lent lists.
#[derive(Drop)]
struct Lists<'s, 't> {
    states: &'s [State],
    transitions: &'t [Transition],
}

impl Automaton for Lists<'_, '_> {
    ghost graph = { λ a. record {
      states = length a.states.now;
      transitions = length a.transitions.now;
      first = λ s. (slice_index_or a.states.now s NO_STATE).first;
      count = λ s. (slice_index_or a.states.now s NO_STATE).count;
      stop = λ s. (slice_index_or a.states.now s NO_STATE).stop;
      passing = λ t. (slice_index_or a.transitions.now t NO_TRANSITION).passing;
      target = λ t. (slice_index_or a.transitions.now t NO_TRANSITION).target;
      return_state = λ t. (slice_index_or a.transitions.now t NO_TRANSITION).back;
    } };

    fn states(&self) -> usize {
        self.states.len()
    }

    fn first(&self, s: usize) -> usize {
        usize::from(self.states[s].first)
    }

    fn end(&self, s: usize) -> usize {
        let State { first, count, .. } = self.states[s];
        usize::from(first) + usize::from(count)
    }

    fn stops(&self, s: usize) -> bool {
        self.states[s].stop
    }

    fn passing(&self, t: usize) -> Passing {
        self.transitions[t].passing
    }

    fn target(&self, t: usize) -> u16 {
        self.transitions[t].target
    }

    fn return_state(&self, t: usize) -> u16 {
        self.transitions[t].back
    }
}

// Do the transitions of each state lie among the first `n`?
fn spans_fit(states: &[State], n: usize) -> bool
    ensures { IsTrue result
        ↔ EachIndex states.now (λ k. let state = slice_index_or states.now k NO_STATE in state.first + state.count ≤ n) }
{
    states.iter().all(|state| usize::from(state.first) + usize::from(state.count) <= n)
}

// Are the states that each transition names among the first `n`?
fn targets_fit(transitions: &[Transition], n: usize) -> bool
    ensures targets { IsTrue result
        → EachIndex transitions.now (λ k. (slice_index_or transitions.now k NO_TRANSITION).target < n) }
    ensures backs { IsTrue result
        → EachIndex transitions.now (λ k. (slice_index_or transitions.now k NO_TRANSITION).back < n) }
{
    transitions.iter().all(|transition| usize::from(transition.target) < n
        && usize::from(transition.back) < n)
}

// The lowest state that goes round; a failure where the lists do not fit each other.
fn lowest(states: &[State], transitions: &[Transition]) -> Result<Option<usize>, Fail> {
    if states.len() <= MAX_STATES
        && spans_fit(states, transitions.len())
        && targets_fit(transitions, states.len())
    {
        return Ok(goes_round(&Lists {
            states,
            transitions,
        }));
    }
    Err(Fail::new("the lists do not fit"))
}

// What stands past the end of the lists.
const NO_STATE: State = State {
    first: 0,
    count: 0,
    stop: false,
};

const NO_TRANSITION: Transition = Transition {
    passing: Passing::Silent,
    target: 0,
    back: 0,
};

const STOP: State = State {
    first: 0,
    count: 0,
    stop: true,
};

// A state with the one transition `first`.
fn single(first: u16) -> State {
    State {
        first,
        count: 1,
        stop: false,
    }
}

// A transition that is no call.
fn to(passing: Passing, target: u16) -> Transition {
    Transition {
        passing,
        target,
        back: 0,
    }
}

fn call(target: u16, back: u16) -> Transition {
    Transition {
        passing: Passing::Call,
        target,
        back,
    }
}

#[test]
fn silent_moves_go_round(rt: HostRuntime) -> Result<(), Fail> {
    assert_eq!(rt;
        lowest(&[single(0), single(1)], &[to(Silent, 1), to(Silent, 0)])?,
        Some(0)
    );
    Ok(())
}

#[test]
fn an_empty_rule_called_in_a_loop_goes_round(rt: HostRuntime) -> Result<(), Fail> {
    assert_eq!(rt;
        lowest(&[single(0), single(1), STOP], &[to(Reads, 1), call(2, 1)])?,
        Some(1)
    );
    Ok(())
}

#[test]
fn a_rule_that_calls_itself_first_goes_round(rt: HostRuntime) -> Result<(), Fail> {
    assert_eq!(rt; lowest(&[single(0), STOP], &[call(0, 1)])?, Some(0));
    Ok(())
}

#[test]
fn an_empty_rule_called_twice_in_a_row_does_not(rt: HostRuntime) -> Result<(), Fail> {
    assert_eq!(rt;
        lowest(
            &[single(0), single(1), STOP, STOP],
            &[call(3, 1), call(3, 2)],
        )?,
        None
    );
    Ok(())
}

#[test]
fn a_chain_does_not(rt: HostRuntime) -> Result<(), Fail> {
    assert_eq!(rt;
        lowest(
            &[single(0), single(1), STOP],
            &[to(Silent, 1), to(Silent, 2)]
        )?,
        None
    );
    Ok(())
}

#[test]
fn the_lowest_of_two_rounds_is_told(rt: HostRuntime) -> Result<(), Fail> {
    let states = [
        single(0),
        State {
            first: 1,
            count: 2,
            stop: false,
        },
        single(3),
    ];
    assert_eq!(rt;
        lowest(
            &states,
            &[to(Reads, 1), to(Reads, 0), to(Silent, 1), to(Silent, 2)]
        )?,
        Some(1)
    );
    Ok(())
}
