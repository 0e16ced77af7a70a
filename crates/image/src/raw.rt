ghost use Rattle.std.specs.Prelude.{◌≡◌, ℕ, ◌+◌, ◌≤◌, length, List, ℤ};
ghost use Rattle.image.specs.Raw.{state_from, transition_from, interval_from, mode_from, rule_from, action_from};
ghost use Rattle.image.specs.Spans.{width_of};
ghost use Rattle.image.specs.declared.sections.Section.{Section};
ghost use Rattle.image.specs.declared.sections.Section.TheVariants.{States, Transitions, Intervals};
ghost use Rattle.image.specs.declared.sections.Section.TheVariants.{Modes, Rules, Actions};

use crate::sections::Section;

/// What an image has records of: the section that they stand in, and the record that starts at an index.
pub trait Record {
    ghost SECTION: { Section };

    const SECTION: Section;

    ghost record_at: { List ℤ → ℕ → Self };

    /// The record whose first number stands at an index.
    fn read(numbers: &[i32], at: usize) -> Self
        requires { at + width_of SECTION ≤ length numbers.now }
        ensures { result ≡ record_at numbers.now at };
}

/// The five numbers of a state, as they stand in an image.
#[derive(Clone, Copy)]
pub struct RawState {
    pub kind: i32,
    pub rule: i32,
    pub flag: i32,
    pub first: i32,
    pub count: i32,
}

/// The four numbers of a transition.
#[derive(Clone, Copy)]
pub struct RawTransition {
    pub kind: i32,
    pub target: i32,
    pub p: i32,
    pub q: i32,
}

/// The symbols from `low` to `high`.
#[derive(Clone, Copy)]
pub struct Interval {
    pub low: i32,
    pub high: i32,
}

/// The number of a mode: the state that it starts at.
#[derive(Clone, Copy)]
pub struct RawMode {
    pub start: i32,
}

/// The three numbers of a rule.
#[derive(Clone, Copy)]
pub struct RawRule {
    pub start: i32,
    pub stop: i32,
    pub token_type: i32,
}

/// The two numbers of an action.
#[derive(Clone, Copy, PartialEq, Eq, Debug)]
pub struct RawAction {
    pub kind: i32,
    pub argument: i32,
}

impl Record for RawState {
    ghost SECTION = { States };

    const SECTION: Section = Section::States;

    ghost record_at = { state_from };

    fn read(numbers: &[i32], at: usize) -> RawState {
        let &[kind, rule, flag, first, count, ..] = &numbers[at..] else {
            unreachable()
        };
        RawState {
            kind,
            rule,
            flag,
            first,
            count,
        }
    }
}

impl Record for RawTransition {
    ghost SECTION = { Transitions };

    const SECTION: Section = Section::Transitions;

    ghost record_at = { transition_from };

    fn read(numbers: &[i32], at: usize) -> RawTransition {
        let &[kind, target, p, q, ..] = &numbers[at..] else {
            unreachable()
        };
        RawTransition { kind, target, p, q }
    }
}

impl Record for Interval {
    ghost SECTION = { Intervals };

    const SECTION: Section = Section::Intervals;

    ghost record_at = { interval_from };

    fn read(numbers: &[i32], at: usize) -> Interval {
        let &[low, high, ..] = &numbers[at..] else {
            unreachable()
        };
        Interval { low, high }
    }
}

impl Record for RawMode {
    ghost SECTION = { Modes };

    const SECTION: Section = Section::Modes;

    ghost record_at = { mode_from };

    fn read(numbers: &[i32], at: usize) -> RawMode {
        RawMode { start: numbers[at] }
    }
}

impl Record for RawRule {
    ghost SECTION = { Rules };

    const SECTION: Section = Section::Rules;

    ghost record_at = { rule_from };

    fn read(numbers: &[i32], at: usize) -> RawRule {
        let &[start, stop, token_type, ..] = &numbers[at..] else {
            unreachable()
        };
        RawRule {
            start,
            stop,
            token_type,
        }
    }
}

impl Record for RawAction {
    ghost SECTION = { Actions };

    const SECTION: Section = Section::Actions;

    ghost record_at = { action_from };

    fn read(numbers: &[i32], at: usize) -> RawAction {
        let &[kind, argument, ..] = &numbers[at..] else {
            unreachable()
        };
        RawAction { kind, argument }
    }
}
