ghost use Rattle.std.specs.Prelude.{◌≡◌, ◌+◌, ◌<◌, ◌≤◌, length};
ghost use Rattle.checked_table.specs.Atn.{state_at, transition_at, interval_at, mode_at, rule_at, action_at};
ghost use Rattle.checked_table.specs.Atn.{contains, interval_has, is_stop, is_symbol, matches, SetFits};
ghost use Rattle.checked_table.specs.Counts.{Counted};
ghost use Rattle.checked_table.specs.Graphs.{passing_of, follow_of};
ghost use Rattle.checked_table.specs.Means.{atn_in};
ghost use Rattle.image.specs.Keeping.{RecordsKeep};
ghost use Rattle.image.specs.Numbers.{natural};
ghost use Rattle.image.specs.Spans.{sections_of};
ghost use Rattle.rounds.specs.declared.passing.Passing.TheVariants.{Call};

use crate::counts::Counts;
use crate::parts::{Rule, State, Transition};
use crate::records::Records;
use image::{
    Image, Interval, LexerAction, RawAction, RawMode, RawRule, RawState, RawTransition,
    TransitionKind,
};

// A number of a record as 16 bits; it is 0 where it is below 0, as in the meaning of a table. Not by `try_from`, whose
// test of the upper end, which is proved here, took a third of the search for rounds.
fn small(x: i32) -> u16
    requires { natural x < 65536 }
    ensures { result ≡ natural x }
{
    x.max(0) as u16
}

impl<'a> Records<'a> {
    /// The records of an image that were found to keep their rules.
    pub(crate) fn over(image: Image<'a>) -> Records<'a>
        requires laid { image.sections ≡ sections_of image.numbers.now }
        requires keep { RecordsKeep image.numbers.now image.sections }
        ensures numbers { result.image.numbers.now ≡ image.entry.numbers.now }
        ensures sections { result.image.sections ≡ image.entry.sections }
    {
        Records { image }
    }
}

// Numbers of records are widened by `as`, which loses nothing. By `usize::from` it was tried: the proofs that read the
// record of that number did not close.
impl Records<'_> {
    /// How many records of each kind there are.
    pub fn counts(&self) -> Counts
        ensures { Counted (atn_in self.now) result }
    {
        // The limits of the counts are proved, so no cast loses anything.
        let sections = self.image.sections();
        Counts {
            states: sections.states.count as u16,
            transitions: sections.transitions.count as u16,
            intervals: sections.intervals.count as u16,
            modes: sections.modes.count as u16,
            rules: sections.rules.count as u16,
            actions: sections.actions.count as u16,
        }
    }

    /// State s.
    #[inline(always)]
    pub fn state(&self, s: u16) -> State
        requires { s < length (atn_in self.now).states }
        ensures { result ≡ state_at (atn_in self.now) s }
    {
        let r: RawState = self.image.record(s as usize);
        let Some(kind) = self.image.state_kind(r) else {
            unreachable()
        };
        State {
            kind,
            rule: small(r.rule),
            non_greedy: r.flag == 1,
            first: small(r.first),
            count: small(r.count),
        }
    }

    /// Transition t.
    #[inline(always)]
    pub fn transition(&self, t: u16) -> Transition
        requires { t < length (atn_in self.now).transitions }
        ensures is { result ≡ transition_at (atn_in self.now) t }
        ensures fits { SetFits (atn_in self.now) result.kind }
    {
        let r: RawTransition = self.image.record(t as usize);
        let Some(kind) = self.image.transition_kind(r) else {
            unreachable()
        };
        Transition {
            kind,
            target: small(r.target),
        }
    }

    /// Interval i.
    pub fn interval(&self, i: u16) -> Interval
        requires { i < length (atn_in self.now).intervals }
        ensures { result ≡ interval_at (atn_in self.now) i }
    {
        self.image.record(i as usize)
    }

    /// The start of mode m.
    pub fn mode(&self, m: u16) -> u16
        requires { m < length (atn_in self.now).modes }
        ensures { result ≡ mode_at (atn_in self.now) m }
    {
        let raw: RawMode = self.image.record(m as usize);
        small(raw.start)
    }

    /// Rule r.
    pub fn rule(&self, r: u16) -> Rule
        requires { r < length (atn_in self.now).rules }
        ensures { result ≡ rule_at (atn_in self.now) r }
    {
        let raw: RawRule = self.image.record(r as usize);
        Rule {
            start: small(raw.start),
            stop: small(raw.stop),
            token_type: small(raw.token_type),
        }
    }

    /// Action a.
    pub fn action(&self, a: u16) -> LexerAction
        requires { a < length (atn_in self.now).actions }
        ensures { result ≡ action_at (atn_in self.now) a }
    {
        let raw: RawAction = self.image.record(a as usize);
        let Some(action) = self.image.lexer_action(raw) else {
            unreachable()
        };
        action
    }

    // Does the symbol lie in interval i?
    fn interval_has(&self, i: u16, symbol: i32) -> bool
        requires { i < length (atn_in self.now).intervals }
        ensures { result ≡ interval_has (atn_in self.now) i symbol }
    {
        let Interval { low, high } = self.interval(i);
        (low..=high).contains(&symbol)
    }

    /// Does the symbol lie in one of the `count` intervals from `first` on?
    pub fn contains(&self, first: u16, count: u16, symbol: i32) -> bool
        requires { first + count ≤ length (atn_in self.now).intervals }
        ensures { result ≡ contains (atn_in self.now) first count symbol }
    {
        (first..first + count).any(|i| self.interval_has(i, symbol))
    }

    /// Does a transition of the kind match the symbol, or the end of the text, −1? The intervals of its set are there,
    /// as they are for every transition of the table.
    pub fn matches(&self, kind: TransitionKind, symbol: i32) -> bool
        requires { SetFits (atn_in self.now) kind }
        ensures { result ≡ matches (atn_in self.now) kind symbol }
    {
        match kind {
            TransitionKind::Range { low, high } => (low..=high).contains(&symbol),
            TransitionKind::Atom { label } => symbol == label,
            TransitionKind::Set { first, count } => self.contains(first, count, symbol),
            TransitionKind::NotSet { first, count } if is_symbol(symbol) => {
                !self.contains(first, count, symbol)
            }
            TransitionKind::Wildcard => is_symbol(symbol),
            _ => false,
        }
    }
}

// Parts of records, alone: the search for rounds asks for them millions of times, and to tell the kind of a record costs
// more than all the rest of it.
impl Records<'_> {
    // Which transitions state s has: the first, and how many.
    pub(crate) fn span(&self, s: u16) -> (u16, u16)
        requires { s < length (atn_in self.now).states }
        ensures first { result.0 ≡ (state_at (atn_in self.now) s).first }
        ensures count { result.1 ≡ (state_at (atn_in self.now) s).count }
    {
        let r: RawState = self.image.record(s as usize);
        (small(r.first), small(r.count))
    }

    // Is state s the stop of a rule? Just those have no transitions.
    pub(crate) fn is_stop(&self, s: u16) -> bool
        requires { s < length (atn_in self.now).states }
        ensures { result ≡ is_stop (atn_in self.now) s }
    {
        let raw: RawState = self.image.record(s as usize);
        raw.count == 0
    }

    // Where transition t leads.
    pub(crate) fn leads_to(&self, t: u16) -> u16
        requires { t < length (atn_in self.now).transitions }
        ensures { result ≡ (transition_at (atn_in self.now) t).target }
    {
        let raw: RawTransition = self.image.record(t as usize);
        small(raw.target)
    }

    // Where transition t returns to, a call.
    pub(crate) fn follow_state(&self, t: u16) -> u16
        requires inside { t < length (atn_in self.now).transitions }
        requires call { passing_of (atn_in self.now) (transition_at (atn_in self.now) t).kind ≡ Call }
        ensures { result ≡ follow_of (transition_at (atn_in self.now) t).kind }
    {
        let raw: RawTransition = self.image.record(t as usize);
        small(raw.p)
    }
}

fn is_symbol(x: i32) -> bool
    ensures { result ≡ is_symbol x }
{
    (0..=1114111).contains(&x)
}
