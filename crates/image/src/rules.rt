ghost use Rattle.std.specs.Prelude.{◌≡◌, ◌+◌, ◌<◌, ◌≤◌, true, false, MatchOption};
ghost use Rattle.image.specs.Numbers.{natural, below, same_number};
ghost use Rattle.image.specs.Raw.{raw_state, raw_transition, counts_before};
ghost use Rattle.image.specs.Rules.{flag_keeps, count_keeps, span_keeps, silent_kind, in_rule, of_kind, call_keeps};
ghost use Rattle.image.specs.Rules.{may_leave, transition_keeps, interval_keeps, mode_keeps, end_keeps, rule_keeps};
ghost use Rattle.image.specs.Rules.{same_action};

use crate::image::Image;
use crate::kinds::TransitionKind;
use crate::numbers::{index_below, range_keeps};
use crate::raw::{Interval, RawAction, RawMode, RawRule, RawState, RawTransition};
use crate::reading::{ACTION, BASIC, EPSILON, MODE_START, PREDICATE, RULE, RULE_START, RULE_STOP};

impl RawState {
    // Is the flag 0, or 1 at a basic state?
    pub(crate) fn flag_keeps(self) -> bool
        ensures { result ≡ flag_keeps self }
    {
        match self.flag {
            0 => true,
            1 => self.kind == BASIC,
            _ => false,
        }
    }

    // Is the count 0 at the stop of a rule, and at least 1 elsewhere?
    pub(crate) fn count_keeps(self) -> bool
        ensures { result ≡ count_keeps self }
    {
        if self.kind == RULE_STOP {
            self.count == 0
        } else {
            self.count >= 1
        }
    }

    // How many transitions it has; a count below 0 counts for none.
    pub(crate) fn count_of(self) -> usize
        ensures is { result ≡ natural self.count }
        ensures small { result < 2147483648 }
    {
        usize::try_from(self.count).unwrap_or(0)
    }

    // Do its transitions begin after the earlier ones, and end in time?
    pub(crate) fn span_keeps(self, earlier: usize, transitions: usize, last: bool) -> bool
        requires { earlier ≤ 16384 }
        ensures { result ≡ span_keeps self earlier transitions last }
    {
        if !usize::try_from(self.first).is_ok_and(|first| first == earlier) {
            return false;
        }
        let end = earlier + self.count_of();
        if last {
            end == transitions
        } else {
            end <= transitions
        }
    }
}

// Is it a kind that reads no symbol? It is asked of the number: the transitions of a state are not checked yet.
pub(crate) fn silent_kind(kind: i32) -> bool
    ensures { result ≡ silent_kind kind }
{
    matches!(kind, EPSILON | RULE | PREDICATE | ACTION)
}

impl Image<'_> {
    // The state of a number, if there is one.
    fn state(&self, x: i32) -> Option<RawState>
        ensures { MatchOption result
            (below x self.now.sections.states.count ≡ false)
            (λ r. (below x self.now.sections.states.count ≡ true)
            × (r ≡ raw_state self.now.numbers.now self.now.sections (natural x))) }
    {
        let k = index_below(x, self.sections.states.count)?;
        Some(self.record(usize::from(k)))
    }

    // Is it a state of the rule?
    fn in_rule(&self, rule: i32, x: i32) -> bool
        ensures { result ≡ in_rule self.now.numbers.now self.now.sections rule x }
    {
        self.state(x).is_some_and(|r| r.rule == rule)
    }

    // Is it a state of the kind?
    fn of_kind(&self, kind: i32, x: i32) -> bool
        ensures { result ≡ of_kind self.now.numbers.now self.now.sections kind x }
    {
        self.state(x).is_some_and(|r| r.kind == kind)
    }

    // Does a call of a rule lead to its start, and return to a state of the source's rule?
    fn call_keeps(&self, rule: i32, r: RawTransition, called: u16) -> bool
        requires called { called ≡ natural r.q }
        requires inside { called < self.now.sections.rules.count }
        ensures { result ≡ call_keeps self.now.numbers.now self.now.sections rule r }
    {
        let called: RawRule = self.record(usize::from(called));
        // Under a name, after which the goals of the proof are called.
        let starts = r.target == called.start;
        index_below(r.target, self.sections.states.count).is_some()
            && starts
            && self.in_rule(rule, r.p)
    }

    // Does a transition of the source keep its rules?
    fn may_leave(&self, source: RawState, r: RawTransition) -> bool
        ensures { result ≡ may_leave self.now.numbers.now self.now.sections source r }
    {
        let Some(kind) = self.transition_kind(r) else {
            return false;
        };
        if source.kind == MODE_START {
            match kind {
                TransitionKind::Epsilon => self.of_kind(RULE_START, r.target),
                _ => false,
            }
        } else {
            match kind {
                TransitionKind::Rule { rule, .. } => self.call_keeps(source.rule, r, rule),
                _ => self.in_rule(source.rule, r.target),
            }
        }
    }

    // Does transition t keep its rules, where it belongs to state k?
    pub(crate) fn transition_keeps(&self, k: usize, t: usize) -> bool
        requires state { k < self.now.sections.states.count }
        requires inside { t < self.now.sections.transitions.count }
        requires from { counts_before self.now.numbers.now self.now.sections k ≤ t }
        requires to { t < counts_before self.now.numbers.now self.now.sections (k + 1) }
        ensures { result ≡ transition_keeps self.now.numbers.now self.now.sections t }
    {
        let source: RawState = self.record(k);
        let r: RawTransition = self.record(t);
        self.may_leave(source, r)
    }

    // Does interval k keep its rule?
    #[tactic(auto, unfolding(crate::specs::Rules::interval_keeps))]
    pub(crate) fn interval_keeps(&self, k: usize) -> bool
        requires { k < self.now.sections.intervals.count }
        ensures { result ≡ interval_keeps self.now.numbers.now self.now.sections k }
    {
        let r: Interval = self.record(k);
        range_keeps(r.low, r.high)
    }

    // Does mode k keep its rule?
    #[tactic(auto, unfolding(crate::specs::Rules::mode_keeps))]
    pub(crate) fn mode_keeps(&self, k: usize) -> bool
        requires { k < self.now.sections.modes.count }
        ensures { result ≡ mode_keeps self.now.numbers.now self.now.sections k }
    {
        let r: RawMode = self.record(k);
        self.of_kind(MODE_START, r.start)
    }

    // Is it a state of the kind, in rule k?
    fn end_keeps(&self, k: usize, kind: i32, x: i32) -> bool
        requires { k < 512 }
        ensures { result ≡ end_keeps self.now.numbers.now self.now.sections k kind x }
    {
        self.of_kind(kind, x) && self.in_rule(k as i32, x)
    }

    // Does rule k keep its rules?
    #[tactic(auto, unfolding(crate::specs::Rules::rule_keeps))]
    pub(crate) fn rule_keeps(&self, k: usize) -> bool
        requires { k < self.now.sections.rules.count }
        ensures { result ≡ rule_keeps self.now.numbers.now self.now.sections k }
    {
        let r: RawRule = self.record(k);
        self.end_keeps(k, RULE_START, r.start)
            && self.end_keeps(k, RULE_STOP, r.stop)
            && index_below(r.token_type, 65536).is_some()
    }

    // Are two actions alike?
    #[tactic(auto, unfolding(crate::specs::Rules::same_action))]
    pub(crate) fn same_action(&self, j: usize, k: usize) -> bool
        requires first { j < self.now.sections.actions.count }
        requires second { k < self.now.sections.actions.count }
        ensures { result ≡ same_action self.now.numbers.now self.now.sections j k }
    {
        self.record::<RawAction>(j) == self.record(k)
    }

    // Does transition u lead to the target?
    pub(crate) fn has_target(&self, u: usize, target: i32) -> bool
        requires { u < self.now.sections.transitions.count }
        ensures { result ≡ same_number (raw_transition self.now.numbers.now self.now.sections u).target target }
    {
        self.record::<RawTransition>(u).target == target
    }
}
