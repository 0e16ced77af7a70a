ghost use Rattle.std.specs.Prelude.{◌≡◌, is_some, IfSome};
ghost use Rattle.image.specs.Kinds.{state_kind_of, transition_kind_of, action_of};
ghost use Rattle.image.specs.Rules.{kind_and_rule, fields_keep, argument_keeps};

use crate::image::Image;
use crate::kinds::{LexerAction, StateKind, TransitionKind};
use crate::numbers::{index_below, intervals_from, is_label, range_keeps};
use crate::raw::{RawAction, RawState, RawTransition};

// Kinds of states, as an image has them. Tests of rules ask the numbers: an image that is not checked may have any.
pub(crate) const BASIC: i32 = 1;

pub(crate) const RULE_START: i32 = 2;

pub(crate) const MODE_START: i32 = 6;

pub(crate) const RULE_STOP: i32 = 7;

// Kinds of transitions.
pub(crate) const EPSILON: i32 = 1;

pub(crate) const RANGE: i32 = 2;

pub(crate) const RULE: i32 = 3;

pub(crate) const PREDICATE: i32 = 4;

pub(crate) const ATOM: i32 = 5;

pub(crate) const ACTION: i32 = 6;

pub(crate) const SET: i32 = 7;

pub(crate) const NOT_SET: i32 = 8;

pub(crate) const WILDCARD: i32 = 9;

// Kinds of actions.
const CHANNEL: i32 = 0;

const MODE: i32 = 2;

const MORE: i32 = 3;

const POP_MODE: i32 = 4;

const PUSH_MODE: i32 = 5;

const SKIP: i32 = 6;

const TYPE: i32 = 7;

// Inlined: a caller that knows that a record keeps its rules then pays for no test of them.
impl Image<'_> {
    /// What is to be done by an action, where its argument fits its kind.
    #[inline(always)]
    pub fn lexer_action(&self, r: RawAction) -> Option<LexerAction>
        ensures keeps { is_some result ≡ argument_keeps self.now.sections r.kind r.argument }
        ensures means { IfSome result (λ action. action ≡ action_of r.kind r.argument) }
    {
        let modes = self.sections.modes.count;
        match r.kind {
            CHANNEL => index_below(r.argument, 65536).map(LexerAction::Channel),
            MODE => index_below(r.argument, modes).map(LexerAction::Mode),
            MORE if r.argument == 0 => Some(LexerAction::More),
            POP_MODE if r.argument == 0 => Some(LexerAction::PopMode),
            PUSH_MODE => index_below(r.argument, modes).map(LexerAction::PushMode),
            SKIP if r.argument == 0 => Some(LexerAction::Skip),
            TYPE => index_below(r.argument, 65536).map(LexerAction::Type),
            _ => None,
        }
    }

    /// What a transition does, or what it matches, where p and q are what they may be at its kind.
    #[inline(always)]
    pub fn transition_kind(&self, r: RawTransition) -> Option<TransitionKind>
        ensures keeps { is_some result ≡ fields_keep self.now.sections r.kind r.p r.q }
        ensures means { IfSome result (λ kind. kind ≡ transition_kind_of r.kind r.p r.q) }
    {
        let s = &self.sections;
        let RawTransition { kind, p, q, .. } = r;
        match kind {
            EPSILON if p == 0 && q == 0 => Some(TransitionKind::Epsilon),
            RANGE if range_keeps(p, q) => Some(TransitionKind::Range { low: p, high: q }),
            RULE => {
                let rule = index_below(q, s.rules.count)?;
                let follow_state = index_below(p, s.states.count)?;
                Some(TransitionKind::Rule { rule, follow_state })
            }
            PREDICATE => Some(TransitionKind::Predicate {
                rule: index_below(p, s.rules.count)?,
                predicate: index_below(q, 65536)?,
            }),
            ATOM if is_label(p) && q == 0 => Some(TransitionKind::Atom { label: p }),
            ACTION if q == 0 => Some(TransitionKind::Action {
                action: index_below(p, s.actions.count)?,
            }),
            SET => {
                let (first, count) = intervals_from(p, q, s.intervals.count)?;
                Some(TransitionKind::Set { first, count })
            }
            NOT_SET => {
                let (first, count) = intervals_from(p, q, s.intervals.count)?;
                Some(TransitionKind::NotSet { first, count })
            }
            WILDCARD if p == 0 && q == 0 => Some(TransitionKind::Wildcard),
            _ => None,
        }
    }

    /// What a state is, where its rule is what it may be at its kind.
    #[inline(always)]
    pub fn state_kind(&self, r: RawState) -> Option<StateKind>
        ensures keeps { is_some result ≡ kind_and_rule r self.now.sections.rules.count }
        ensures means { IfSome result (λ kind. kind ≡ state_kind_of r.kind) }
    {
        let of_a_rule = index_below(r.rule, self.sections.rules.count).is_some();
        match r.kind {
            BASIC if of_a_rule => Some(StateKind::Basic),
            RULE_START if of_a_rule => Some(StateKind::RuleStart),
            MODE_START if r.rule == -1 => Some(StateKind::TokensStart),
            RULE_STOP if of_a_rule => Some(StateKind::RuleStop),
            _ => None,
        }
    }
}
