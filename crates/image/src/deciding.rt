ghost use Rattle.std.specs.Prelude.{◌≡◌, ◌+◌, ◌<◌, ◌≤◌};
ghost use Rattle.image.specs.Raw.{counts_before};
ghost use Rattle.image.specs.Rules.{may_decide, decides, numbers_keep, state_keeps, action_keeps};

use crate::image::Image;
use crate::raw::{RawAction, RawState, RawTransition};
use crate::rules::silent_kind;

impl Image<'_> {
    // Are a state's numbers what they may be, after so many earlier transitions?
    #[tactic(auto, unfolding(crate::specs::Rules::numbers_keep))]
    fn numbers_keep(&self, r: RawState, earlier: usize, last: bool) -> bool
        requires { earlier ≤ 16384 }
        ensures { result ≡ numbers_keep self.now.sections r earlier last }
    {
        self.state_kind(r).is_some()
            && r.flag_keeps()
            && r.count_keeps()
            && r.span_keeps(earlier, self.sections.transitions.count, last)
    }

    // Does transition t read no symbol, and has it another target than those before it, from `first` on?
    fn may_decide(&self, first: usize, t: usize) -> bool
        requires after { first ≤ t }
        requires inside { t < self.now.sections.transitions.count }
        ensures { result ≡ may_decide self.now.numbers.now self.now.sections first t }
    {
        let r: RawTransition = self.record(t);
        silent_kind(r.kind) && (first..t).all(|u| !self.has_target(u, r.target))
    }

    // Is there one transition at most, or may all of them decide?
    fn decides(&self, first: usize, count: usize) -> bool
        requires { first + count ≤ self.now.sections.transitions.count }
        ensures { result ≡ decides self.now.numbers.now self.now.sections first count }
    {
        count <= 1 || (first..first + count).all(|t| self.may_decide(first, t))
    }

    // Does state k keep its rules, where the states before it have `earlier` transitions? The two go together in three
    // functions; a struct of them would be made and taken apart in each turn of two loops.
    #[tactic(auto, using(crate::proofs::Ruling::numbers_span), unfolding(crate::specs::Rules::state_keeps))]
    pub(crate) fn state_keeps(&self, k: usize, earlier: usize) -> bool
        requires inside { k < self.now.sections.states.count }
        requires counted { earlier ≡ counts_before self.now.numbers.now self.now.sections k }
        requires few { earlier ≤ 16384 }
        ensures { result ≡ state_keeps self.now.numbers.now self.now.sections k }
    {
        let r: RawState = self.record(k);
        let last = k + 1 == self.sections.states.count;
        let count = r.count_of();
        self.numbers_keep(r, earlier, last) && self.decides(earlier, count)
    }

    // Does action k keep its rules?
    pub(crate) fn action_keeps(&self, k: usize) -> bool
        requires { k < self.now.sections.actions.count }
        ensures { result ≡ action_keeps self.now.numbers.now self.now.sections k }
    {
        let r: RawAction = self.record(k);
        self.lexer_action(r).is_some() && (0..k).all(|j| !self.same_action(j, k))
    }
}
