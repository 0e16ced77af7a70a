ghost use Rattle.std.specs.Prelude.{◌≡◌, ℕ, ◌+◌, ◌<◌, ◌≤◌, true, false, MatchOption};
ghost use Rattle.image.specs.Keeping.{FirstFailure, SectionKeeps, Late, KeptBefore, RecordsKeep, BreaksFirst};
ghost use Rattle.image.specs.Raw.{counts_before};
ghost use Rattle.image.specs.Rules.{state_keeps, transition_keeps, record_keeps};
ghost use Rattle.image.specs.Spans.{span_of};
ghost use Rattle.image.specs.declared.sections.Section.TheVariants.{States};

use crate::image::Image;
use crate::raw::RawState;
use crate::sections::Section;

impl Image<'_> {
    // Where the transitions of state k end, by where they begin.
    #[tactic(auto, using(crate::proofs::Counting::counts_more))]
    fn transitions_end(&self, k: usize, first: usize) -> usize
        requires inside { k < self.now.sections.states.count }
        requires begin { first ≡ counts_before self.now.numbers.now self.now.sections k }
        requires few { first ≤ 16384 }
        ensures { result ≡ counts_before self.now.numbers.now self.now.sections (k + 1) }
    {
        first + self.record::<RawState>(k).count_of()
    }

    // The first state that breaks a rule.
    #[tactic(auto, using(crate::proofs::Counting::counts_none, crate::proofs::Counting::state_end))]
    fn broken_state(&self) -> Option<usize>
        ensures { FirstFailure (state_keeps self.now.numbers.now self.now.sections)
            self.now.sections.states.count result }
    {
        // A loop: each state is asked with the sum of the counts before it.
        let mut earlier = 0;
        for k in 0..self.sections.states.count {
            if !self.state_keeps(k, earlier) {
                return Some(k);
            }
            earlier = self.transitions_end(k, earlier);
        }
        None
    }

    // The first transition of state k that breaks a rule.
    fn broken_transition_of(&self, k: usize, first: usize, end: usize) -> Option<usize>
        requires state { k < self.now.sections.states.count }
        requires first { first ≡ counts_before self.now.numbers.now self.now.sections k }
        requires end { end ≡ counts_before self.now.numbers.now self.now.sections (k + 1) }
        requires inside { end ≤ self.now.sections.transitions.count }
        ensures { MatchOption result
            ((t : ℕ) → first ≤ t → t < end → transition_keeps self.now.numbers.now self.now.sections t ≡ true)
            (λ t. (first ≤ t) × (t < end)
            × (transition_keeps self.now.numbers.now self.now.sections t ≡ false)
            × ((u : ℕ) → first ≤ u → u < t → transition_keeps self.now.numbers.now self.now.sections u ≡ true)) }
    {
        (first..end).find(|t| !self.transition_keeps(k, *t))
    }

    // The first transition that breaks a rule, where all states keep theirs.
    #[tactic(auto, using(crate::proofs::Counting::counts_none, crate::proofs::Counting::state_end))]
    fn broken_transition(&self) -> Option<usize>
        requires { SectionKeeps self.now.numbers.now self.now.sections States }
        ensures { FirstFailure (transition_keeps self.now.numbers.now self.now.sections)
            self.now.sections.transitions.count result }
    {
        // A loop: the transitions of a state begin where those of the one before it end.
        let mut first = 0;
        for k in 0..self.sections.states.count {
            let end = self.transitions_end(k, first);
            if let Some(t) = self.broken_transition_of(k, first, end) {
                return Some(t);
            }
            first = end;
        }
        None
    }

    // Does record k of one of the last four sections keep its rules?
    fn late_record_keeps(&self, section: Section, k: usize) -> bool
        requires late { Late section }
        requires inside { k < (span_of self.now.sections section).count }
        ensures { result ≡ record_keeps self.now.numbers.now self.now.sections section k }
    {
        match section {
            Section::Intervals => self.interval_keeps(k),
            Section::Modes => self.mode_keeps(k),
            Section::Rules => self.rule_keeps(k),
            Section::Actions => self.action_keeps(k),
            _ => unreachable(),
        }
    }

    // The first record of one of the last four sections that breaks a rule.
    // One search for the four of them. Four searches, each with a closure of its own, were tried: none of the four
    // proofs closed.
    fn broken_late_record(&self, section: Section) -> Option<usize>
        requires { Late section }
        ensures { FirstFailure (record_keeps self.now.numbers.now self.now.sections section)
            (span_of self.now.sections section).count result }
    {
        let span = section.span(&self.sections);
        (0..span.count).find(|k| !self.late_record_keeps(section, *k))
    }

    // The first record of a section that breaks a rule, where all before it keep theirs.
    fn broken_record(&self, section: Section) -> Option<usize>
        requires { KeptBefore self.now.numbers.now self.now.sections section }
        ensures { FirstFailure (record_keeps self.now.numbers.now self.now.sections section)
            (span_of self.now.sections section).count result }
    {
        match section {
            Section::States => self.broken_state(),
            Section::Transitions => self.broken_transition(),
            _ => self.broken_late_record(section),
        }
    }

    /// Where the first record that breaks a rule starts.
    pub fn broken_place(&self) -> Option<usize>
        ensures { MatchOption result
            (RecordsKeep self.now.numbers.now self.now.sections)
            (BreaksFirst self.now.numbers.now self.now.sections) }
    {
        // A loop: a section may be asked only once those before it are known to keep their rules.
        for section in Section::ALL {
            if let Some(k) = self.broken_record(section) {
                return Some(section.place(&self.sections, k));
            }
        }
        None
    }
}
