ghost use Rattle.rounds.specs.Rank.{RanksFall, StepsFall};
ghost use Rattle.rounds.specs.Rounds.{RoundsAreCycles};

/// A theorem: a state goes round exactly when it reaches itself by edges.
#[tactic(auto, using(crate::proofs::Walks::exact))]
pub fn rounds_are_cycles()
    ensures { RoundsAreCycles }
{}

/// A theorem: where no state goes round, the rank falls along every edge.
#[tactic(auto, using(crate::proofs::Ranks::ranks_fall_lem))]
pub fn ranks_fall()
    ensures { RanksFall }
{}

/// A theorem: where no state goes round, the total falls with every silent step.
#[tactic(auto, using(crate::proofs::Ranks::steps_fall_lem))]
pub fn steps_fall()
    ensures { StepsFall }
{}
