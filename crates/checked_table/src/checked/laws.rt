ghost use Rattle.checked_table.specs.Formed.{Formed};
ghost use Rattle.checked_table.specs.Laws.{StepsFall, RanksFall};
ghost use Rattle.checked_table.specs.Steps.{NoRound};
ghost use Rattle.checked_table.specs.Tables.{atn};

use crate::checked::Table;

impl Table<'_> {
    /// What holds of every table: its parts fit together, no state goes round, and there are ranks and a measure
    /// that silent steps take down.
    pub fn laws(&self)
        ensures formed { Formed (atn self.now) }
        ensures ends { NoRound (atn self.now) }
        ensures ranks { RanksFall (atn self.now) }
        ensures falls { StepsFall (atn self.now) }
    {}
}
