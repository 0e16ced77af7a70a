ghost use Rattle.std.specs.Prelude.{Some};
ghost use Rattle.checked_table.specs.Shown.{counts_line};

use std::fmt;

/// How many records of each kind a table has.
#[derive(Clone, Copy, PartialEq, Eq, Debug)]
pub struct Counts {
    pub states: u16,
    pub transitions: u16,
    pub intervals: u16,
    pub modes: u16,
    pub rules: u16,
    pub actions: u16,
}

impl fmt::Display for Counts {
    ghost output = { λ c. Some (counts_line c) };

    fn fmt<W: fmt::Write>(&self, f: &mut fmt::Formatter<W>) -> fmt::Result {
        let Counts {
            states,
            transitions,
            intervals,
            modes,
            rules,
            actions,
        } = *self;
        write!(
            f,
            "{states} states, {transitions} transitions, {intervals} intervals, "
        )?;
        write!(f, "{modes} modes, {rules} rules, {actions} actions")
    }
}
