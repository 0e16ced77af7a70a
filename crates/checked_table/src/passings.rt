ghost use Rattle.std.specs.Prelude.{◌≡◌, ◌≤◌, length};
ghost use Rattle.checked_table.specs.Atn.{SetFits};
ghost use Rattle.checked_table.specs.Graphs.{Noted, passing_of};
ghost use Rattle.checked_table.specs.Means.{atn_in};

use crate::records::Records;
use image::TransitionKind;
use rounds::Passing;

// How a transition of the kind is passed without reading a symbol.
fn passing_of(records: &Records, kind: TransitionKind) -> Passing
    requires { SetFits (atn_in records.now) kind }
    ensures { result ≡ passing_of (atn_in records.now) kind }
{
    match kind {
        TransitionKind::Epsilon
        | TransitionKind::Predicate { .. }
        | TransitionKind::Action { .. } => Passing::Silent,
        TransitionKind::Rule { .. } => Passing::Call,
        TransitionKind::Range { .. } | TransitionKind::Atom { .. } | TransitionKind::Set { .. }
            if records.matches(kind, -1) => { Passing::Silent }
        _ => Passing::Reads,
    }
}

/// Notes how each transition is passed.
pub fn note_passings(records: &Records, passings: &mut [Passing])
    requires { length (atn_in records.now).transitions ≤ length passings.old }
    ensures { Noted (atn_in records.now) passings.new }
{
    let count = records.counts().transitions;
    // By index: a `zip` of the notes and the numbers was tried, and its proof did not close.
    for t in 0..count {
        let transition = records.transition(t);
        passings[t as usize] = passing_of(records, transition.kind);
    }
}
