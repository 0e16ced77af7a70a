ghost use Rattle.audit.specs.Tasks.{Asks};

/// What the program can be asked for.
#[derive(Clone, Copy, PartialEq, Eq, Debug)]
pub enum Task {
    Audit,
    Time,
    Help,
}

/// The task that a word names, or `None` where it names none.
pub fn task_of(word: &str) -> Option<Task>
    ensures { Asks word.now result }
{
    match word {
        "audit" => Some(Task::Audit),
        "time" => Some(Task::Time),
        "help" => Some(Task::Help),
        _ => None,
    }
}
