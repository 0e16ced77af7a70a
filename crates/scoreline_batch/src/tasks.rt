ghost use Rattle.scoreline_batch.specs.Tasks.{Asks};

/// What the program can be asked for: what `scoreline` can, and two tasks more.
#[derive(Clone, Copy, PartialEq, Eq, Debug)]
pub enum Task {
    Scoreline(audit::Task),
    Check,
    Batch,
}

/// The task that a word names, or `None` where it names none.
pub fn task_of(word: &str) -> Option<Task>
    ensures { Asks word.now result }
{
    match word {
        "check" => Some(Task::Check),
        "batch" => Some(Task::Batch),
        _ => audit::task_of(word).map(Task::Scoreline),
    }
}
