use crate::checks;
use crate::tasks::{Task, task_of};
use anyhow::bail;
use reports::{audit_file, time_file};

const USAGE: &str =
    "scoreline audit FILE      says of each line of FILE how many symbols it has, or why it is refused
scoreline time FILE       walks FILE as one text, and says how long a symbol takes
scoreline check TABLE...  says of each TABLE, a file of numbers, how many records it has, or why it is refused
scoreline batch FILE      carries out each line of FILE as a command
scoreline help            prints this";

/// Carries out one command, given by its words. A batch is not one.
// The tasks of `scoreline` are matched as there: one function for both would have to be told its usage and its errors.
pub fn carry_out_one(rt: &HostRuntime, words: &[String]) -> anyhow::Result<()> {
    let [word, others @ ..] = words else {
        bail!("no command: see scoreline help");
    };
    match (task_of(word.as_str()), others) {
        (Some(Task::Scoreline(audit::Task::Audit)), [path]) => audit_file(rt, path.as_str()),
        (Some(Task::Scoreline(audit::Task::Time)), [path]) => time_file(rt, path.as_str()),
        (Some(Task::Scoreline(audit::Task::Help)), []) => Ok(println!(rt; "{USAGE}")?),
        (Some(Task::Check), [_, ..]) => checks::check_files(rt, others),
        (Some(Task::Batch), _) => bail!("a batch is one FILE, and stands in no batch"),
        _ => bail!("not a command, or not its words: see scoreline help"),
    }
}
