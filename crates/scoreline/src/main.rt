//! The score line's program: audits recordings, and measures how fast a text is walked.
#![tactic(auto)]

use anyhow::bail;
use audit::{Task, task_of};
use reports::{audit_file, time_file};
use std::env;

const USAGE: &str =
    "scoreline audit FILE   says of each line of FILE how many symbols it has, or why it is refused
scoreline time FILE    walks FILE as one text, and says how long a symbol takes
scoreline help         prints this";

fn run(rt: &HostRuntime) -> anyhow::Result<()> {
    let words: Vec<String> = env::args(rt)?.skip(1).collect(rt.alloc())?;
    let [word, others @ ..] = words.as_slice() else {
        bail!("no command: see scoreline help");
    };
    match (task_of(word.as_str()), others) {
        (Some(Task::Audit), [path]) => audit_file(rt, path.as_str()),
        (Some(Task::Time), [path]) => time_file(rt, path.as_str()),
        (Some(Task::Help), []) => Ok(println!(rt; "{USAGE}")?),
        _ => bail!("not a command, or not one FILE: see scoreline help"),
    }
}

fn main(rt: HostRuntime) -> anyhow::Result<()> {
    run(&rt)
}
