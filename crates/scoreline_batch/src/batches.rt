use crate::commands::carry_out_one;
use crate::tasks::{Task, task_of};
use reports::read_file;

// Carries out the command in a line, if there is one.
fn carry_out_line(rt: &HostRuntime, line: &str) -> anyhow::Result<()> {
    let words: Vec<String> = line
        .split_whitespace()
        .map(|word| String::from_str(rt.alloc(), word))
        .try_collect(rt.alloc())?;
    carry_out_one(rt, words.as_slice())
}

// Carries out each line of a file as a command. One that fails is told, and the next one follows.
fn carry_out_file(rt: &HostRuntime, path: &str) -> anyhow::Result<()> {
    let bytes = read_file(rt, path)?;
    for line in std::str::from_utf8(bytes.as_slice())?.lines() {
        if line.trim().is_empty() || line.starts_with('#') {
            continue;
        }
        println!(rt; "> {line}")?;
        if let Err(error) = carry_out_line(rt, line) {
            println!(rt; "error: {error}")?;
        }
    }
    Ok(())
}

/// Carries out a command, given by its words, or a batch of them.
pub fn carry_out(rt: &HostRuntime, words: &[String]) -> anyhow::Result<()> {
    match words {
        [word, path] if task_of(word.as_str()) == Some(Task::Batch) => {
            carry_out_file(rt, path.as_str())
        }
        _ => carry_out_one(rt, words),
    }
}
