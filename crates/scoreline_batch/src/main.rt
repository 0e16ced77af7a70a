//! The score line's program: audits recordings, checks tables, measures how fast a text is walked, and carries out
//! batches of commands.
#![tactic(auto)]

mod batches;
mod checks;
mod commands;
mod tasks;

use std::env;

fn run(rt: &HostRuntime) -> anyhow::Result<()> {
    let words: Vec<String> = env::args(rt)?.skip(1).collect(rt.alloc())?;
    batches::carry_out(rt, words.as_slice())
}

fn main(rt: HostRuntime) -> anyhow::Result<()> {
    run(&rt)
}
