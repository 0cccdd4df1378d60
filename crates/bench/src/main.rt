//! How long those loads take that no command of the program shows: of a shard, of the line and of the running store.
//! The first argument names the load; without one all of them are measured. `checks/bench` measures the program;
//! `bench/line_plain.rs` is the yardstick of the line, in plain Rust.
//!
//! Standard output has what was counted, which is the same on each run; the times are written to standard error.
#![tactic(auto)]

mod asked;
mod lines;
mod shards;
mod stores;
mod timing;

use anyhow::Result;
use asked::{LOADS, Load, read_words};
use std::env;
use std::process::ExitCode;

/// The exit status if the arguments name no load.
const BAD_WORDS: u8 = 2;

fn main(rt: HostRuntime) -> Result<ExitCode> {
    let words: Vec<String> = env::args(&rt)?.skip(1).collect(rt.alloc())?;
    let Some(asked) = read_words(words.as_slice()) else {
        eprintln!(rt; "usage: bench [shard [PUSHES] | line | store [WRITES READS]]")?;
        return Ok(ExitCode::from(BAD_WORDS));
    };
    for load in LOADS {
        if !asked.includes(load) {
            continue;
        }
        match load {
            Load::Shard => shards::measure(&rt, asked.pushes)?,
            Load::Line => lines::measure(&rt, rt.alloc())?,
            Load::Store => stores::measure(&rt, rt.alloc(), asked.counts)?,
        }
    }
    Ok(ExitCode::SUCCESS)
}
