//! canboot_bench: the calls that want memory, and the benchmarks.
//!
//! - `canboot_bench gate`: each call that wants memory, and a short run of each benchmark; the gate runs it so, and
//!   compares what it prints.
//! - `canboot_bench memory`: the calls of the word on standard input, which `tests/sweep` refuses memory to.
//!   Where it was refused for these words, that is said, and nothing called.
//! - `canboot_bench calls|lock|read|versions N..`: a benchmark, which a script of `bench/` runs.
//!
//! The status is 1 where an answer isn't allowed, or words say nothing of these.
#![tactic(auto)]

mod bench;
mod closing;
mod memory;

use std::alloc::AllocError;
use std::env;
use std::io::{self, ErrorKind};
use std::process::ExitCode;
use std::rt::{Clock, Env};
use std::sync::Wait;
use std::thread::Threads;

fn words<R: Env + AllocGlobal>(rt: &R) -> io::Result<Vec<String>> {
    match env::args(rt)?.collect::<Vec<String>>(rt.alloc()) {
        Ok(words) => Ok(words),
        Err(_) => Err(io::Error::from(AllocError)),
    }
}

/// Does what the words say. `None` where something isn't as it has to be.
fn run<R: Input + Clock + Print + AllocGlobal + Wait + Threads + Drop + Copy + Send + Sync>(
    rt: &R,
    words: &[String],
) -> Option<()> {
    match words.first()?.as_str() {
        "gate" => {
            memory::call_each(rt)?;
            bench::run_briefly(rt)
        }
        "memory" => memory::call_one(rt),
        _ => bench::measure(rt, words),
    }
}

fn main(rt: HostRuntime) -> io::Result<ExitCode> {
    let words = match words(&rt) {
        Ok(words) => words,
        Err(error) if error.kind() == ErrorKind::OutOfMemory => {
            println!(rt; "words: out of memory")?;
            return Ok(ExitCode::SUCCESS);
        }
        Err(error) => return Err(error),
    };
    let done = run(&rt, words.as_slice().get(1..).unwrap_or(&[]));
    Ok(if done.is_some() {
        ExitCode::SUCCESS
    } else {
        ExitCode::FAILURE
    })
}
