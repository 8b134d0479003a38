//! Measures the manager and its register, on 126 fully configured slaves.
//!
//! - `calls N`: nanoseconds for one call of the sequential manager, over about N calls of operators and boots; the best of
//!   seven runs.
//! - `lock N THREADS`, `read N READERS`, `versions N`: nanoseconds for one call of a register whose slaves are booted again and
//!   again: by 1 to 16 threads; beside readers, with how many reads per second these make together; beside one who publishes
//!   versions, with what it takes to take a batch of 64 entries, and to tell and publish one. N calls are made by each caller.
//!   Each is the median of fifteen rounds, and the best of them; a round has a register of its own, of at most 1,048,575 calls.

mod beside;
mod caller;
mod calls;
mod mix;
mod network;
mod round;
mod tape;
mod timing;

use std::rt::Clock;
use std::sync::Wait;
use std::thread::Threads;

/// A short run of each measure, which says what it made and no figures.
pub fn run_briefly<R: Clock + Print + AllocGlobal + Threads + Wait + Drop + Copy + Send + Sync>(
    rt: &R,
) -> Option<()> {
    calls::run_briefly(rt)?;
    beside::run_briefly(rt)
}

/// The number at this place; 0 where the words end before it, and `None` where the word is no number.
fn number_at(words: &[String], place: usize) -> Option<u32> {
    match words.get(place) {
        Some(word) => word.as_str().parse().ok(),
        None => Some(0),
    }
}

/// Measures what the first word says.
pub fn measure<R: Clock + Print + AllocGlobal + Threads + Wait + Drop + Copy + Send + Sync>(
    rt: &R,
    words: &[String],
) -> Option<()> {
    let first = number_at(words, 1)?;
    let second = number_at(words, 2)?;
    match words.first()?.as_str() {
        "calls" => calls::measure(rt, first as usize),
        word => beside::measure(rt, word, first, u16::try_from(second).ok()?),
    }
}
