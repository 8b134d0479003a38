//! `canboot replay`, `canboot mend` and `canboot check NET` as a program of their own.

use canboot_faults::{FAILED, fault_line, read_fault};
use canboot_journals::run_words;
use std::env;
use std::io::{self, BufWriter, Write};
use std::rt::{Env, Files};

/// Runs `canboot replay`, `canboot mend` or `canboot check NET` on the words of the command line and the
/// standard input and output, with `err` for what goes to standard error, and gives the exit status.
pub fn run<R: Env + Files + Print + Input + AllocGlobal, E: Write>(rt: &R, err: &mut E) -> u8 {
    let args = match env::args(rt) {
        Ok(args) => args,
        Err(error) => return read_fault(err, error.kind()),
    };
    let Ok(words) = args.collect::<Vec<String>>(rt.alloc()) else {
        return fault_line(err, FAILED, "out of memory");
    };
    let Ok(mut out) = BufWriter::new(rt.alloc(), io::writer(rt)) else {
        return fault_line(err, FAILED, "out of memory");
    };
    run_words(rt, words.as_slice(), &mut rt.reader(), &mut out, err)
}
