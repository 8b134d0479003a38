//! The words of the program that has `replay`, `mend` and `check NET` alone.

use crate::mend::mend_text;
use crate::replay::replay_text;
use canboot_check::check_file;
use canboot_faults::{MISUSED, fault_line};
use cm_report::ReportForm;
use std::io::{Read, Write};
use std::rt::Files;

/// Runs `canboot replay`, `canboot mend` or `canboot check NET` on these words, of which the first is the
/// program's name, with these streams, and gives the exit status: that of [`replay_text`], [`mend_text`]
/// or [`check_file`], 2 for any other words.
pub fn run_words<R: Files + AllocGlobal, I: Read, W: Write, E: Write>(
    rt: &R,
    words: &[String],
    input: &mut I,
    out: &mut W,
    err: &mut E,
) -> u8 {
    match words {
        [_, command] if command.as_str() == "replay" => replay_text(rt.alloc(), input, out, err),
        [_, command] if command.as_str() == "mend" => mend_text(rt.alloc(), input, out, err),
        [_, command, network] if command.as_str() == "check" => {
            check_file(rt, network.as_str(), ReportForm::Text, out, err)
        }
        _ => fault_line(
            err,
            MISUSED,
            "this program has no command but 'replay', 'mend' and 'check NET'",
        ),
    }
}
