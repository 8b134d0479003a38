//! The exit statuses of canboot, and what it says of a fault.
//!
//! A [`Fault`] has what it is, where it is, what explains it ([`Explanation`]), and the exit status that it comes to; [`tell`] writes it as
//! a line that begins with `canboot: `, with lines behind it that explain it ([`ExplainedLines`]), or for other programs as an object of
//! JSON (RFC 8259). Of the faults that several commands have, each function tells one, and gives its exit status. [`is_list`] says whether
//! a file that is to be written is the one that is read. It stands on the network list's reading, whose faults it tells.
#![tactic(auto)]

mod explaining;
mod fault;
mod json_text;
mod same_file;
mod status;
mod telling;

pub use explaining::{ExplainedLines, Explanation, Unexplained};
pub use fault::{Fault, Place, tell};
pub use same_file::is_list;
pub use status::{DONE, FAILED, MISUSED, REFUSED};
pub use telling::{
    fault_line, input_fault_line, input_words, output_status, read_fault, tell_explained,
    tell_input, tell_list, tell_list_explained, tell_output, tell_unmade, tell_unopened,
    tell_words, unmade_words, unopened_words,
};
