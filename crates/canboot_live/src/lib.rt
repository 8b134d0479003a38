//! `canboot live`: a network is booted and watched on a CAN bus.
//!
//! [`live_text`] does it over any reader and writer ([`LiveEnds`], [`LiveOutputs`]): it reads the network list, starts the threads, and
//! closes the register once the run has ended; [`live_told`] over the files that words of the command line name, with the lines that it
//! tells written by a thread of their own.
//!
//! The turns of the run are those of `canboot_turns`, its files those of `canboot_live_files`.
#![tactic(auto)]

mod beside;
mod ends;
mod files;
mod inputs;
mod live;
mod recorded;
mod shown;
mod threads;
mod told_lines;

pub use ends::{Followed, LiveEnds, LiveIo, LiveOutputs, LiveTrace};
pub use live::{LONGEST_LIVE, live_text};
pub use told_lines::live_told;
