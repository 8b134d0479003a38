//! `canboot run`: a network booted with simulated slaves, its status report and its journal.
//!
//! [`run_text`] is over a reader and three writers, and [`run_text_as`] in any form of report ([`Asked`]). [`run_network`] runs the network of a list that
//! was read, as [`network_of_file`] does; [`refuse_run`] says why there is none. What slaves are simulated that don't agree with the list is
//! said by [`SlaveFaults`], which [`set_fault`] makes of words. It stands on the run of workers, on reports, and on the writing of journals.
#![tactic(auto)]

mod files;
mod halting;
mod losing;
mod running;
mod simulation;
mod slave_faults;
mod slave_options;
mod slave_words;
mod uncompared;

pub use files::{NoNetwork, network_of_file, refuse_run, run_network};
pub use running::{Asked, run_text, run_text_as};
pub use simulation::{LONGEST_RUN, Options};
pub use slave_faults::{AbortedObject, SlaveFaults, SlaveValue, WrongValue};
pub use slave_options::{SlaveOption, set_fault};
