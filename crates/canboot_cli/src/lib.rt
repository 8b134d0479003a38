//! The command line of canboot: what its words ask for, and the texts of help, version and usage (own).
//!
//! [`read_words`] gives the [`Action`] that the words ask for, with what belongs to it ([`RunWords`], [`ScanWords`], [`LiveWords`]), or
//! what is printed in its place, and whether that is a fault ([`NoAction`]). Each number lies in the range that its option takes. Nothing
//! is opened here: where a bus is, and how it is talked to, are values of cm_bus, and the forms of a report those of cm_report. On what
//! commands run that talk over a bus is said by [`Host`].
#![tactic(auto)]

mod command_line;
mod explain_words;
mod help;
mod help_check;
mod help_import;
mod help_live;
mod help_mend;
mod help_picture;
mod help_replay;
mod help_run;
mod help_scan;
mod help_tell;
mod host;
mod importing;
mod journals;
mod live;
mod running;
mod scanning;

pub use command_line::{
    Action, CheckOutput, JournalPath, LivePaths, LiveWords, NoAction, ReplayOutput, read_words,
};
pub use host::Host;
pub use running::{RunWords, SlaveWords};
pub use scanning::{ScanOutput, ScanWords};
