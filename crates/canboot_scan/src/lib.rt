//! `canboot scan`: the network list of the devices on a CAN bus, and how they differ from one.
//!
//! Workers ask nodes side by side what they are. [`scan_text`] writes a network list of the devices that answered, in its
//! [`ListForm`]; [`scan_check`] writes how they differ from a list. Both are over any reader and writer ([`Scan`],
//! [`ScanEnds`]); [`scan_file`] is over the files that words of the command line name.
//!
//! It stands on the bus alone (`cm_bus`): it makes no call of a manager, and sends no NMT message.
#![tactic(auto)]

mod asking;
mod comparing;
mod device;
mod device_name;
mod difference;
mod differences;
mod doubles;
mod files;
mod finding;
mod found;
mod list_text;
mod listing;
mod profile;
mod scan;
mod scanned;

pub use files::scan_file;
pub use scan::{ListForm, Scan, ScanEnds, scan_check, scan_text};
