//! canboot: the NMT master of a CANopen network, on the command line.
//!
//! - `scan` makes a network list of the devices on a bus, or compares them with one.
//! - `import` makes a slave of a network list of a device file.
//! - `check` reads a network list, and says how many slaves it lists, or what it holds.
//! - `run` boots the network of a list with simulated slaves, prints its status report, and writes its journal.
//! - `live` boots the devices on a CAN bus, watches them, and takes the operator's requests.
//! - `replay` makes sure that a journal is a legal history, and prints its status report.
//! - `mend` gives the legal history that a torn journal begins with.
//! - `tell` tells a journal in words, and `picture` draws it.
#![tactic(auto)]

use canboot_live_files::HostFiles;
use std::process::ExitCode;

fn main(rt: HostRuntime) -> ExitCode {
    canboot::run(&rt, &mut rt.stderr(), HostFiles::new(rt))
}
