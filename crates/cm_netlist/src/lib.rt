//! The network list of an NMT master: what the objects 1F80h, 1F81h, 1F82h and 1F84h to 1F89h say of the network and of each slave.
//!
//! The objects are those of CiA 302-2; with them stand the writes that configure a slave. A [`Network`] keeps what makes a list
//! sensible: its own node-ID is no slave, each entry has 1F81h bit 0 and a node-ID of 1 to 127, and the value of each write fits the
//! write's size. [`Network::from_toml`] reads a list from TOML, and [`read_list`] one from an input; where a fault applies,
//! [`fault_place`] says. [`SlaveWarning`] is what a slave is warned of, and [`warn`] tells what a network is warned of before it is
//! booted. Of several workers, [`worker_of`] says which boots which slave.
//!
//! It has some 100 functions and is one subject: the keys of a list are stated once, and whoever reads them, refuses them, says where a
//! fault stands or warns of a value goes by that one table.
#![tactic(auto)]

mod document;
mod entry;
mod fault;
mod list_faults;
mod list_keys;
mod list_reading;
mod list_text;
mod list_values;
mod network;
mod read_back;
mod start_warnings;
mod warning;
mod workers;

pub use cm_nmt::{Assignment, Startup, Terms, Write};
pub use entry::SlaveEntry;
pub use fault::NetFault;
pub use list_faults::{FaultPlace, Spot, fault_place};
pub use list_keys::{IntegerKey, slave_integers, top_integers};
pub use list_reading::{CheckFault, LONGEST_LIST, list_of, read_list};
pub use list_text::{put_comment, put_identity, put_key, put_name};
pub use network::Network;
pub use read_back::is_read_back;
pub use start_warnings::{put_started_warning, put_warning, tell_warnings, warn};
pub use warning::{SlaveWarning, slave_is_warned};
pub use workers::{place_of, worker_at, worker_of};
