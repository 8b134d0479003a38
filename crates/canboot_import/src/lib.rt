//! `canboot import`: a slave of a network list, made of its device file (CiA 306).
//!
//! [`import_text`] reads an electronic data sheet or a device configuration file, and writes the slave as a table of a network list in
//! TOML: what its device is compared with, and the writes that set it, as the file and the [`ImportWords`] say. What is no write is told in
//! a line of its own, and the text is read back before it is given. [`import_file`] does so over the file of a path. Device files are
//! read by cm_device, network lists by cm_netlist; a fault is told by canboot_faults.
#![tactic(auto)]

mod imported;
mod importing;
mod made;
mod slave_text;

pub use imported::ImportWords;
pub use importing::{LONGEST_DEVICE_FILE, import_file, import_text};
