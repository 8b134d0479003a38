//! Device files of CANopen, electronic data sheets and device configuration files (CiA 306), and the writes that set a device as one says.
//!
//! [`read_items`] reads the lines of a file: each key with its value, in its section. [`number`] and [`object_of`] read what a value and
//! a section's name spell; [`given_item`] and [`value_of`] find what stands under a key. [`settings_of`] gives what the file sets in
//! the device of a node-ID: the writes in an order that devices accept (CiA 301), at most as many as the caller wants, with each value
//! that is none and its [`Reason`]. It stands on the texts of cm_text and on the node-IDs and writes of cm_nmt.
#![tactic(auto)]

mod device_file;
mod device_number;
mod object;
mod settings;
mod settings_values;

pub use device_file::{FileFault, Item, given_item, read_items, value_of};
pub use device_number::{NumberFault, number, object_of};
pub use settings::{MOST_WRITES, Setting, Settings, Unwritten, settings_of};
pub use settings_values::Reason;
