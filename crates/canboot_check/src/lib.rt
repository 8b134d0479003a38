//! `canboot check NET`: how many slaves a network list has, in a line or as an object of JSON.
//!
//! [`check_text`] and [`check_as_json`] are over a reader and two writers, [`check_file`] in either form over the file of a path. It stands on
//! the reading of network lists, and on what tells their faults.
#![tactic(auto)]

mod check;

pub use check::{check_as_json, check_file, check_text, count_kept, count_mandatory, put_check};
