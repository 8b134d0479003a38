//! `canboot check --explain`: a network list in words.
//!
//! What the manager does, what a boot asks each slave in its order and how the slave is watched then, and what is warned of. [`explain_text`]
//! is over a reader and two writers, [`explain_file`] over the file of a path. It stands on `check`, and on what explains a list's fault.
#![tactic(auto)]

mod explain;
mod explaining;
mod slave_lines;

pub use explain::{explain_file, explain_text};
