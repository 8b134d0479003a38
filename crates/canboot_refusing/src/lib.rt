//! Where a network list or a file of names has its fault, in words, and why a file can't be opened, read or written.
//!
//! [`refuse_explained`] tells the fault of a list with where in the text it applies; [`refuse_names`] does so of names. Of a file that
//! can't be opened, read or written, its path and the system's reason are told; [`read_file`] reads one to its end. Each is told in lines
//! or as an object of JSON. It stands on what tells a fault, and on the reading of lists and names.
#![tactic(auto)]

mod fault_line;
mod fault_words;
mod faulty_write;
mod file_fault;
mod file_reading;
mod names_fault;
mod refusing;
mod toml_text;

pub use file_fault::{read_fault_of, write_fault_of};
pub use file_reading::read_file;
pub use refusing::{refuse_explained, refuse_names};
