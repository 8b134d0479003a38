//! How told lines are shown: each with its time, on a terminal with words in colour, and with names of nodes in them (own).
//!
//! [`ShownLines`] is a writer that shows what is written to it line by line. [`read_names`] reads the [`Names`] of nodes from a TOML text,
//! or says why it gives none ([`NamesFault`]). It knows of nodes their node-IDs alone (cm_nmt), and of lines their bytes.
#![tactic(auto)]

mod names;
mod shown;

pub use names::{Names, NamesFault, read_names};
pub use shown::ShownLines;
