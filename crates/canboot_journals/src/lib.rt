//! `canboot replay` and `canboot mend`, over the text of a journal.
//!
//! [`replay_text`] makes sure that a journal is a legal history, and writes its status report; [`replay_as_json`] as an object of JSON.
//! [`replay_explained`] says besides what was expected where a journal has its fault; it keeps the journal, which [`read_journal`] reads. [`mend_text`] gives the legal history that a torn journal
//! begins with. Each is over a reader and two writers. [`run_words`] is the command line of the small program that has these commands and
//! `check NET` alone. It stands on the replay of journals, on reports, and on `check`.
#![tactic(auto)]

mod ending;
mod expected;
mod expected_words;
mod explained;
mod mend;
mod program;
mod refusing;
mod replay;

pub use expected::{expected_answer, journal_of_lines};
pub use explained::{Unread, read_journal, refuse_unread, replay_explained};
pub use mend::{mend_text, mends_one, mends_torn};
pub use program::run_words;
pub use refusing::refuse_journal;
pub use replay::{LONGEST_JOURNAL, replay_as_json, replay_text};
