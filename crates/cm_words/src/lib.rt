//! What a live run tells of what happens, in words: entries, slaves, the network, what else the bus says (own).
//!
//! [`EntryWords`] says an entry of the history, and [`tell_entry`] writes its line; [`tell_told`] writes what an operator is told behind
//! it.
//! [`say_notice`] says what the bus says, and the other values here are one line each, as [`GivenUp`], [`TimeOver`] and [`RunEnds`].
//! [`Nodes`] are nodes as they stand in a line: those that are open ([`open_nodes`]), that run ([`running_by`]), that were started too
//! ([`started_too`]). What is told, and when, cm_telling decides; why a line that was typed asks for nothing, cm_operator says.
#![tactic(auto)]

mod abort_words;
mod judged;
mod lines;
mod nodes;
mod notices;
mod telling;
mod words;

pub use lines::{Bad, GivenUp, LeftOut, NoBootOf, NoFrames, RunEnds, TimeOver};
pub use nodes::{Nodes, open_nodes, running_by, started_too};
pub use notices::say_notice;
pub use telling::{ENTRIES_LEFT, NEARLY_FULL, given_up, say, say_if, tell_entry, tell_told};
pub use words::{EntryWords, has_words};
