//! `canboot tell`: a journal in the words of a live run.
//!
//! [`tell_text`] is over a reader and two writers. What is told of an entry is what a live run tells of it. It stands on the replay of journals,
//! and on the words of a live run.
#![tactic(auto)]

mod history;
mod tell;

pub use tell::tell_text;
