//! What a live run tells of what happens: in words to its operator, and as events to other programs.
//!
//! A [`Teller`] tells both at once: what the bus says, what the steps of the watch come to, which slaves are given up ([`GivenUps`]),
//! what can't be written, and the end of the run. [`Events`] hands each event as a line to a thread of its own, which writes it
//! ([`start_events`]), so that nobody who reads there keeps the run waiting.
//!
//! The words are those of `cm_words`, the lines of events those of `cm_events`.
#![tactic(auto)]

mod events;
mod following;
mod given_up;
mod hearing;
mod steps_told;
mod teller;

pub use events::{Events, LastLines, start_events};
pub use given_up::{Boots, GivenUps};
pub use hearing::{count_beats, count_sent};
pub use teller::Teller;
