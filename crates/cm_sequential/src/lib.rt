//! The sequential NMT manager: it answers a call after any history of calls as the definitions of
//! cm_history answer it, from a copy of the network list and a state of fixed size; and the frames
//! that its orders send. It takes no memory.
//!
//! And which histories of calls are legal: replayed by the manager, each entry has the manager's
//! answer. [`replay`] takes all entries at once, and no memory; a [`CompactReplay`] takes them in parts
//! and keeps of each what a status report needs.
//!
//! It has over 100 functions and is one subject: a replay is the manager again, asked each call of the history, and stands on the same
//! state.
#![tactic(auto)]

mod answering;
mod compact;
mod effects;
mod listing_copy;
mod lists;
mod manager;
mod replaying;
mod sending;
mod slaves;
mod state;
mod statuses;

pub use compact::{Cause, CompactReplay, Untaken};
pub use lists::push_or;
pub use manager::Manager;
pub use replaying::{replay, replay_to_fault};
pub use sending::frames;
pub use statuses::note_status;
