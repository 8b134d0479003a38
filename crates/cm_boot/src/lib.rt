//! The boot of one slave by the NMT master (CiA 302-2, boot slave): given a network list, a node-ID
//! and any [`Bus`], [`boot_slave`] asks the questions of the boot in their order and gives the
//! answers; [`judge`] gives the error status that they come to. It allocates nothing.
//!
//! ```text
//! let answers = boot_slave(&mut bus, &network, id);
//! let status = judge(&network, id, &answers);
//! ```
//!
//! Whoever asks by himself takes a [`Boot`], which says what to ask next. Two tables over the
//! finished record, in the crate cm_nmt, say which answers are those of a boot and which status
//! comes of them; that the boot, question by question, ends with just these records and statuses is
//! a clause of [`judge`].
#![tactic(auto)]

mod boot;
mod bus;
mod question;
mod verdict;

pub use boot::{Boot, WrongAnswer};
pub use bus::{Bus, boot_slave};
pub use cm_nmt::{Answers, Got, Heard, Status};
pub use question::{Answer, Question, Step};
pub use verdict::{judge, judge_terms};
