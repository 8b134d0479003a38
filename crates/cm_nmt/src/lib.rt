//! The tables that the NMT master goes by, as types (CiA 301, CiA 302-2). Nothing here takes memory but [`KeptFrames`].
//!
//! - Node-IDs, NMT states and commands, the two bytes of an NMT message and the byte of an error
//!   control message. Each table is read both ways: `code` and `from_code`, `specifier` and
//!   `from_specifier`, `bytes` and `Frame::read`. A [`Wire`] is what NMT messages are handed to;
//!   [`KeptFrames`] keeps them.
//! - NMT startup (1F80h), slave assignment (1F81h), a write that configures a slave, and what is
//!   listed of one slave.
//! - The tables of a boot (boot slave): what a slave answered, question by question ([`Answers`]),
//!   which answers are those of a boot, and the error status that they come to
//!   ([`judged_by_tables`]). A [`Field`] is what one question fills, [`condition`] says where that
//!   question is asked. They speak of the finished record; how it comes about, cm_boot says.
//!
//! ```text
//! let status = judged_by_tables(network.terms(id).as_ref(), &answers);
//! ```
#![tactic(auto)]

mod answers;
mod assignment;
mod command;
mod conditions;
mod field;
mod frame;
mod got;
mod heard;
mod judging;
mod kept;
mod node_id;
mod signal;
mod startup;
mod state;
mod status;
mod terms;
mod verdict;
mod wire;
mod write;

pub use answers::{Answers, count_ids};
pub use assignment::Assignment;
pub use command::Command;
pub use conditions::{condition, is_complete};
pub use field::{Field, fields};
pub use frame::{Frame, Target};
pub use got::Got;
pub use heard::Heard;
pub use kept::KeptFrames;
pub use node_id::NodeId;
pub use signal::Signal;
pub use startup::Startup;
pub use state::NmtState;
pub use status::Status;
pub use terms::Terms;
pub use verdict::{judged_by_tables, status_of};
pub use wire::Wire;
pub use write::Write;
