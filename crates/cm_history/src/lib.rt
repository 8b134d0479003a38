//! Histories of calls to the NMT master: the calls with their replies, refusals and orders, a set of
//! node-IDs as the open slaves are, and, in specs/, what a history says, what the answer to a call is
//! after it, and the frames that orders send; and a [`Recorder`], what each entry is handed to before its frames are sent;
//! and why a call isn't made ([`CallFault`]). Nothing here takes memory.
//!
//! What holds in every legal history stands here as laws over the definitions alone: no boot starts a
//! slave of wrong identity, the network becomes operational only with every mandatory slave booted,
//! and the machine by which the manager is programmed shows its history. And a law of every history: a
//! read is answered with what the history shows of the node.
#![tactic(auto)]

mod call;
mod call_fault;
mod laws;
mod node_set;
mod phase;
mod recorder;
mod refusal;
mod same_call;
mod slave;

pub use call::{ALL_NODES, Call, Entry, MOST_ENTRIES, Orders, Reply, abort_code};
pub use call_fault::CallFault;
pub use laws::{
    boots_start_rightly, machine_shows_its_history, network_becomes_operational_rightly, reads_show,
};
pub use node_set::NodeSet;
pub use phase::Phase;
pub use recorder::{Recorder, Unrecorded};
pub use refusal::Refusal;
pub use same_call::is_same_call;
pub use slave::{MISSING, Slave, UNKNOWN, obeyed, state_reported};
