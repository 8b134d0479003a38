//! What is received of a CAN bus, and whom it is for (CiA 301).
//!
//! A [`Source`] reads lines of frames from an input, of can-utils or of a serial adapter, and gives each frame its place among those
//! that were received ([`Received`], [`FrameCutter`]). [`Routes`] gives each to whom it is for: the answer to a question of a boot to
//! who asks ([`Listening`]), and each error control message of a listed node ([`ControlMessage`]) and what else is said on the bus
//! ([`HeardRemark`]) to the one that watches the network, who is told what other threads do besides ([`Notification`]). Boot-up messages
//! and contradicting answers say from which place on another device may stand at a node.
#![tactic(auto)]

mod boot_ups;
mod bus_name;
mod control_message;
mod doubling;
mod heard_remark;
mod line_counter;
mod line_cutter;
mod listening;
mod notification;
mod received;
mod receiving;
mod routes;
mod strangers;

pub use bus_name::BusName;
pub use control_message::ControlMessage;
pub use heard_remark::HeardRemark;
pub use line_counter::LineCounter;
pub use line_cutter::LineCutter;
pub use listening::{Listening, ReadMark};
pub use notification::Notification;
pub use received::Received;
pub use receiving::{FrameCutter, MOST_READS, ReceivedLine, Source};
pub use routes::{Routes, ms_in};
