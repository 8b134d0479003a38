use cm_history::{CallFault, Entry};
use cm_nmt::NodeId;

/// What the threads of a live run tell the one that watches the network.
#[derive(Debug, Drop)]
pub enum Notification {
    /// An entry of the history was recorded, before which so many stand.
    Entered(u64, Entry),
    /// A worker's attempts at a slave have ended; where a call couldn't be made, why.
    Ended(NodeId, Option<CallFault>),
    /// The operator typed a line, which was sent before this is told.
    Typed,
    /// The operator types no more.
    NoMoreTyped,
    /// 16 lines were received, and none of them is a frame. This is told once.
    NoFrames,
    /// Nothing is received any more: the input of frames has ended, or a read of it has failed.
    NoMoreHeard,
}
