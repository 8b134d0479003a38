ghost use Rattle.std.specs.Prelude.{◌≡◌, ◌+◌, ℕ};
ghost use Rattle.cm_can.specs.Frames.{IsData, IsRemote};
ghost use Rattle.cm_can.specs.Requests.{IsToNode};
ghost use Rattle.cm_can.specs.Sdo.{sdo_bytes};

use crate::frame::{CanFrame, CanId};
use cm_nmt::NodeId;

/// A frame to one node: what is sent to its SDO server, or the request of its state (CiA 301). Whoever makes one has to prove that, so it
/// is never an NMT message.
#[derive(Clone, Copy, Debug, PartialEq, Eq)]
pub struct Request {
    pub frame: CanFrame,
    ghost to_node: { IsToNode frame },
}

impl Request {
    /// What is sent to the SDO server of the node: these eight bytes.
    pub(crate) fn sdo(node: NodeId, bytes: [u8; 8]) -> Request
        ensures { IsData result.frame (1536 + node) bytes }
    {
        Request {
            frame: CanFrame::full(
                CanId {
                    number: 0x600 + u16::from(node.get()),
                },
                bytes,
            ),
        }
    }

    /// The request of the state of the node.
    pub(crate) fn guard(node: NodeId) -> Request
        ensures { IsRemote result.frame (1792 + node) }
    {
        Request {
            frame: CanFrame::remote(CanId {
                number: 0x700 + u16::from(node.get()),
            }),
        }
    }
}
