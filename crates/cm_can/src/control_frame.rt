ghost use Rattle.std.specs.Prelude.{◌≡◌, ◌+◌, ◌≤◌, ℕ};
ghost use Rattle.cm_can.specs.Control.{IsErrorControl};
ghost use Rattle.cm_can.specs.Frames.{IsRemote};

use crate::control::{ErrorControl, error_control_frame, guard_request};
use crate::frame::CanFrame;
use cm_nmt::NodeId;

/// A frame of error control: a heartbeat, a boot-up message, or the request of a state (CiA 301). Whoever makes one has to prove that, so it
/// is never an NMT message.
#[derive(Clone, Copy, Debug, PartialEq, Eq)]
pub struct ControlFrame {
    pub frame: CanFrame,
    ghost from: { 0x0701 ≤ frame.id.number },
    ghost upto: { frame.id.number ≤ 0x077F },
}

impl ControlFrame {
    /// The error control message of a node: its heartbeat, or its boot-up message.
    pub fn beat(message: ErrorControl) -> ControlFrame
        ensures { IsErrorControl message.node message.byte result.frame }
    {
        ControlFrame {
            frame: error_control_frame(message),
        }
    }

    /// The request of the state of a node.
    pub fn guard(node: NodeId) -> ControlFrame
        ensures { IsRemote result.frame (1792 + node) }
    {
        ControlFrame {
            frame: guard_request(node).frame,
        }
    }
}
