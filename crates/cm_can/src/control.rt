ghost use Rattle.std.specs.Prelude.{◌≡◌, ◌+◌, ℕ, IfNone, IfSome, [], ◌∷◌};
ghost use Rattle.cm_nmt.specs.Frames.{frame_bytes};
ghost use Rattle.cm_can.specs.Control.{IsErrorControl};
ghost use Rattle.cm_can.specs.Frames.{IsData, IsRemote};

use crate::frame::{CanFrame, CanId, Kind};
use crate::request::Request;
use cm_nmt::{Frame, NodeId};

/// The frame of an NMT message: identifier 000h and its two bytes.
pub fn nmt_frame(frame: Frame) -> CanFrame
    ensures { IsData result 0 (frame_bytes frame) }
{
    let [specifier, node] = frame.bytes();
    CanFrame {
        id: CanId { number: 0 },
        kind: Kind::Data,
        len: 2,
        bytes: [specifier, node, 0, 0, 0, 0, 0, 0],
    }
}

/// The frame that asks the node for its state: a remote frame with identifier 700h + node-ID.
pub(crate) fn guard_request(node: NodeId) -> Request
    ensures { IsRemote result.frame (1792 + node) }
{
    Request::guard(node)
}

/// An error control message: whose it is, and its byte, which [`cm_nmt::Signal::read`] reads.
#[derive(Clone, Copy, Debug, PartialEq, Eq)]
pub struct ErrorControl {
    pub node: NodeId,
    pub byte: u8,
}

/// The frame of an error control message: identifier 700h + node-ID and its byte.
pub(crate) fn error_control_frame(message: ErrorControl) -> CanFrame
    ensures { IsErrorControl message.node message.byte result }
{
    let id = CanId {
        number: 0x700 + u16::from(message.node.get()),
    };
    CanFrame::with(id, &[message.byte])
}

/// The error control message of a frame: a heartbeat, a boot-up message or the answer to a guard request;
/// `None` exactly where the frame is none.
pub fn error_control(frame: &CanFrame) -> Option<ErrorControl>
    ensures some { IfSome result (λ e. IsErrorControl e.node e.byte frame.now) }
    ensures none { IfNone result ((node : ℕ) (byte : ℕ) → IsErrorControl node byte frame.now → ⊥) }
{
    if frame.kind != Kind::Data || frame.id.number < 0x700 || frame.id.number > 0x77F {
        return None;
    }
    let node = NodeId::new((frame.id.number - 0x700) as u8)?;
    let [byte] = frame.data() else {
        return None;
    };
    Some(ErrorControl { node, byte: *byte })
}
