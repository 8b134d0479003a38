ghost use Rattle.std.specs.Prelude.{◌≡◌, ℕ, IfNone, IfSome};
ghost use Rattle.cm_can.specs.Remarks.{IsMessage, IsRemark};
ghost use Rattle.cm_can.specs.declared.remark.Remark.{Remark as Told};
ghost use Rattle.cm_nmt.specs.declared.frame.Frame.{Frame as NmtFrame};

use crate::can_error::CanError;
use crate::control::error_control;
use crate::emergency::{Emergency, read_emergency};
use crate::frame::{CanFrame, Kind};
use cm_nmt::{Frame, NodeId};

/// What a bus says beside the answers and the states of slaves.
#[derive(Clone, Copy, Debug, PartialEq, Eq)]
pub enum Remark {
    /// The node sent an emergency message.
    Emergency(NodeId, Emergency),
    /// The node sent its boot-up message.
    BootUp(NodeId),
    /// This NMT message was sent, by whichever master.
    Message(Frame),
    /// The interface says this of the bus.
    Error(CanError),
    /// Two answers to one question came from this node-ID, and they differ: two devices have it.
    Doubled(NodeId),
}

/// The NMT message of a frame: identifier 000h and the two bytes of one. `None` exactly where the frame is none.
fn nmt_message(frame: &CanFrame) -> Option<Frame>
    ensures some { IfSome result (λ m. IsMessage m frame.now) }
    ensures none { IfNone result ((m : NmtFrame) → IsMessage m frame.now → ⊥) }
{
    if frame.kind != Kind::Data || frame.id.number != 0 {
        return None;
    }
    Frame::read(frame.data())
}

/// The boot-up message of a frame: of the node that sent it. `None` exactly where the frame is none.
fn boot_up(frame: &CanFrame) -> Option<NodeId>
    ensures some { IfSome result (λ node. IsRemark frame.now (Told.BootUp node)) }
    ensures none { IfNone result ((node : ℕ) → IsRemark frame.now (Told.BootUp node) → ⊥) }
{
    let Some(message) = error_control(frame) else {
        return None;
    };
    if message.byte == 0 {
        Some(message.node)
    } else {
        None
    }
}

/// What a frame says beside the answers and the states of slaves. `None` exactly where it says nothing of that: a message with too
/// few or too many bytes says nothing, and no remote frame does.
pub fn read_remark(frame: &CanFrame) -> Option<Remark>
    ensures some { IfSome result (IsRemark frame.now) }
    ensures none { IfNone result ((r : Told) → IsRemark frame.now r → ⊥) }
{
    if let Some((node, emergency)) = read_emergency(frame) {
        return Some(Remark::Emergency(node, emergency));
    }
    if let Some(node) = boot_up(frame) {
        return Some(Remark::BootUp(node));
    }
    match nmt_message(frame) {
        Some(message) => Some(Remark::Message(message)),
        None => None,
    }
}
