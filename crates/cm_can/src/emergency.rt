ghost use Rattle.std.specs.Prelude.{◌≡◌, ℕ, IfNone, IfSome};
ghost use Rattle.cm_can.specs.Emergencies.{IsEmergency, class_words, group_words, words_of};
ghost use Rattle.cm_can.specs.declared.emergency.Emergency.{Emergency as Message};

use crate::frame::{CanFrame, Kind};
use cm_nmt::NodeId;

/// An emergency message (CiA 301, emergency object).
#[derive(Clone, Copy, Debug, PartialEq, Eq)]
pub struct Emergency {
    /// The error code; 0 where there is no error any more.
    pub code: u16,
    /// The error register, object 1001h.
    pub register: u8,
    /// What the manufacturer of the device says of the error.
    pub specific: [u8; 5],
}

/// What the codes with this first digit have in common.
fn group_words(digit: u16) -> &'static str
    ensures { result.now ≡ group_words digit }
{
    match digit {
        0x2 => "current",
        0x3 => "voltage",
        0x4 => "temperature",
        0x5 => "device hardware",
        0x6 => "device software",
        0x7 => "additional modules",
        0x8 => "monitoring",
        _ => "an unknown error",
    }
}

/// What the codes with these first two digits have in common.
fn class_words(class: u16) -> &'static str
    ensures { result.now ≡ class_words class }
{
    match class {
        0x00 => "no error, or reset",
        0x10 => "generic error",
        0x21 => "current at the device's input",
        0x22 => "current inside the device",
        0x23 => "current at the device's output",
        0x31 => "mains voltage",
        0x32 => "voltage inside the device",
        0x33 => "output voltage",
        0x41 => "ambient temperature",
        0x42 => "device temperature",
        0x61 => "internal software",
        0x62 => "user software",
        0x63 => "data set",
        0x81 => "communication",
        0x82 => "protocol error",
        0x90 => "external error",
        0xF0 => "additional functions",
        0xFF => "device specific",
        _ => group_words(class / 16),
    }
}

/// What a code says.
fn words_of(code: u16) -> &'static str
    ensures { result.now ≡ words_of code }
{
    match code {
        0x0000 => "no error any more",
        0x8110 => "CAN overrun",
        0x8120 => "CAN in error passive mode",
        0x8130 => "life guard error or heartbeat error",
        0x8140 => "recovered from bus off",
        0x8150 => "CAN identifier collision",
        0x8210 => "PDO not processed due to length error",
        0x8220 => "PDO length exceeded",
        0x8230 => "multiplexed PDO not processed",
        0x8240 => "unexpected SYNC data length",
        0x8250 => "RPDO timeout",
        _ => class_words(code / 256),
    }
}

impl Emergency {
    /// What its code says: its own meaning, else that of its class (CiA 301).
    pub fn words(&self) -> &'static str
        ensures { result.now ≡ words_of self.now.code }
    {
        words_of(self.code)
    }
}

/// The emergency message of a frame, and the node that sent it: identifier 080h + node-ID, and eight bytes. `None` exactly where
/// the frame is none.
pub fn read_emergency(frame: &CanFrame) -> Option<(NodeId, Emergency)>
    ensures some { IfSome result (λ e. IsEmergency e.0 e.1 frame.now) }
    ensures none { IfNone result ((node : ℕ) (e : Message) → IsEmergency node e frame.now → ⊥) }
{
    if frame.kind != Kind::Data || frame.id.number < 0x080 || frame.id.number > 0x0FF {
        return None;
    }
    let node = NodeId::new((frame.id.number - 0x080) as u8)?;
    let [low, high, register, a, b, c, d, e] = frame.data() else {
        return None;
    };
    let emergency = Emergency {
        code: u16::from(*high) * 256 + u16::from(*low),
        register: *register,
        specific: [*a, *b, *c, *d, *e],
    };
    Some((node, emergency))
}
