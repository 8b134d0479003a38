ghost use Rattle.std.specs.Prelude.{◌≡◌, ◌+◌, ℕ, if◌then◌else◌, IfNone, IfSome, IsFalse, IsSome, IsTrue};
ghost use Rattle.cm_can.specs.Sdo.{IsFromClient, IsFromServer, uploaded};
ghost use Rattle.cm_can.specs.Questions.{download_answer, upload_answer};

use crate::frame::{CanFrame, Kind};
use crate::request::Request;
use cm_boot::Answer;
use cm_nmt::NodeId;

/// The abort code of a client that has waited in vain (CiA 301, SDO protocol timed out).
pub const TIMED_OUT: u32 = 0x0504_0000;

/// The abort code of a client that takes no segments (CiA 301, command specifier not valid or unknown).
pub const NO_SEGMENTS: u32 = 0x0504_0001;

/// The commands of a client: an upload is asked for, a segment of one, a transfer is aborted.
const UPLOAD: u8 = 0x40;

const SEGMENT: u8 = 0x60;

const ABORT: u8 = 0x80;

/// A frame from the client to the node: a command about an object of its dictionary, and four bytes of data.
pub(crate) fn sdo_request(node: NodeId, command: u8, index: u16, sub: u8, word: u32) -> Request
    ensures { IsFromClient node command index sub word result.frame }
{
    let [low, high] = index.to_le_bytes();
    let [a, b, c, d] = word.to_le_bytes();
    Request::sdo(node, [command, low, high, sub, a, b, c, d])
}

/// The request to upload an object.
pub fn upload_request(node: NodeId, index: u16, sub: u8) -> Request
    ensures { IsFromClient node 64 index sub 0 result.frame }
{
    sdo_request(node, UPLOAD, index, sub, 0)
}

/// The request of the next segment of an upload, with its toggle bit.
pub fn segment_request(node: NodeId, toggle: bool) -> Request
    ensures { IsFromClient node (if toggle then 112 else 96) 0 0 0 result.frame }
{
    let command = if toggle { SEGMENT | 0x10 } else { SEGMENT };
    sdo_request(node, command, 0, 0, 0)
}

/// The client's abort of a transfer, with its code.
pub fn abort_frame(node: NodeId, index: u16, sub: u8, code: u32) -> Request
    ensures { IsFromClient node 128 index sub code result.frame }
{
    sdo_request(node, ABORT, index, sub, code)
}

/// The command and the data of a frame from the node's server about this object; `None` exactly where the
/// frame isn't such a one.
fn from_server(node: NodeId, index: u16, sub: u8, frame: &CanFrame) -> Option<(u8, u32)>
    ensures some { IfSome result (λ r. IsFromServer node r.0 index sub r.1 frame.now) }
    ensures none { IfNone result ((command : ℕ) (word : ℕ)
        → IsFromServer node command index sub word frame.now → ⊥) }
{
    if frame.kind != Kind::Data || frame.id.number != 0x580 + u16::from(node.get()) {
        return None;
    }
    let [command, low, high, about, a, b, c, d] = frame.data() else {
        return None;
    };
    let [wanted_low, wanted_high] = index.to_le_bytes();
    if *low != wanted_low || *high != wanted_high || *about != sub {
        return None;
    }
    Some((*command, u32::from_le_bytes([*a, *b, *c, *d])))
}

/// The value that an upload's answer with this command gives, if it gives one.
fn value_of(command: u8, word: u32) -> Option<u32>
    ensures { result ≡ uploaded command word }
{
    match command {
        0x43 | 0x42 => Some(word),
        0x47 => Some(word % (1 << 24)),
        0x4B => Some(word % (1 << 16)),
        0x4F => Some(word % (1 << 8)),
        _ => None,
    }
}

/// What a server says with this command and data of an upload, if anything.
fn upload_says(command: u8, word: u32) -> Option<Answer>
    ensures { result ≡ upload_answer command word }
{
    match command {
        0x80 => Some(Answer::Abort(word)),
        0x41 => Some(Answer::Abort(NO_SEGMENTS)),
        _ => match value_of(command, word) {
            Some(value) => Some(Answer::Value(value)),
            None => None,
        },
    }
}

/// What it says of a download, if anything; the data of an abort is its code.
fn download_says(command: u8, code: u32) -> Option<Answer>
    ensures { result ≡ download_answer command code }
{
    match command {
        0x80 => Some(Answer::Abort(code)),
        0x60 => Some(Answer::Acked),
        _ => None,
    }
}

/// What a frame answers to the upload of an object that the node was asked for: an abort with its code, a
/// segmented transfer as an abort with [`NO_SEGMENTS`], or the value.
pub fn uploaded_by(node: NodeId, index: u16, sub: u8, frame: &CanFrame) -> Option<Answer>
    ensures answers { (command : ℕ) (word : ℕ) → IsFromServer node command index sub word frame.now
        → result ≡ upload_answer command word }
    ensures others { IsSome result → (command : ℕ) × (word : ℕ)
        × IsFromServer node command index sub word frame.now }
{
    match from_server(node, index, sub, frame) {
        Some((command, word)) => upload_says(command, word),
        None => None,
    }
}

/// What a frame answers to the download of an object that the node was asked for: an abort with its code, or
/// an acknowledgement.
pub fn downloaded_by(node: NodeId, index: u16, sub: u8, frame: &CanFrame) -> Option<Answer>
    ensures answers { (command : ℕ) (word : ℕ) → IsFromServer node command index sub word frame.now
        → result ≡ download_answer command word }
    ensures others { IsSome result → (command : ℕ) × (word : ℕ)
        × IsFromServer node command index sub word frame.now }
{
    match from_server(node, index, sub, frame) {
        Some((command, word)) => download_says(command, word),
        None => None,
    }
}

/// Whether a frame of the node's server begins a segmented upload of this object, which the client aborts
/// with [`NO_SEGMENTS`].
pub fn is_segmented(node: NodeId, index: u16, sub: u8, frame: &CanFrame) -> bool
    ensures yes { IsTrue result → (word : ℕ) × IsFromServer node 65 index sub word frame.now }
    ensures no { IsFalse result → (word : ℕ) → IsFromServer node 65 index sub word frame.now → ⊥ }
{
    match from_server(node, index, sub, frame) {
        Some((command, _)) => command == 0x41,
        None => false,
    }
}
