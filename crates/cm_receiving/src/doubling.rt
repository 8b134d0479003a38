//! Answers of one node-ID that contradict each other: two devices have it then.
ghost use Rattle.std.specs.Prelude.{◌≡◌};
ghost use Rattle.cm_receiving.specs.Doubling.{all_kept, answering, begins_answer, contradicts, doubled, is_contradiction, is_same_object, kept_by, said_back, said_in};

use crate::listening::{FROM_SERVER, node_above};
use cm_can::{CanFrame, Kind};
use cm_nmt::NodeId;

/// The identifier of the requests to a node's SDO server, less the node-ID.
const TO_SERVER: u16 = 0x600;

/// What a frame says that an SDO server sends, or that is sent to one.
#[derive(Clone, Copy)]
pub(crate) enum Said {
    /// These eight bytes answer a question.
    Answer([u8; 8]),
    /// The server sends something else.
    Other,
    /// These bytes are a request to it.
    Request([u8; 8]),
}

/// Of each node-ID, and one that is unused, the answer of its SDO server that came last, until a request for the same object is
/// seen, or another frame of the server comes. Over a serial adapter requests of our own don't come back: there the answer of an
/// earlier boot may be kept, which the first of the next may contradict, so that this boot ends needlessly. No second one does,
/// since the new answer is kept then.
#[derive(Drop)]
pub(crate) struct Answers {
    last: [Option<[u8; 8]>; 128],
}

/// Whether an answer of an SDO server begins with this byte.
fn begins_answer(command: u8) -> bool
    ensures { result ≡ begins_answer command }
{
    let specifier = command / 32;
    specifier == 2 || specifier == 3 || specifier == 4
}

/// What a frame says that an SDO server sends.
fn said_back(frame: &CanFrame) -> Said
    ensures { result ≡ said_back frame.now }
{
    if frame.len == 8 && begins_answer(frame.bytes[0]) {
        Said::Answer(frame.bytes)
    } else {
        Said::Other
    }
}

/// What a frame says that the SDO server of a node sends, or that is sent to it, with the node.
fn said_in(frame: &CanFrame) -> Option<(NodeId, Said)>
    ensures { result ≡ said_in frame.now }
{
    if frame.kind != Kind::Data {
        return None;
    }
    match node_above(FROM_SERVER, frame.id.number) {
        Some(node) => Some((node, said_back(frame))),
        None => match node_above(TO_SERVER, frame.id.number) {
            Some(node) => Some((node, Said::Request(frame.bytes))),
            None => None,
        },
    }
}

/// Whether the bytes of two frames are about the same object.
fn is_same_object(one: [u8; 8], other: [u8; 8]) -> bool
    ensures { result ≡ is_same_object one other }
{
    one[1..4] == other[1..4]
}

/// What is kept of a node behind what is said.
fn kept_by(last: Option<[u8; 8]>, said: Said) -> Option<[u8; 8]>
    ensures { result ≡ kept_by last said }
{
    match said {
        Said::Answer(bytes) => Some(bytes),
        Said::Other => None,
        Said::Request(bytes) => match last {
            Some(answer) if is_same_object(answer, bytes) => None,
            _ => last,
        },
    }
}

/// Whether an answer contradicts the one that came last: it is about the same object, and differs.
fn contradicts(last: Option<[u8; 8]>, answer: [u8; 8]) -> bool
    ensures { result ≡ contradicts last answer }
{
    match last {
        Some(last) => is_same_object(last, answer) && last != answer,
        None => false,
    }
}

/// Whether what is said contradicts the answer that came last.
fn is_contradiction(last: Option<[u8; 8]>, said: Said) -> bool
    ensures { result ≡ is_contradiction last said }
{
    match said {
        Said::Answer(bytes) => contradicts(last, bytes),
        Said::Other | Said::Request(_) => false,
    }
}

/// The node whose SDO server sends the frame as an answer.
pub(crate) fn answering(frame: &CanFrame) -> Option<NodeId>
    ensures { result ≡ answering (said_in frame.now) }
{
    let (node, said) = said_in(frame)?;
    match said {
        Said::Answer(_) => Some(node),
        Said::Other | Said::Request(_) => None,
    }
}

impl Answers {
    /// No answer came yet.
    pub(crate) fn new() -> Answers {
        Answers { last: [None; 128] }
    }

    /// Keeps what is to be kept behind this frame. The result is the node whose answer it is, where that contradicts the one before.
    pub(crate) fn hear(&mut self, frame: &CanFrame) -> Option<NodeId>
        ensures doubled { result ≡ doubled self.old.last (said_in frame.now) }
        ensures kept { self.new.last ≡ all_kept self.old.last (said_in frame.now) }
    {
        let (node, said) = said_in(frame)?;
        let place = usize::from(node.get());
        let last = self.last[place];
        self.last[place] = kept_by(last, said);
        if is_contradiction(last, said) {
            Some(node)
        } else {
            None
        }
    }
}
