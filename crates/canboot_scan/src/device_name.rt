//! A device's name, which is longer than one frame: an SDO upload in segments (CiA 301).

use arrayvec::ArrayVec;
use cm_boot::Question;
use cm_bus::{Port, Talk};
use cm_can::{CanFrame, Kind, Request, TIMED_OUT, abort_frame, segment_request, upload_request};
use cm_nmt::NodeId;
use cm_receiving::BusName;

/// A device's name, as many of its bytes as are kept.
pub(crate) type DeviceName = ArrayVec<u8, 64>;

/// The object of the manufacturer's device name.
const NAME: u16 = 0x1008;

/// The abort code of a client that keeps no more (CiA 301, out of memory).
const NO_MORE: u32 = 0x0504_0005;

/// The identifier of a node's SDO server, less the node-ID.
const FROM_SERVER: u16 = 0x580;

/// The bit that each segment of an upload turns.
const TOGGLE: u8 = 0x10;

/// The command of an abort.
const ABORT: u8 = 0x80;

/// How many frames that aren't the answer are passed over at most.
const MOST_PASSED: u8 = 64;

/// How many segments are asked for at most: ten have more bytes than are kept.
const MOST_SEGMENTS: u8 = 10;

/// What a server is asked for.
#[derive(Clone, Copy)]
enum Part {
    /// The upload.
    Beginning,
    /// Its next segment, with this toggle bit.
    Segment(u8),
}

/// What it answers.
#[derive(Drop)]
enum Said {
    /// The upload has begun, and its segments are to be asked for.
    Begun,
    /// Bytes of the name, and whether they are the last.
    Bytes(ArrayVec<u8, 7>, bool),
    /// The transfer is aborted.
    Aborted,
}

/// The first of these bytes, this many.
fn first_of(bytes: &[u8], count: u8) -> ArrayVec<u8, 7> {
    let mut first = ArrayVec::new();
    for byte in bytes.iter().take(usize::from(count)) {
        let _ = first.try_push(*byte);
    }
    first
}

/// What a server's frame of this command and these four bytes says of the beginning of an upload.
fn beginning_by(command: u8, bytes: &[u8]) -> Option<Said> {
    if command / 32 != 2 {
        return None;
    }
    if command & 2 == 0 {
        return Some(Said::Begun);
    }
    let unused = if command & 1 == 1 {
        (command / 4) % 4
    } else {
        0
    };
    Some(Said::Bytes(first_of(bytes, 4 - unused), true))
}

/// What a server's frame of this command and these seven bytes says of a segment with this toggle bit.
fn segment_by(command: u8, toggle: u8, bytes: &[u8]) -> Option<Said> {
    if command / 32 != 0 || command & TOGGLE != toggle {
        return None;
    }
    let unused = (command / 2) % 8;
    Some(Said::Bytes(first_of(bytes, 7 - unused), command & 1 == 1))
}

/// What a frame of the node's server answers to what it was asked for, if it does.
fn said_by(node: NodeId, part: Part, frame: &CanFrame) -> Option<Said> {
    if frame.kind != Kind::Data || frame.id.number != FROM_SERVER + u16::from(node.get()) {
        return None;
    }
    let [command, rest @ ..] = frame.data() else {
        return None;
    };
    if rest.len() != 7 {
        return None;
    }
    let [low, high] = NAME.to_le_bytes();
    let is_of_name = rest[0] == low && rest[1] == high && rest[2] == 0;
    match part {
        _ if *command == ABORT && is_of_name => Some(Said::Aborted),
        Part::Beginning if is_of_name => beginning_by(*command, &rest[3..]),
        Part::Beginning => None,
        Part::Segment(toggle) => segment_by(*command, toggle, rest),
    }
}

/// What asks for it.
fn request(node: NodeId, part: Part) -> Request {
    match part {
        Part::Beginning => upload_request(node, NAME, 0),
        Part::Segment(toggle) => segment_request(node, toggle != 0),
    }
}

/// The first answer that is heard in time.
fn hear_answer<B: BusName, P: Port<B>>(port: &mut P, node: NodeId, part: Part) -> Option<Said> {
    for _passed in 0..MOST_PASSED {
        let frame = port.hear()?.frame();
        let said = said_by(node, part, &frame);
        if said.is_some() {
            return said;
        }
    }
    None
}

/// Asks, and waits so many ms for the answer.
fn ask<B: BusName, P: Port<B>>(
    port: &mut P,
    node: NodeId,
    wait_ms: u32,
    part: Part,
) -> Option<Said> {
    port.listen(node, &Question::Read(NAME, 0), wait_ms);
    port.send(&request(node, part));
    hear_answer(port, node, part)
}

/// Puts bytes behind those of a name, as many as there is room for.
fn add(name: &mut DeviceName, bytes: &[u8]) {
    for byte in bytes {
        let _ = name.try_push(*byte);
    }
}

/// Ends the transfer with this code.
fn abort<B: BusName, P: Port<B>>(port: &mut P, node: NodeId, code: u32) {
    port.send(&abort_frame(node, NAME, 0, code));
}

/// Asks for the segments of an upload that has begun. One that is longer than what is kept is aborted.
fn read_segments<B: BusName, P: Port<B>>(
    port: &mut P,
    node: NodeId,
    wait_ms: u32,
) -> Option<DeviceName> {
    let mut name = DeviceName::new();
    for number in 0..MOST_SEGMENTS {
        let toggle = if number % 2 == 0 { 0 } else { TOGGLE };
        match ask(port, node, wait_ms, Part::Segment(toggle)) {
            Some(Said::Bytes(bytes, is_last)) => {
                add(&mut name, bytes.as_slice());
                if is_last {
                    return Some(name);
                }
            }
            Some(Said::Begun | Said::Aborted) => return None,
            None => {
                abort(port, node, TIMED_OUT);
                return None;
            }
        }
    }
    abort(port, node, NO_MORE);
    Some(name)
}

/// Reads the name of a device; each answer is waited for so many ms.
fn read_name<B: BusName, P: Port<B>>(
    port: &mut P,
    node: NodeId,
    wait_ms: u32,
) -> Option<DeviceName> {
    match ask(port, node, wait_ms, Part::Beginning) {
        Some(Said::Begun) => read_segments(port, node, wait_ms),
        Some(Said::Bytes(bytes, _)) => {
            let mut name = DeviceName::new();
            add(&mut name, bytes.as_slice());
            Some(name)
        }
        Some(Said::Aborted) => None,
        None => {
            abort(port, node, TIMED_OUT);
            None
        }
    }
}

/// The talk by which a device says its name (CiA 301, 1008h): the first 64 bytes of it, by a segmented upload where it has more than 4.
#[derive(Drop)]
pub(crate) struct NameTalk {
    pub(crate) node: NodeId,
    /// What it said, no bytes where it said none.
    pub(crate) name: DeviceName,
}

impl<B: BusName> Talk<B> for NameTalk {
    fn over<P: Port<B>>(&mut self, port: &mut P, wait_ms: u32) {
        if let Some(name) = read_name(port, self.node, wait_ms) {
            self.name = name;
        }
    }
}
