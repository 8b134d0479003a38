//! The bus of one worker.
ghost use Rattle.std.specs.Prelude.{◌≡◌, ◌+◌, ◌<◌, ◌≤◌, ◌++◌, ◌∷◌, [], ℕ, if◌then◌else◌, IfNone, IfOk, IfSome, None, false, vec_capacity, vec_len};
ghost use Rattle.cm_netlist.specs.Network.{entry};
ghost use Rattle.cm_bus.specs.Sent.{sent_in};
ghost use Rattle.cm_bus.specs.Talk.{HasPut, HasWaited, IsAbort, IsAbortCode, IsAsking, IsClosing, IsTalk, answer_in, frame_in};
ghost use Rattle.cm_bus.specs.Receiving.{EndsBoot, IsGiven};
ghost use Rattle.cm_bus.specs.Waits.{beat_ms, behind, wait_ms};

use crate::event::PortEvent;
use crate::port::Port;
use crate::talk::Talk;
use cm_boot::{Answer, Bus, Question};
use cm_can::{
    CanFrame, NO_SEGMENTS, Request, TIMED_OUT, abort_frame, answered_by, is_segmented, request_of,
};
use cm_netlist::Network;
use cm_nmt::NodeId;
use cm_receiving::{BusName, ReadMark};
use std::alloc::{AllocError, Global};
use std::marker::{Model, PhantomData};

/// How many frames that don't answer a question are passed over at most; with more of them it isn't answered.
const MOST_PASSED: u8 = 64;

/// How many events there are at most for one question: its request, the frames that are passed over, the end of
/// the waiting, and an abort.
const MOST_OF_ONE: usize = 67;

/// How many events a log has at most: those of 10 attempts at a slave, of 41 questions each.
const MOST_EVENTS: usize = 27_470;

/// A CAN bus on which slaves are asked, over a port. Its log has what went over the port for each question since
/// the log was emptied; a log that is full is emptied for the next question, and no round of a worker fills one. A boot
/// begins with its first question, and goes on until its end is told: of a slave that has booted up since it began, or whose
/// answers to one question contradicted each other, nothing more is heard in it, since what comes then may be another device's.
/// Contracts see the log, the places behind which frames are heard, whether a boot goes on, and the port.
#[derive(Drop)]
pub struct LiveBus<'n, B: BusName, P: Drop> {
    network: &'n Network,
    answer_ms: u32,
    port: P,
    /// The place of the frame that was heard last, or behind it of the last byte that was read before the last
    /// question: other frames are heard behind it alone.
    last: u64,
    /// The place behind which the answers of the boot that goes on are heard: none of them comes behind a boot-up
    /// message of its slave that stands behind this place, nor behind an answer that contradicts another, since it may be another
    /// device's.
    begun: u64,
    /// A question of the boot was asked, and its end wasn't told yet.
    goes_on: bool,
    log: Vec<PortEvent>,
    of: PhantomData<B>,
}

impl<'n, B: BusName, P: Drop> Model for LiveBus<'n, B, P> {
    ghost use Rattle.std.specs.Prelude.{◌≤◌, vec_capacity};
    ghost use Rattle.cm_bus.specs.Receiving.{BusView};

    ghost Value = { BusView P };

    ghost view = { λ b. record { log = b.log.items; heard = b.last; begun = b.begun; goes_on = b.goes_on; port = b.port } };

    ghost invariant = { λ b. 27470 ≤ vec_capacity b.log };
}

/// The abort of the transfer of a question, behind the frame with which the waiting ended: it is aborted where no
/// answer came in time, and where a segmented upload was begun.
fn abort_of(id: NodeId, question: &Question, last: Option<CanFrame>) -> Option<Request>
    ensures some { IfSome result (λ r. IsAbort id question.now last r.frame) }
    ensures none { IfNone result ((code : ℕ) → IsAbortCode id question.now last code → ⊥) }
{
    match question {
        Question::Read(index, sub) => match last {
            None => Some(abort_frame(id, *index, *sub, TIMED_OUT)),
            Some(frame) => {
                if is_segmented(id, *index, *sub, &frame) {
                    Some(abort_frame(id, *index, *sub, NO_SEGMENTS))
                } else {
                    None
                }
            }
        },
        Question::Write(write) => match last {
            None => Some(abort_frame(id, write.index, write.sub, TIMED_OUT)),
            Some(_) => None,
        },
        Question::StateByBeat | Question::StateByGuard | Question::Beat => None,
    }
}

/// A frame that answers a question, with its answer.
#[derive(Clone, Copy, Debug, PartialEq, Eq)]
struct Reply {
    frame: CanFrame,
    answer: Answer,
}

/// The time is over.
fn expire(log: &mut Vec<PortEvent>) -> Option<Reply>
    requires room { vec_len log.old < vec_capacity log.old }
    ensures none { result ≡ None }
    ensures log { log.new.items ≡ log.old.items ++ PortEvent.Expired ∷ [] }
    ensures capacity { vec_capacity log.new ≡ vec_capacity log.old }
{
    log.push_reserved(PortEvent::Expired);
    None
}

/// Waits for the first frame behind the last place that answers the question, and whose node can be no other device than when the
/// boot that goes on began: it hasn't booted up, nor contradicted itself. Others are passed over; of them, those up to the last
/// place, and those of a node that can be another device, don't stand in the log. `None` once the time is over, or where too many
/// others came.
fn wait_for<B: BusName, P: Port<B>>(
    port: &mut P,
    last: &mut u64,
    begun: u64,
    log: &mut Vec<PortEvent>,
    id: NodeId,
    question: &Question,
) -> Option<Reply>
    requires room { vec_len log.old + 65 ≤ vec_capacity log.old }
    ensures waited { HasWaited id question.now result log.old.items log.new.items }
    ensures sent { P.sends port.old [] port.new }
    ensures given { IsGiven B.format B.text id question.now (answer_in result) begun last.old last.new }
    ensures capacity { vec_capacity log.new ≡ vec_capacity log.old }
{
    for passed in 0..MOST_PASSED {
        let Some(received) = port.hear() else {
            return expire(log);
        };
        let place = received.place();
        if place <= *last || received.since() > begun {
            continue;
        }
        *last = place;
        let frame = received.frame();
        log.push_reserved(PortEvent::Heard(frame));
        if let Some(answer) = answered_by(id, question, &frame) {
            return Some(Reply { frame, answer });
        }
    }
    expire(log)
}

/// Sends a request, and puts that into the log.
fn send<B: BusName, P: Port<B>>(port: &mut P, log: &mut Vec<PortEvent>, request: Request)
    requires room { vec_len log.old < vec_capacity log.old }
    ensures log { log.new.items ≡ log.old.items ++ PortEvent.Sent request.frame ∷ [] }
    ensures sent { P.sends port.old (request.frame ∷ []) port.new }
    ensures capacity { vec_capacity log.new ≡ vec_capacity log.old }
{
    port.send(&request);
    log.push_reserved(PortEvent::Sent(request.frame));
}

/// Sends the request of a question, if it has one.
fn send_request<B: BusName, P: Port<B>>(
    port: &mut P,
    log: &mut Vec<PortEvent>,
    id: NodeId,
    question: &Question,
)
    requires room { vec_len log.old < vec_capacity log.old }
    ensures asking { HasPut (λ events. IsAsking id question.now events × P.sends port.old (sent_in events) port.new)
        log.old.items log.new.items }
    ensures capacity { vec_capacity log.new ≡ vec_capacity log.old }
{
    match request_of(id, question) {
        Some(request) => send(port, log, request),
        None => {}
    }
}

/// The frame of a reply, if one came.
fn frame_in(reply: &Option<Reply>) -> Option<CanFrame>
    ensures { result ≡ frame_in reply.now }
{
    match reply {
        Some(reply) => Some(reply.frame),
        None => None,
    }
}

/// Aborts the transfer of a question, where it is to be aborted behind this reply.
fn close_transfer<B: BusName, P: Port<B>>(
    port: &mut P,
    log: &mut Vec<PortEvent>,
    id: NodeId,
    question: &Question,
    reply: &Option<Reply>,
)
    requires room { vec_len log.old < vec_capacity log.old }
    ensures closing { HasPut (λ events. IsClosing id question.now (frame_in reply.now) events
        × P.sends port.old (sent_in events) port.new) log.old.items log.new.items }
    ensures capacity { vec_capacity log.new ≡ vec_capacity log.old }
{
    match abort_of(id, question, frame_in(reply)) {
        Some(abort) => send(port, log, abort),
        None => {}
    }
}

/// The answer to a question: silence where no reply came.
fn answer_in(reply: Option<Reply>) -> Answer
    ensures { result ≡ answer_in reply }
{
    match reply {
        Some(reply) => reply.answer,
        None => Answer::Silent,
    }
}

/// Raises the place behind which frames are heard, where so many bytes were read by now.
fn raise(last: &mut u64, read: &ReadMark)
    ensures { last.new ≡ behind last.old read.now.bytes }
{
    let before = read.bytes().saturating_sub(1);
    if *last < before {
        *last = before;
    }
}

/// The place at which the boot of the next question began: the last place, where none goes on.
fn begun_at(goes_on: bool, begun: u64, last: u64) -> u64
    ensures { result ≡ (if goes_on then begun else last) }
{
    if goes_on { begun } else { last }
}

/// Asks a question of the boot that began at this place: sends its request, waits for an answer behind the last place,
/// and aborts the transfer where it is to be aborted.
fn ask_by<B: BusName, P: Port<B>>(
    port: &mut P,
    last: &mut u64,
    begun: u64,
    log: &mut Vec<PortEvent>,
    id: NodeId,
    question: &Question,
) -> Answer
    requires room { vec_len log.old + 67 ≤ vec_capacity log.old }
    ensures asked { HasPut (λ talk. IsTalk id question.now result talk × P.sends port.old (sent_in talk) port.new)
        log.old.items log.new.items }
    ensures given { IsGiven B.format B.text id question.now result begun last.old last.new }
    ensures capacity { vec_capacity log.new ≡ vec_capacity log.old }
{
    send_request(port, log, id, question);
    let reply = wait_for(port, last, begun, log, id, question);
    close_transfer(port, log, id, question, &reply);
    answer_in(reply)
}

/// Makes room for what goes over the bus for one question: a log that has none is emptied.
fn make_room(log: &mut Vec<PortEvent>)
    requires { 27470 ≤ vec_capacity log.old }
    ensures room { vec_len log.new + 67 ≤ vec_capacity log.new }
    ensures kept { vec_len log.old + 67 ≤ 27470 → log.new.items ≡ log.old.items }
    ensures anew { 27470 < vec_len log.old + 67 → log.new.items ≡ [] }
    ensures capacity { vec_capacity log.new ≡ vec_capacity log.old }
{
    if log.len() > MOST_EVENTS - MOST_OF_ONE {
        log.clear();
    }
}

impl<'n, B: BusName, P: Port<B>> LiveBus<'n, B, P> {
    /// A bus over this port, with an empty log. An SDO answer and the answer to a guard request are waited for so
    /// many ms, a heartbeat for its time in the network list. Refused where memory for the log is.
    pub fn new(
        alloc: Global,
        network: &'n Network,
        answer_ms: u32,
        port: P,
    ) -> Result<LiveBus<'n, B, P>, AllocError>
        ensures { IfOk result (λ b. (b.log ≡ []) × (b.heard ≡ 0) × (b.goes_on ≡ false) × (b.port ≡ port)) }
    {
        let log = Vec::with_capacity(alloc, MOST_EVENTS)?;
        Ok(LiveBus {
            network,
            answer_ms,
            port,
            last: 0,
            begun: 0,
            goes_on: false,
            log,
            of: PhantomData,
        })
    }

    /// Empties the log. A boot that goes on has ended.
    pub fn forget(&mut self)
        ensures log { self.new.log ≡ [] }
        ensures heard { self.new.heard ≡ self.old.heard }
        ensures begun { self.new.begun ≡ self.old.begun }
        ensures ended { self.new.goes_on ≡ false }
        ensures port { self.new.port ≡ self.old.port }
    {
        self.log.clear();
        self.goes_on = false;
    }

    /// A boot that goes on has ended: the next question begins another one.
    pub fn end_boot(&mut self)
        ensures { EndsBoot self.old self.new }
    {
        self.goes_on = false;
    }

    /// Whether the node of the boot that goes on has booted up since it began, by what its port has read. No clause says what
    /// that is.
    pub fn has_booted_up(&self, id: NodeId) -> bool {
        self.goes_on && self.port.last_boot_up(id) > self.begun
    }

    /// Talks with a device beside the questions, where an answer is waited for as long as theirs. Nothing of it stands in the log; the
    /// port sends the requests of the talk.
    pub fn talk<T: Talk<B>>(&mut self, talk: &mut T)
        ensures { self.new ≡ record self.old { port = self.new.port } }
    {
        talk.over(&mut self.port, self.answer_ms);
    }

    /// What went over the port, the first event first.
    pub fn log(&self) -> &[PortEvent]
        ensures { result.now ≡ self.now.log }
    {
        self.log.as_slice()
    }

    /// The port.
    pub fn into_port(self) -> P
        ensures { result ≡ self.entry.port }
    {
        self.port
    }
}

/// How long a heartbeat of the node is waited for, in ms.
fn beat_of(network: &Network, answer_ms: u32, id: NodeId) -> u32
    ensures { result ≡ beat_ms answer_ms (entry network.now id) }
{
    match network.entry(id) {
        Some(entry) => {
            if entry.heartbeat_ms == 0 {
                answer_ms
            } else {
                u32::from(entry.heartbeat_ms)
            }
        }
        None => answer_ms,
    }
}

/// How long the answer to a question is waited for, in ms.
fn wait_of(network: &Network, answer_ms: u32, id: NodeId, question: &Question) -> u32
    ensures { result ≡ wait_ms network.now answer_ms id question.now }
{
    match question {
        Question::StateByBeat | Question::Beat => beat_of(network, answer_ms, id),
        Question::Read(_, _) | Question::Write(_) | Question::StateByGuard => answer_ms,
    }
}

impl<'n, B: BusName, P: Port<B>> Bus for LiveBus<'n, B, P> {
    ghost use Rattle.cm_bus.specs.Receiving.{IsAskedOver};

    ghost step = { λ b id q x c. IsAskedOver P.sends B.format B.text id q x b c };

    fn ask(&mut self, id: NodeId, question: Question) -> Answer {
        make_room(&mut self.log);
        let wait = wait_of(self.network, self.answer_ms, id, &question);
        self.port.listen(id, &question, wait);
        let read = self.port.received();
        raise(&mut self.last, &read);
        self.begun = begun_at(self.goes_on, self.begun, self.last);
        self.goes_on = true;
        ask_by(
            &mut self.port,
            &mut self.last,
            self.begun,
            &mut self.log,
            id,
            &question,
        )
    }
}
