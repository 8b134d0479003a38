ghost use Rattle.std.specs.Prelude.{◌≡◌, ◌==◌, ◌<◌, ◌-◌, ◌↔◌, ℕ, IfOk, IsTrue, Some, vec_len};
ghost use Rattle.cm_nmt.specs.NodeId.{IsNodeId};
ghost use Rattle.cm_boot.specs.declared.question.Answer.{Answer};
ghost use Rattle.cm_boot.specs.declared.question.Question.{Question as Asked};
ghost use Rattle.cm_can.specs.declared.frame.CanFrame.{CanFrame as Frame};
ghost use Rattle.cm_can.specs.Questions.{IsAnswer};
ghost use Rattle.cm_text.specs.Picked.{within};
ghost use Rattle.cm_receiving.specs.Identifiers.{IsOfNode, id_of_answer, node_by, node_in};

use cm_boot::Question;
use cm_can::{CanFrame, Kind};
use cm_nmt::NodeId;
use std::alloc::{AllocError, Global};
use std::sync::atomic::{AtomicU64, Ordering};

/// The identifier of a node's SDO server, less the node-ID.
pub(crate) const FROM_SERVER: u16 = 0x580;

/// The identifier of a node's error control messages, less the node-ID.
const ERROR_CONTROL: u16 = 0x700;

/// Which frames each worker listens to: those of one identifier, or none. The reader of the bus gives a worker no
/// others, so that none are kept for one who doesn't ask. Beside that, how many bytes the reader has read, and where each
/// node has booted up last among them.
#[derive(Drop)]
pub struct Listening {
    ids: Vec<AtomicU64>,
    received: AtomicU64,
    /// Of each node-ID, and one that is unused.
    boot_ups: Vec<AtomicU64>,
}

/// How far what is received was read. Only the count that the reader of the bus keeps gives one.
#[derive(Drop)]
pub struct ReadMark {
    bytes: u64,
}

impl ReadMark {
    /// How many bytes were read by then.
    pub fn bytes(&self) -> u64
        ensures { result ≡ self.now.bytes }
    {
        self.bytes
    }
}

/// The identifier of the frames that may answer a question: each that answers it has this one.
fn id_of_answer(node: NodeId, question: &Question) -> u16
    ensures value { result ≡ id_of_answer node question.now }
    ensures each { (f : Frame) (a : Answer) → IsAnswer node question.now f a → f.id.number ≡ result }
{
    let base = match question {
        Question::Read(_, _) | Question::Write(_) => FROM_SERVER,
        Question::StateByBeat | Question::StateByGuard | Question::Beat => ERROR_CONTROL,
    };
    base + u16::from(node.get())
}

/// The node whose node-ID an identifier has above this one.
pub(crate) fn node_above(base: u16, id: u16) -> Option<NodeId>
    ensures { result ≡ within 1 127 (id - base) }
{
    let above = id.saturating_sub(base);
    if above > 127 {
        return None;
    }
    NodeId::new(above as u8)
}

/// The node that sends data frames with this identifier, of which it may answer a question.
fn node_by(id: u16) -> Option<NodeId>
    ensures { result ≡ node_by id }
{
    match node_above(FROM_SERVER, id) {
        Some(node) => Some(node),
        None => node_above(ERROR_CONTROL, id),
    }
}

/// The node of which a frame may answer a question of a boot: each frame that answers one is of the node that was asked.
#[tactic(auto, using(crate::proofs::Nodes::node_is, crate::proofs::Nodes::answer_is_of))]
pub(crate) fn sender_of(frame: &CanFrame) -> Option<NodeId>
    ensures value { result ≡ node_in frame.now.kind frame.now.id.number }
    ensures exact { (n : ℕ) → (result ≡ Some n) ↔ IsOfNode n frame.now }
    ensures each { (n : ℕ) (q : Asked) (a : Answer) → IsNodeId n → IsAnswer n q frame.now a → result ≡ Some n }
{
    match frame.kind {
        Kind::Data => node_by(frame.id.number),
        Kind::Remote => None,
    }
}

/// Whether a worker that listens to this identifier listens to the frame.
fn is_heard(id: u64, frame: &CanFrame) -> bool
    ensures { result ≡ (id == frame.now.id.number) }
{
    id == u64::from(frame.id.number)
}

/// So many numbers that threads share, each 0.
fn zeros(alloc: Global, count: u8) -> Result<Vec<AtomicU64>, AllocError>
    ensures { IfOk result (λ numbers. vec_len numbers ≡ count) }
{
    let mut numbers = Vec::with_capacity(alloc, usize::from(count))?;
    for _number in 0..count {
        numbers.push(AtomicU64::new(0))?;
    }
    Ok(numbers)
}

impl Listening {
    /// Nobody listens yet, and nothing was read. Refused where memory is.
    pub fn new(alloc: Global, workers: u8) -> Result<Listening, AllocError>
        ensures { IfOk result (λ l. vec_len l.ids ≡ workers) }
    {
        Ok(Listening {
            ids: zeros(alloc, workers)?,
            received: AtomicU64::new(0),
            boot_ups: zeros(alloc, 128)?,
        })
    }

    /// So many bytes were read by now.
    pub(crate) fn note_received(&self, bytes: u64) {
        self.received.store(bytes, Ordering::SeqCst);
    }

    /// How far what is received was read by now.
    pub fn received(&self) -> ReadMark {
        ReadMark {
            bytes: self.received.load(Ordering::SeqCst),
        }
    }

    /// The node has booted up, by the message at this place.
    pub(crate) fn note_boot_up(&self, node: NodeId, place: u64) {
        if let Some(last) = self.boot_ups.get(usize::from(node.get())) {
            last.store(place, Ordering::SeqCst);
        }
    }

    /// The place of the node's last boot-up message that was read by now; 0 where none was.
    pub fn last_boot_up(&self, node: NodeId) -> u64 {
        match self.boot_ups.get(usize::from(node.get())) {
            Some(last) => last.load(Ordering::SeqCst),
            None => 0,
        }
    }

    /// From now on the worker listens to what may answer this question to the node.
    pub fn listen(&self, worker: usize, node: NodeId, question: &Question) {
        if let Some(id) = self.ids.get(worker) {
            id.store(u64::from(id_of_answer(node, question)), Ordering::SeqCst);
        }
    }

    /// Whether the worker listens to this frame.
    pub(crate) fn is_wanted(&self, worker: usize, frame: &CanFrame) -> bool
        ensures { IsTrue result → worker < vec_len self.now.ids }
    {
        match self.ids.get(worker) {
            Some(id) => is_heard(id.load(Ordering::SeqCst), frame),
            None => false,
        }
    }
}
