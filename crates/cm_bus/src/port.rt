use cm_boot::Question;
use cm_can::Request;
use cm_nmt::NodeId;
use cm_receiving::{BusName, ReadMark, Received};

/// How requests go out to the bus that `B` names and frames come in from it, and how long an answer is waited for. It sends the requests
/// that it is handed, each once, and nothing else. What it gives of the bus needs no clause: nobody but the reader of the bus can make a
/// frame that was received, or the mark of how far was read. That the mark is the newest, and that a frame comes that was received, no
/// clause says: `tests/disagrees` and `tests/live` show it.
pub trait Port<B: BusName>: Drop {
    ghost use Rattle.std.specs.Prelude.{◌++◌, ◌∷◌, [], List};
    ghost use Rattle.cm_can.specs.declared.frame.CanFrame.{CanFrame as Frame};

    /// From the one moment to the other the port sent these frames.
    ghost sends: { Self → List Frame → Self → Type 0 };

    /// Forgets what was heard. From now on, and for so many ms, frames of this node are heard that may answer the
    /// question.
    fn listen(&mut self, node: NodeId, question: &Question, wait_ms: u32)
        ensures { sends self.old [] self.new };

    /// How far what is received was read by now: a frame before that answers no question that is asked later.
    fn received(&self) -> ReadMark;

    /// The place of the node's last boot-up message among these bytes; 0 where none was.
    fn last_boot_up(&self, node: NodeId) -> u64;

    /// Sends a request.
    fn send(&mut self, request: &Request)
        ensures { sends self.old (request.now.frame ∷ []) self.new };

    /// The next frame that is heard; `None` once the time is over, or where no frame can come any more.
    fn hear(&mut self) -> Option<Received<B>>
        ensures { sends self.old [] self.new };

    /// At one moment nothing is sent.
    ghost sends_none: { (a : Self) → sends a [] a };

    /// What was sent at first, and then, was sent from the first moment to the last.
    ghost sends_more: { (a b c : Self) (fs gs : List Frame) → sends a fs b → sends b gs c → sends a (fs ++ gs) c };
}
