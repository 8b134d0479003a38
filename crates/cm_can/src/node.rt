ghost use Rattle.std.specs.Prelude.{◌≡◌, ◌↔◌, ℕ, IfNone, IfSome, IsSome, Some};
ghost use Rattle.cm_can.specs.Control.{IsErrorControl};
ghost use Rattle.cm_can.specs.Questions.{IsAnswer, IsAwaited, IsRequest, answer_of_signal, state_answer};
ghost use Rattle.cm_can.specs.Sdo.{download_command};

use crate::control::{error_control, guard_request};
use crate::frame::CanFrame;
use crate::request::Request;
use crate::sdo::{downloaded_by, sdo_request, upload_request, uploaded_by};
use cm_boot::{Answer, Question};
use cm_nmt::{NodeId, Signal};

/// The command of the request to write a value of this size.
fn command_of(size: u8) -> u8
    ensures { result ≡ download_command size }
{
    match size {
        1 => 0x2F,
        2 => 0x2B,
        _ => 0x23,
    }
}

/// The frame that asks a node this question; `None` for a heartbeat, which comes by itself.
pub fn request_of(node: NodeId, question: &Question) -> Option<Request>
    ensures some { IfSome result (λ r. IsRequest node question.now r.frame) }
    ensures none { IfNone result (IsAwaited question.now) }
{
    match question {
        Question::Read(index, sub) => Some(upload_request(node, *index, *sub)),
        Question::Write(write) => Some(sdo_request(
            node,
            command_of(write.size),
            write.index,
            write.sub,
            write.value,
        )),
        Question::StateByGuard => Some(guard_request(node)),
        Question::StateByBeat | Question::Beat => None,
    }
}

/// The state that a signal tells; boot-up tells none.
fn told(signal: Option<Signal>) -> Option<Answer>
    ensures { result ≡ answer_of_signal signal }
{
    match signal {
        Some(Signal::State(state)) => Some(Answer::State(state)),
        Some(Signal::BootUp) | None => None,
    }
}

/// The state that a frame of the node tells.
fn stated_by(node: NodeId, frame: &CanFrame) -> Option<Answer>
    ensures answers { (byte : ℕ) → IsErrorControl node byte frame.now → result ≡ state_answer byte }
    ensures others { IsSome result → (byte : ℕ) × IsErrorControl node byte frame.now }
{
    let message = error_control(frame)?;
    if message.node != node {
        return None;
    }
    told(Signal::read(message.byte))
}

/// What a frame answers to a question that the node was asked, if it answers it. An answer about another
/// object, or of another node, is none.
pub fn answered_by(node: NodeId, question: &Question, frame: &CanFrame) -> Option<Answer>
    ensures { (a : Answer) → (result ≡ Some a) ↔ IsAnswer node question.now frame.now a }
{
    match question {
        Question::Read(index, sub) => uploaded_by(node, *index, *sub, frame),
        Question::Write(write) => downloaded_by(node, write.index, write.sub, frame),
        Question::StateByGuard | Question::StateByBeat | Question::Beat => stated_by(node, frame),
    }
}
