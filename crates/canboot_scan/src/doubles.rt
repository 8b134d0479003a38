//! Whether two devices answer at one node-ID.

use cm_boot::{Answer, Question};
use cm_bus::{Port, Talk};
use cm_can::{answered_by, request_of};
use cm_nmt::NodeId;
use cm_receiving::BusName;
use std::fmt;

/// How long answers to one question are heard at most, in ms.
const MOST_WAIT_MS: u32 = 200;

/// How many frames are heard at most behind one question.
const MOST_HEARD: u8 = 64;

/// The identity of a device (CiA 301).
const IDENTITY: u16 = 0x1018;

/// The name of a value of the identity, by its sub-index, 1 to 4.
fn name_of(sub: u8) -> &'static str {
    match sub {
        1 => "vendor-ID",
        2 => "product code",
        3 => "revision number",
        _ => "serial number",
    }
}

/// Two answers to one question of a node, which differ: two devices have its node-ID.
#[derive(Clone, Copy)]
pub(crate) struct Double {
    node: NodeId,
    /// The sub-index of the value that was asked for.
    sub: u8,
    first: Answer,
    second: Answer,
}

/// An answer to a question for a value.
#[derive(Clone, Copy)]
struct Given(Answer);

impl fmt::Display for Given {
    fn fmt<W: fmt::Write>(&self, f: &mut fmt::Formatter<W>) -> fmt::Result {
        match self.0 {
            Answer::Value(value) => write!(f, "{value:08X}"),
            Answer::Abort(code) => write!(f, "abort {code:08X}"),
            Answer::Acked | Answer::Silent | Answer::State(_) => f.write_str("none"),
        }
    }
}

impl fmt::Display for Double {
    fn fmt<W: fmt::Write>(&self, f: &mut fmt::Formatter<W>) -> fmt::Result {
        let (node, name) = (self.node.get(), name_of(self.sub));
        let (first, second) = (Given(self.first), Given(self.second));
        write!(
            f,
            "node {node}: two devices answer: {name} {first} and {second}"
        )
    }
}

/// The next answer to the question that is heard.
fn hear_answer<B: BusName, P: Port<B>>(
    port: &mut P,
    node: NodeId,
    question: &Question,
) -> Option<Answer> {
    for _heard in 0..MOST_HEARD {
        let frame = port.hear()?.frame();
        let answer = answered_by(node, question, &frame);
        if answer.is_some() {
            return answer;
        }
    }
    None
}

/// Asks a question, and hears two answers, where two come that differ.
fn ask_twice<B: BusName, P: Port<B>>(
    port: &mut P,
    node: NodeId,
    wait_ms: u32,
    question: &Question,
) -> Option<(Answer, Answer)> {
    port.listen(node, question, wait_ms);
    if let Some(request) = request_of(node, question) {
        port.send(&request);
    }
    let first = hear_answer(port, node, question)?;
    for _heard in 0..MOST_HEARD {
        let second = hear_answer(port, node, question)?;
        if second != first {
            return Some((first, second));
        }
    }
    None
}

/// The talk that asks a device for its identity again, and hears whether another one answers too.
#[derive(Drop)]
pub(crate) struct DoubleTalk {
    pub(crate) node: NodeId,
    /// What was heard of another one.
    pub(crate) double: Option<Double>,
}

impl<B: BusName> Talk<B> for DoubleTalk {
    fn over<P: Port<B>>(&mut self, port: &mut P, wait_ms: u32) {
        let node = self.node;
        for sub in 1..5u8 {
            let question = Question::Read(IDENTITY, sub);
            let wait_ms = wait_ms.min(MOST_WAIT_MS);
            if let Some((first, second)) = ask_twice(port, node, wait_ms, &question) {
                self.double = Some(Double {
                    node,
                    sub,
                    first,
                    second,
                });
                return;
            }
        }
    }
}
