ghost use Rattle.std.specs.Prelude.{◌≡◌, ◌<◌, ◌≤◌, length, IsErr, OnErr, OnOk, Some, None, option_map, slice_set, true};
ghost use Rattle.cm_netlist.specs.Network.{entry as entry_of};
ghost use Rattle.cm_nmt.specs.Answers.{none};
ghost use Rattle.cm_nmt.specs.Conditions.{is_proper};
ghost use Rattle.cm_boot.specs.Progress.{IsBooting, answers_after, due, got_of, heard_of, next_step};
ghost use Rattle.cm_boot.specs.Progress.{terms as terms_of_boot, with_answer, with_write};
ghost use Rattle.cm_boot.specs.Procedure.{Reached};
ghost use Rattle.cm_boot.specs.Questions.{question};
ghost use Rattle.cm_boot.specs.Talk.{asked};

use crate::{Answer, Question, Step};
use cm_netlist::{Network, SlaveEntry};
use cm_nmt::{
    Answers, Field, Got, Heard, NodeId, Terms, condition, fields, is_complete, status_of,
};
use std::marker::Model;
use thiserror::Error;

/// An answer that doesn't fit the question that is due, or comes after the last one.
#[derive(Clone, Copy, Debug, PartialEq, Eq, Error)]
#[error("the answer doesn't fit the question")]
pub struct WrongAnswer;

/// The boot of one slave, question by question (CiA 302-2, boot slave).
///
/// [`next`](Boot::next) says what to ask, [`answer`](Boot::answer) takes what came, until `next`
/// says with which status the boot has ended. Contracts see what is listed of the slave, and its
/// answers.
#[derive(Drop)]
pub struct Boot<'n> {
    entry: Option<&'n SlaveEntry>,
    answers: Answers,
}

impl<'n> Model for Boot<'n> {
    ghost use Rattle.cm_boot.specs.Progress.{Booting};
    ghost use Rattle.cm_boot.specs.BootView.{IsSoundInside, view_of};

    ghost Value = { Booting };

    ghost view = { view_of };

    ghost invariant = { IsSoundInside };
}

/// The field whose question is due; `None` where there is none left.
fn next_field(terms: &Terms, answers: &Answers) -> Option<Field>
    ensures { result ≡ due (Some terms.now) answers.now }
{
    fields().iter().copied().find(|field| condition(terms, answers, *field)
        && !is_complete(terms, answers, *field))
}

/// The question that fills a field; `None` for the writes where each was acknowledged.
#[tactic(auto, unfolding(crate::specs::Questions::question))]
fn question(entry: &SlaveEntry, answers: &Answers, field: Field) -> Option<Question>
    ensures { result ≡ question entry.now answers.now field }
{
    match field {
        Field::Device => Some(Question::Read(0x1000, 0)),
        Field::Vendor => Some(Question::Read(0x1018, 1)),
        Field::Product => Some(Question::Read(0x1018, 2)),
        Field::Revision => Some(Question::Read(0x1018, 3)),
        Field::Serial => Some(Question::Read(0x1018, 4)),
        Field::State if entry.heartbeat_ms == 0 => Some(Question::StateByGuard),
        Field::State => Some(Question::StateByBeat),
        Field::Date => Some(Question::Read(0x1020, 1)),
        Field::Time => Some(Question::Read(0x1020, 2)),
        Field::Writes => match entry.writes.as_slice().get(answers.acked as usize) {
            Some(write) => Some(Question::Write(*write)),
            None => None,
        },
        Field::Beat => Some(Question::Beat),
    }
}

/// What an answer to a read is recorded as; `None` where it doesn't fit.
fn got_of(answer: Answer) -> Option<Got>
    ensures { result ≡ got_of answer }
{
    match answer {
        Answer::Value(value) => Some(Got::Value(value)),
        Answer::Abort(code) => Some(Got::Abort(code)),
        Answer::Silent => Some(Got::Silent),
        _ => None,
    }
}

/// What an answer to a state question is recorded as; `None` where it doesn't fit.
fn heard_of(answer: Answer) -> Option<Heard>
    ensures { result ≡ heard_of answer }
{
    match answer {
        Answer::State(state) => Some(Heard::State(state)),
        Answer::Silent => Some(Heard::Silent),
        _ => None,
    }
}

/// The answers with the answer to a write.
fn with_write(answers: &Answers, answer: Answer) -> Option<Answers>
    requires { answers.now.acked < 255 }
    ensures { result ≡ with_write answers.now answer }
{
    let mut after = *answers;
    match answer {
        Answer::Acked => after.acked += 1,
        Answer::Abort(code) => after.refused = Got::Abort(code),
        Answer::Silent => after.refused = Got::Silent,
        _ => return None,
    }
    Some(after)
}

/// The answers with the answer to a read of 1018h sub `place + 1`.
fn with_id(answers: &Answers, place: usize, answer: Answer) -> Option<Answers>
    requires { place < 4 }
    ensures { result ≡ option_map
        (λ g. record answers.now { ids = slice_set answers.now.ids place g })
        (got_of answer) }
{
    let mut after = *answers;
    after.ids[place] = got_of(answer)?;
    Some(after)
}

/// The answers with this answer in the field; `None` where it doesn't fit the field's question.
#[tactic(auto, unfolding(crate::specs::Progress::with_answer))]
fn with_answer(answers: &Answers, field: Field, answer: Answer) -> Option<Answers>
    requires { field ≡ Field.Writes → answers.now.acked < 255 }
    ensures { result ≡ with_answer answers.now field answer }
{
    let mut after = *answers;
    match field {
        Field::Device => after.device = got_of(answer)?,
        Field::Vendor => return with_id(answers, 0, answer),
        Field::Product => return with_id(answers, 1, answer),
        Field::Revision => return with_id(answers, 2, answer),
        Field::Serial => return with_id(answers, 3, answer),
        Field::State => after.heard = heard_of(answer)?,
        Field::Date => after.date = got_of(answer)?,
        Field::Time => after.time = got_of(answer)?,
        Field::Writes => return with_write(answers, answer),
        Field::Beat => after.beat = heard_of(answer)?,
    }
    Some(after)
}

impl<'n> Boot<'n> {
    /// The boot of this node, before its first question. A node that isn't listed has none, and its
    /// boot has ended with status A.
    pub fn new(network: &'n Network, id: NodeId) -> Boot<'n>
        ensures entry { result.entry ≡ entry_of network.now id }
        ensures answers { result.answers ≡ none }
    {
        let answers = Answers::new();
        let Some(entry) = network.entry(id) else {
            return Boot {
                entry: None,
                answers,
            };
        };
        let _terms = entry.terms();
        Boot {
            entry: Some(entry),
            answers,
        }
    }

    /// What was answered so far.
    pub fn answers(&self) -> Answers
        ensures value { result ≡ self.now.answers }
        ensures proper { is_proper (terms_of_boot self.now) result ≡ true }
        ensures reached { Reached (terms_of_boot self.now) result }
        ensures few { length (asked self.now.entry result) ≤ 41 }
        ensures kept { IsBooting self.now }
    {
        self.answers
    }

    /// What is asked next, or the status with which the boot has ended.
    pub fn next(&self) -> Step
        ensures next { next_step self.now ≡ Some result }
        ensures kept { IsBooting self.now }
    {
        let Some(entry) = self.entry else {
            return Step::Done(status_of(None, &self.answers));
        };
        let terms = entry.terms();
        let Some(field) = next_field(&terms, &self.answers) else {
            return Step::Done(status_of(Some(terms), &self.answers));
        };
        let Some(question) = question(entry, &self.answers, field) else {
            unreachable!()
        };
        Step::Ask(question)
    }

    /// Takes the answer to the question that is due. A read takes a value, an abort or silence; a
    /// write an acknowledgement, an abort or silence; the others a state or silence. Any other
    /// answer, and each one after the end, is refused and changes nothing.
    pub fn answer(&mut self, answer: Answer) -> Result<(), WrongAnswer>
        ensures entry { self.new.entry ≡ self.old.entry }
        ensures ok { OnOk result (answers_after self.old answer ≡ Some self.new.answers) }
        ensures refused { IsErr result → answers_after self.old answer ≡ None }
        ensures err { OnErr result (self.new ≡ self.old) }
    {
        let Some(entry) = self.entry else {
            return Err(WrongAnswer);
        };
        let terms = entry.terms();
        let Some(field) = next_field(&terms, &self.answers) else {
            return Err(WrongAnswer);
        };
        let Some(after) = with_answer(&self.answers, field, answer) else {
            return Err(WrongAnswer);
        };
        self.answers = after;
        Ok(())
    }
}
