ghost use Rattle.std.specs.Prelude.{◌≡◌, ◌≤◌, ℕ, true, Some, length};
ghost use Rattle.cm_netlist.specs.Network.{entry as entry_of, terms as terms_in};
ghost use Rattle.cm_nmt.specs.Conditions.{is_lawful};
ghost use Rattle.cm_boot.specs.Progress.{answers_after, question_due};
ghost use Rattle.cm_boot.specs.Questions.{counted};
ghost use Rattle.cm_boot.specs.Talk.{Talks, asked};

use crate::{Answer, Boot, Question, Step};
use cm_netlist::Network;
use cm_nmt::{Answers, NodeId};

/// A way to ask slaves: SDO transfers, heartbeats and guard requests.
pub trait Bus: Drop {
    ghost use Rattle.cm_boot.specs.declared.question.Question.{Question as Asked};
    ghost use Rattle.cm_boot.specs.declared.question.Answer.{Answer as Given};

    /// The steps of this bus: before it, the node-ID, the question, the answer, after it.
    ghost step: { Self → ℕ → Asked → Given → Self → Type 0 };

    /// Asks the node one question, and gives its answer, or silence where none came in time. An
    /// answer that doesn't fit the question counts as silence.
    fn ask(&mut self, id: NodeId, question: Question) -> Answer
        ensures { step self.old id question result self.new };
}

/// Takes an answer, as silence where it doesn't fit the question that is due.
fn take(boot: &mut Boot<'_>, answer: Answer)
    ensures entry { boot.new.entry ≡ boot.old.entry }
    ensures taken { (q : _) → question_due boot.old ≡ Some q
        → answers_after boot.old (counted q answer) ≡ Some boot.new.answers }
{
    match boot.answer(answer) {
        Ok(()) => {}
        Err(_) => match boot.answer(Answer::Silent) {
            Ok(()) => {}
            Err(_) => {}
        },
    }
}

/// Boots a slave over a bus, and gives its answers. At most 41 questions are asked, and none of a
/// node that isn't listed; an answer that doesn't fit its question counts as silence. It returns
/// over every bus whose `ask` returns.
pub fn boot_slave<B: Bus>(bus: &mut B, network: &Network, id: NodeId) -> Answers
    ensures lawful { is_lawful (terms_in network.now id) result ≡ true }
    ensures talk { Talks (λ b q x c. B.step b id q x c) bus.old
        (asked (entry_of network.now id) result) bus.new }
    ensures few { length (asked (entry_of network.now id) result) ≤ 41 }
{
    let mut boot = Boot::new(network, id);
    for turn in 0..41u8 {
        let Step::Ask(question) = boot.next() else {
            return boot.answers();
        };
        let answer = bus.ask(id, question);
        take(&mut boot, answer);
    }
    boot.answers()
}
