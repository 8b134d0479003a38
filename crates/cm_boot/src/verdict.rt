ghost use Rattle.std.specs.Prelude.{◌≡◌, ◌↔◌, Some};
ghost use Rattle.cm_netlist.specs.Network.{terms};
ghost use Rattle.cm_boot.specs.Procedure.{IsEnd};
ghost use Rattle.cm_nmt.specs.Verdict.{judged};

use cm_netlist::Network;
use cm_nmt::{Answers, NodeId, Status, Terms, count_ids, judged_by_tables};

/// The status of a boot of the slave that ended with these answers; `None` exactly where no boot
/// ends with them. `terms` is what is listed of the slave, `None` for one that isn't listed.
///
/// The clause `value` says so by the tables, the clause `ends` by the procedure, question by
/// question.
pub fn judge_terms(terms: Option<Terms>, answers: &Answers) -> Option<Status>
    ensures value { result ≡ judged terms answers.now }
    ensures ends { (s : _) → result ≡ Some s ↔ IsEnd terms answers.now s }
{
    count_ids(answers);
    judged_by_tables(terms.as_ref(), answers)
}

/// The status of a boot of this node that ended with these answers; `None` exactly where no boot of
/// it ends with them. A node that isn't listed has no question, and status A.
pub fn judge(network: &Network, id: NodeId, answers: &Answers) -> Option<Status>
    ensures value { result ≡ judged (terms network.now id) answers.now }
    ensures ends { (s : _) → result ≡ Some s ↔ IsEnd (terms network.now id) answers.now s }
{
    judge_terms(network.terms(id), answers)
}
