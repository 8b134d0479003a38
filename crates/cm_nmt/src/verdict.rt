ghost use Rattle.std.specs.Prelude.{◌≡◌, ◌<◌, true, Some};
ghost use Rattle.std.specs.Option.{option_copied};
ghost use Rattle.cm_nmt.specs.Verdict.{is_wrong, judged, verdict};
ghost use Rattle.cm_nmt.specs.Conditions.{identity_agrees};
ghost use Rattle.cm_nmt.specs.Judging.{are_settled, IsIdentified};
ghost use Rattle.cm_nmt.specs.Fields.{fields};

use crate::conditions::has_no_answer;
use crate::judging::lawful_identity;
use crate::terms::Terms;
use crate::{Answers, Status};

/// Whether an identity was read and isn't the expected one.
fn is_wrong(answers: &Answers, place: usize, expected: u32) -> bool
    requires { place < 4 }
    ensures { result ≡ is_wrong answers.now place expected }
{
    let got = answers.id(place);
    got.is_answered() && !got.is_value(expected)
}

/// The status of a listed slave to which none of the rows B to O applies.
#[inline(always)]
#[tactic(auto, unfolding(crate::specs::Verdict::verdict))]
fn status_after_identity(terms: &Terms, answers: &Answers) -> Status
    requires { IsIdentified terms.now answers.now }
    ensures { result ≡ verdict (Some terms.now) answers.now }
{
    let boots = terms.assignment.is_to_be_booted();
    let operational = answers.heard.is_operational();
    if answers.heard.is_silent() && !(terms.heartbeat_ms == 0) {
        Status::E
    } else if answers.heard.is_silent() {
        Status::F
    } else if boots && terms.assignment.verifies_software() && !operational {
        Status::G
    } else if answers.refused.is_answered() {
        Status::J
    } else if answers.beat.is_silent() {
        Status::K
    } else if operational {
        Status::L
    } else {
        Status::Ok
    }
}

/// The status of answers with which a boot can end and whose identity agrees. None of its values is
/// compared again: each was read where it is expected, and as expected.
fn status_of_agreeing(terms: &Terms, answers: &Answers) -> Status
    requires agrees { identity_agrees terms.now answers.now ≡ true }
    requires settled { are_settled terms.now answers.now fields ≡ true }
    ensures { result ≡ verdict (Some terms.now) answers.now }
{
    status_after_identity(terms, answers)
}

/// The status that the answers come to (CiA 302-2, boot slave, error statuses; where each applies
/// is own): the first one whose row in the table applies. `terms` is what is listed of the slave,
/// `None` for one that isn't listed, whose status is A. Whether a boot ends with these answers it
/// doesn't look at; [`judged_by_tables`] does.
#[tactic(auto, unfolding(crate::specs::Verdict::verdict))]
pub fn status_of(terms: Option<Terms>, answers: &Answers) -> Status
    ensures { result ≡ verdict terms answers.now }
{
    let Some(terms) = terms else {
        return Status::A;
    };
    let device = answers.device;
    let boots = terms.assignment.is_to_be_booted();
    if boots && !device.has_value() {
        Status::B
    } else if device.has_value()
        && !(terms.device_type == 0)
        && !device.is_value(terms.device_type)
    {
        Status::C
    } else if is_wrong(answers, 0, terms.vendor) {
        Status::D
    } else if is_wrong(answers, 1, terms.product) {
        Status::M
    } else if is_wrong(answers, 2, terms.revision) {
        Status::N
    } else if is_wrong(answers, 3, terms.serial) {
        Status::O
    } else {
        status_after_identity(&terms, answers)
    }
}

/// As [`judged_by_tables`], of a slave of which this is listed.
#[tactic(auto, unfolding(crate::specs::Verdict::judged))]
fn judged_listed(terms: &Terms, answers: &Answers) -> Option<Status>
    ensures { result ≡ judged (Some terms.now) answers.now }
{
    match lawful_identity(terms, answers) {
        None => None,
        Some(true) => Some(status_of_agreeing(terms, answers)),
        Some(false) => Some(status_of(Some(*terms), answers)),
    }
}

/// The status of a boot that ended with these answers; `None` exactly where no boot ends with them.
/// `terms` is what is listed of the slave, `None` for one that isn't listed. It goes by the two
/// tables (CiA 302-2, boot slave): which answers are those of a boot, and which status they come
/// to.
#[tactic(auto, unfolding(crate::specs::Verdict::judged, crate::specs::Verdict::verdict))]
pub fn judged_by_tables(terms: Option<&Terms>, answers: &Answers) -> Option<Status>
    ensures { result ≡ judged (option_copied terms.entry) answers.now }
{
    match terms {
        Some(terms) => judged_listed(terms, answers),
        None if has_no_answer(answers) => Some(Status::A),
        None => None,
    }
}
