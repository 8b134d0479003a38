ghost use Rattle.std.specs.Prelude.{◌≡◌, ◌<◌};
ghost use Rattle.cm_nmt.specs.Conditions.{asks_identity, comes_to_beat, condition, date_agrees, date_differs};
ghost use Rattle.cm_nmt.specs.Conditions.{device_agrees, has_no_answer, identity_agrees, is_complete, is_dated};
ghost use Rattle.cm_nmt.specs.Conditions.{is_used, matches, may_configure, must_write, writes_are_counted};
ghost use Rattle.cm_nmt.specs.Judging.{reaches};

use crate::Answers;
use crate::field::{Field, fields};
use crate::terms::Terms;

/// Whether the identity at this place agrees with the expected value; 0 isn't compared.
#[inline(always)]
#[tactic(auto, unfolding(crate::specs::Conditions::matches))]
pub(crate) fn matches(expected: u32, place: usize, answers: &Answers) -> bool
    requires { place < 4 }
    ensures { result ≡ matches expected place answers.now }
{
    expected == 0 || answers.id(place).is_value(expected)
}

/// Whether the device type was read and agrees; 0 isn't compared.
#[inline(always)]
#[tactic(auto, unfolding(crate::specs::Conditions::device_agrees))]
fn device_agrees(terms: &Terms, answers: &Answers) -> bool
    ensures { result ≡ device_agrees terms.now answers.now }
{
    let device = answers.device;
    device.has_value() && (terms.device_type == 0 || device.is_value(terms.device_type))
}

/// Whether the identity is asked for.
#[inline(always)]
#[tactic(auto, unfolding(crate::specs::Conditions::asks_identity))]
pub(crate) fn asks_identity(terms: &Terms, answers: &Answers) -> bool
    ensures { result ≡ asks_identity terms.now answers.now }
{
    terms.assignment.is_to_be_booted() && device_agrees(terms, answers)
}

/// Whether the slave may be configured, where `identity` says whether its identity agrees.
#[inline(always)]
#[tactic(auto, unfolding(crate::specs::Conditions::may_configure))]
pub(crate) fn may_configure(terms: &Terms, answers: &Answers, identity: bool) -> bool
    requires { identity ≡ identity_agrees terms.now answers.now }
    ensures { result ≡ may_configure terms.now answers.now }
{
    identity
        && !terms.assignment.verifies_software()
        && (!terms.assignment.is_kept_alive() || answers.heard.is_other_state())
}

/// Whether a configuration date and a time are expected.
#[inline(always)]
#[tactic(auto, unfolding(crate::specs::Conditions::is_dated))]
fn is_dated(terms: &Terms) -> bool
    ensures { result ≡ is_dated terms.now }
{
    !(terms.date == 0) && !(terms.time == 0)
}

/// Whether no configuration is needed: date and time were read as expected.
#[inline(always)]
#[tactic(auto, unfolding(crate::specs::Conditions::date_agrees))]
fn date_agrees(terms: &Terms, answers: &Answers) -> bool
    ensures { result ≡ date_agrees terms.now answers.now }
{
    is_dated(terms) && answers.date.is_value(terms.date) && answers.time.is_value(terms.time)
}

/// Whether a configuration is needed.
#[inline(always)]
#[tactic(auto, unfolding(crate::specs::Conditions::date_differs))]
fn date_differs(terms: &Terms, answers: &Answers) -> bool
    ensures { result ≡ date_differs terms.now answers.now }
{
    !is_dated(terms)
        || (answers.date.is_answered() && !answers.date.is_value(terms.date))
        || (answers.time.is_answered() && !answers.time.is_value(terms.time))
}

/// Whether the slave is configured, where `configures` says whether it may be.
#[inline(always)]
#[tactic(auto, unfolding(crate::specs::Conditions::must_write))]
pub(crate) fn must_write(terms: &Terms, answers: &Answers, configures: bool) -> bool
    requires { configures ≡ may_configure terms.now answers.now }
    ensures { result ≡ must_write terms.now answers.now }
{
    configures && date_differs(terms, answers)
}

/// Whether nothing but the start of error control is left.
#[inline(always)]
#[tactic(auto, unfolding(crate::specs::Conditions::comes_to_beat))]
pub(crate) fn comes_to_beat(
    terms: &Terms,
    answers: &Answers,
    identity: bool,
    configures: bool,
    writes: bool,
) -> bool
    requires identity { identity ≡ identity_agrees terms.now answers.now }
    requires configures { configures ≡ may_configure terms.now answers.now }
    requires writes { writes ≡ must_write terms.now answers.now }
    ensures { result ≡ comes_to_beat terms.now answers.now }
{
    !terms.assignment.is_to_be_booted()
        || (writes && answers.acked == terms.writes && !answers.refused.is_answered())
        || (configures && date_agrees(terms, answers))
        || (identity && answers.heard.is_operational())
}

/// Whether the boot comes to the field: all that its question comes after agrees.
#[tactic(auto, using(crate::proofs::Identity::identity_steps))]
fn reaches(terms: &Terms, answers: &Answers, field: Field) -> bool
    ensures { result ≡ reaches terms.now answers.now field }
{
    let asks = asks_identity(terms, answers);
    let vendor = asks && matches(terms.vendor, 0, answers);
    let product = vendor && matches(terms.product, 1, answers);
    let revision = product && matches(terms.revision, 2, answers);
    let identity = revision && matches(terms.serial, 3, answers);
    let configures = may_configure(terms, answers, identity);
    let writes = must_write(terms, answers, configures);
    match field {
        Field::Device => true,
        Field::Vendor => asks,
        Field::Product => vendor,
        Field::Revision => product,
        Field::Serial => revision,
        Field::State => identity,
        Field::Date | Field::Time => configures,
        Field::Writes => writes,
        Field::Beat => comes_to_beat(terms, answers, identity, configures, writes),
    }
}

/// Whether the field's question is asked.
#[inline(always)]
#[tactic(auto, unfolding(crate::specs::Conditions::condition))]
pub(crate) fn is_due(terms: &Terms, answers: &Answers, field: Field, is_reached: bool) -> bool
    requires { is_reached ≡ reaches terms.now answers.now field }
    ensures { result ≡ condition terms.now answers.now field }
{
    match field {
        Field::Device => terms.assignment.is_to_be_booted(),
        Field::Vendor => is_reached && !(terms.vendor == 0),
        Field::Product => is_reached && !(terms.product == 0),
        Field::Revision => is_reached && !(terms.revision == 0),
        Field::Serial => is_reached && !(terms.serial == 0),
        Field::State => is_reached && terms.assignment.is_kept_alive(),
        Field::Date => is_reached && is_dated(terms),
        Field::Time => is_reached && is_dated(terms) && answers.date.is_value(terms.date),
        Field::Writes => is_reached,
        Field::Beat => !(terms.heartbeat_ms == 0) && is_reached,
    }
}

/// Whether the field's question is asked of a slave of which this is listed, where what was asked
/// before it got these answers (CiA 302-2, boot slave; the order and the conditions are own).
pub fn condition(terms: &Terms, answers: &Answers, field: Field) -> bool
    ensures { result ≡ condition terms.now answers.now field }
{
    is_due(terms, answers, field, reaches(terms, answers, field))
}

/// Whether the field has an answer.
#[inline(always)]
#[tactic(auto, unfolding(crate::specs::Conditions::is_used))]
pub(crate) fn is_used(answers: &Answers, field: Field) -> bool
    ensures { result ≡ is_used answers.now field }
{
    match field {
        Field::Device => answers.device.is_answered(),
        Field::Vendor => answers.id(0).is_answered(),
        Field::Product => answers.id(1).is_answered(),
        Field::Revision => answers.id(2).is_answered(),
        Field::Serial => answers.id(3).is_answered(),
        Field::State => answers.heard.is_heard(),
        Field::Date => answers.date.is_answered(),
        Field::Time => answers.time.is_answered(),
        Field::Writes => !(answers.acked == 0) || answers.refused.is_answered(),
        Field::Beat => answers.beat.is_heard(),
    }
}

/// Whether the field has all its answers: for the writes, each of `terms.writes` was acknowledged,
/// or one failed; for another field, its question was asked (own).
#[inline(always)]
#[tactic(auto, unfolding(crate::specs::Conditions::is_complete))]
pub fn is_complete(terms: &Terms, answers: &Answers, field: Field) -> bool
    ensures { result ≡ is_complete terms.now answers.now field }
{
    match field {
        Field::Writes => answers.acked == terms.writes || answers.refused.is_answered(),
        _ => is_used(answers, field),
    }
}

/// Whether no more writes were acknowledged than are listed, and a failed one is one of them.
#[tactic(auto, unfolding(crate::specs::Conditions::writes_are_counted))]
pub(crate) fn writes_are_counted(terms: &Terms, answers: &Answers) -> bool
    ensures { result ≡ writes_are_counted terms.now answers.now }
{
    answers.acked <= terms.writes
        && (!answers.refused.is_answered()
            || (answers.acked < terms.writes && answers.refused.is_refusal()))
}

/// Whether no field is answered.
pub(crate) fn has_no_answer(answers: &Answers) -> bool
    ensures { result ≡ has_no_answer answers.now }
{
    fields().iter().all(|field| !is_used(answers, *field))
}
