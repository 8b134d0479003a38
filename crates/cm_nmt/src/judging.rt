ghost use Rattle.std.specs.Prelude.{◌≡◌, [], ◌∷◌, true, false, Some, None, if◌then◌else◌, IfSome};
ghost use Rattle.cm_nmt.specs.Conditions.{identity_agrees, is_lawful, may_configure, must_write};
ghost use Rattle.cm_nmt.specs.Judging.{are_settled, is_settled, reaches};
ghost use Rattle.cm_nmt.specs.Fields.{fields};
ghost use Rattle.cm_nmt.specs.declared.field.Field.TheVariants.{Device, Vendor, Product, Revision, Serial, State, Date, Time, Writes, Beat};

use crate::Answers;
use crate::conditions::{
    asks_identity, comes_to_beat, is_complete, is_due, is_used, matches, may_configure, must_write,
    writes_are_counted,
};
use crate::field::Field;
use crate::terms::Terms;

// Whether a boot can end with the answers: each agreement is judged once, from the one before it.
// Where one fails, the functions go on with `false` in its place. Inlined, each later field then
// costs one test: whether it has an answer.

/// Whether the field has all its answers where its question is asked, and none where it isn't.
#[inline(always)]
fn is_settled(terms: &Terms, answers: &Answers, field: Field, is_reached: bool) -> bool
    requires { is_reached ≡ reaches terms.now answers.now field }
    ensures { result ≡ is_settled terms.now answers.now field }
{
    if is_due(terms, answers, field, is_reached) {
        is_complete(terms, answers, field)
    } else {
        !is_used(answers, field)
    }
}

/// Whether each field from the date on is, where the slave may not be configured.
#[inline(always)]
#[tactic(auto, unfolding(crate::specs::Conditions::must_write))]
fn configuration_skipped(terms: &Terms, answers: &Answers, identity: bool) -> bool
    requires identity { identity ≡ identity_agrees terms.now answers.now }
    requires closed { may_configure terms.now answers.now ≡ false }
    ensures { result ≡ are_settled terms.now answers.now (Date ∷ Time ∷ Writes ∷ Beat ∷ []) }
{
    let beats = comes_to_beat(terms, answers, identity, false, false);
    is_settled(terms, answers, Field::Date, false)
        && is_settled(terms, answers, Field::Time, false)
        && is_settled(terms, answers, Field::Writes, false)
        && is_settled(terms, answers, Field::Beat, beats)
}

/// Whether each field from the date on is, where the slave may be configured.
#[inline(always)]
#[tactic(auto, unfolding(crate::specs::Conditions::may_configure))]
fn configuration_settled(terms: &Terms, answers: &Answers) -> bool
    requires { may_configure terms.now answers.now ≡ true }
    ensures { result ≡ are_settled terms.now answers.now (Date ∷ Time ∷ Writes ∷ Beat ∷ []) }
{
    if !is_settled(terms, answers, Field::Date, true)
        || !is_settled(terms, answers, Field::Time, true)
    {
        return false;
    }
    let writes = must_write(terms, answers, true);
    let beats = comes_to_beat(terms, answers, true, true, writes);
    is_settled(terms, answers, Field::Writes, writes)
        && is_settled(terms, answers, Field::Beat, beats)
}

/// Whether each field from the state on is, where the identity agrees.
#[inline(always)]
fn rest_settled(terms: &Terms, answers: &Answers) -> bool
    requires { identity_agrees terms.now answers.now ≡ true }
    ensures { result
        ≡ are_settled terms.now answers.now (State ∷ Date ∷ Time ∷ Writes ∷ Beat ∷ []) }
{
    if !is_settled(terms, answers, Field::State, true) {
        return false;
    }
    if may_configure(terms, answers, true) {
        configuration_settled(terms, answers)
    } else {
        configuration_skipped(terms, answers, true)
    }
}

/// Whether each field from the state on is, where the identity doesn't agree.
#[inline(always)]
#[tactic(auto, unfolding(crate::specs::Conditions::may_configure))]
fn rest_skipped(terms: &Terms, answers: &Answers) -> bool
    requires { identity_agrees terms.now answers.now ≡ false }
    ensures { result
        ≡ are_settled terms.now answers.now (State ∷ Date ∷ Time ∷ Writes ∷ Beat ∷ []) }
{
    is_settled(terms, answers, Field::State, false) && configuration_skipped(terms, answers, false)
}

/// Whether the identity agrees; `None` where a field up to the serial number isn't settled.
#[inline(always)]
#[tactic(auto, using(crate::proofs::Identity::identity_steps))]
fn settled_identity(terms: &Terms, answers: &Answers) -> Option<bool>
    ensures { result ≡
        (if are_settled terms.now answers.now (Device ∷ Vendor ∷ Product ∷ Revision ∷ Serial ∷ [])
        then Some (identity_agrees terms.now answers.now) else None) }
{
    if !is_settled(terms, answers, Field::Device, true) {
        return None;
    }
    let asks = asks_identity(terms, answers);
    if !is_settled(terms, answers, Field::Vendor, asks) {
        return None;
    }
    let vendor = asks && matches(terms.vendor, 0, answers);
    if !is_settled(terms, answers, Field::Product, vendor) {
        return None;
    }
    let product = vendor && matches(terms.product, 1, answers);
    if !is_settled(terms, answers, Field::Revision, product) {
        return None;
    }
    let revision = product && matches(terms.revision, 2, answers);
    if !is_settled(terms, answers, Field::Serial, revision) {
        return None;
    }
    Some(revision && matches(terms.serial, 3, answers))
}

/// Whether the identity agrees; `None` where a field isn't settled.
#[inline(always)]
#[tactic(auto, unfolding(crate::specs::Fields::fields))]
fn identity_of_settled(terms: &Terms, answers: &Answers) -> Option<bool>
    ensures { result ≡ (if are_settled terms.now answers.now fields
        then Some (identity_agrees terms.now answers.now) else None) }
{
    match settled_identity(terms, answers) {
        Some(true) if rest_settled(terms, answers) => Some(true),
        Some(false) if rest_skipped(terms, answers) => Some(false),
        _ => None,
    }
}

/// Whether the identity agrees, in answers with which a boot can end; `None` for others.
#[inline(always)]
pub(crate) fn lawful_identity(terms: &Terms, answers: &Answers) -> Option<bool>
    ensures lawful { result ≡ (if is_lawful (Some terms.now) answers.now
        then Some (identity_agrees terms.now answers.now) else None) }
    ensures settled { IfSome result (λ agrees. are_settled terms.now answers.now fields ≡ true) }
{
    if !writes_are_counted(terms, answers) {
        return None;
    }
    identity_of_settled(terms, answers)
}
