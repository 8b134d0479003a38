//! What the operator of a run does behind the boots: slaves that died are reported as lost.

ghost use Rattle.std.specs.Prelude.{◌≡◌, ◌∷◌, Err, IfOk, OnOk};
ghost use Rattle.canboot_run.specs.Simulated.{HasEnded, calls_behind, is_booted, is_lost};

use crate::slave_faults::SlaveFaults;
use cm_history::Call;
use cm_register::{RunName, Seat, SharedManager};
use cm_run::{Last, NoHistory, Outcome, not_called, operate};
use std::alloc::{AllocError, Global};
use std::sync::Wait;

/// Whether the slave is booted.
fn is_booted(outcome: &Outcome) -> bool
    ensures { result ≡ is_booted outcome.now }
{
    match outcome.last {
        Last::Status(status) => status.is_good(),
        Last::Refused(_) | Last::Fault(_) | Last::Left => false,
    }
}

/// Whether the slave is booted, and dies then.
fn is_lost(faults: &SlaveFaults, outcome: &Outcome) -> bool
    ensures { result ≡ is_lost faults.now outcome.now }
{
    faults.dying.contains(outcome.id) && is_booted(outcome)
}

/// The operator's calls behind the boots that came to these outcomes.
fn calls_behind(
    alloc: Global,
    faults: &SlaveFaults,
    outcomes: &[Outcome],
) -> Result<Vec<Call>, AllocError>
    ensures { IfOk result (λ calls. calls.items ≡ calls_behind faults.now outcomes.now) }
{
    let mut calls = Vec::new(alloc);
    for outcome in outcomes {
        if is_lost(faults, outcome) {
            calls.push(Call::Lost(outcome.id))?;
        }
    }
    calls.push(Call::Elapsed(0))?;
    Ok(calls)
}

/// The operator's calls behind the boots: each slave that died is reported as lost, and then no time went by.
pub(crate) fn end<K: RunName, R: Wait, M: SharedManager<K, R>>(
    rt: &R,
    alloc: Global,
    register: &M,
    operator: &mut Seat<K>,
    faults: &SlaveFaults,
    outcomes: &[Outcome],
) -> Result<(), NoHistory>
    ensures ended { OnOk result (HasEnded faults.now outcomes.now operator.old operator.new) }
    ensures fault { result ≡ Err NoHistory.NotMaster → ⊥ }
{
    let Ok(calls) = calls_behind(alloc, faults, outcomes) else {
        return Err(NoHistory::OutOfMemory);
    };
    match operate(rt, alloc, register, operator, calls.as_slice()) {
        Ok(_) => Ok(()),
        Err(stopped) => Err(not_called(stopped.fault)),
    }
}
