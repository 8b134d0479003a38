//! Workers that work side by side: each bus holds its first answer until every other worker's bus was
//! asked. Of workers that take turns, whatever their order, all but the last would find it silent.

ghost use Rattle.cm_register.specs.Naming.{Names};

use crate::boot_support::{held, outcome, start, with_operator};
use crate::support::{close, named, network, open, sure};
use cm_nmt::Status;
use cm_register::{Opened, Register, RunName, Seat};
use cm_run::{Booted, Last, Outcome, SimWire, boot_all};
use std::alloc::Global;
use std::marker::Brand;
use std::process::Abort;
use std::sync::Wait;
use std::sync::atomic::AtomicUsize;
use std::thread::Threads;

/// Boots the slaves, each in one attempt, over buses that hold each answer until there were so many
/// questions, and gives the outcomes. All seats come back.
fn boot_held<K: RunName + Send + Sync, R: Wait + Threads + Abort + Send + Sync>(
    rt: &R,
    alloc: Global,
    register: &Register<SimWire, K>,
    mut seats: Vec<Seat<K>>,
    questions: usize,
) -> (Vec<Outcome>, Vec<Seat<K>>) {
    let operator = start(rt, register, &mut seats);
    let workers = seats.len();
    let asked = AtomicUsize::new(0);
    let net = register.network();
    let buses = held(rt, alloc, net, workers, &asked, &asked, questions);
    let booted = boot_all(rt, alloc, register, seats, buses, 1);
    let Booted {
        outcomes,
        seats,
        buses: _,
    } = booted.ok().expect(rt, "all booted");
    sure(rt, seats.len() == workers);
    (outcomes, with_operator(rt, seats, operator))
}

/// The same, and the register closes.
fn boots<K: RunName + Send + Sync, R: Wait + Threads + Abort + Send + Sync>(
    rt: &R,
    alloc: Global,
    opened: Opened<SimWire>,
    questions: usize,
) -> Vec<Outcome>
    requires { Names K.RunName opened }
{
    let (register, seats) = named::<K>(rt, opened);
    let (outcomes, seats) = boot_held(rt, alloc, &register, seats, questions);
    let closed = close(rt, register, seats);
    let two_for_each = outcomes.len().saturating_mul(2);
    sure(rt, closed.history.len() == two_for_each.saturating_add(1));
    outcomes
}

/// Asserts that so many slaves are booted.
fn are_booted(rt: &impl Abort, outcomes: &[Outcome], count: usize) {
    sure(rt, outcomes.len() == count);
    for outcome in outcomes.iter() {
        sure(rt, outcome.last == Last::Status(Status::Ok));
    }
}

/// Slaves at nodes 1 to 16.
fn sixteen_slaves() -> [(u8, u32); 16] {
    let mut slaves = [(0, 0x0D); 16];
    for (place, (number, _)) in slaves.iter_mut().enumerate() {
        *number = place as u8 + 1;
    }
    slaves
}

/// A slave for each worker.
#[test]
fn workers_work_side_by_side(rt: HostRuntime) {
    let slaves = sixteen_slaves();
    for workers in [2, 4, 16] {
        let listed = slaves.get(..workers).unwrap_or(&[]);
        let net = network(&rt, rt.alloc(), 127, listed);
        let opened = open(&rt, rt.alloc(), &net, workers as u16 + 1, 40, 20);
        let outcomes = boots::<Brand, _>(&rt, rt.alloc(), opened, workers);
        are_booted(&rt, outcomes.as_slice(), workers);
    }
}

/// Node 1's answer is held until node 2 was asked, which one worker does only behind it.
#[test]
fn one_worker_waits_in_vain(rt: HostRuntime) {
    let net = network(&rt, rt.alloc(), 127, &[(1, 0x0D), (2, 0x0D)]);
    let opened = open(&rt, rt.alloc(), &net, 2, 12, 10);
    let outcomes = boots::<Brand, _>(&rt, rt.alloc(), opened, 2);
    let wanted = [
        outcome(&rt, 1, 1, Last::Status(Status::B)),
        outcome(&rt, 2, 1, Last::Status(Status::Ok)),
    ];
    sure(&rt, outcomes.as_slice() == wanted.as_slice());
}
