//! An operator who calls while a worker boots a slave: the slave's session is gone, and its boot is begun
//! again or not.

ghost use Rattle.cm_register.specs.Naming.{Names};

use crate::boot_support::{HeldBus, held, outcome, reaches, start, with_operator};
use crate::support::{close, is_made, named, network, node, open, sure};
use cm_history::{Call, Reply};
use cm_nmt::{NodeId, Status};
use cm_register::{Opened, Register, RunName, Seat};
use cm_run::{Booted, Last, SimWire, boot_all};
use std::alloc::Global;
use std::marker::Brand;
use std::process::Abort;
use std::sync::Wait;
use std::sync::atomic::{AtomicUsize, Ordering};
use std::thread;
use std::thread::Threads;

/// What the operator does while node 2 is asked, and what comes of it.
#[derive(Clone, Copy)]
struct Story {
    call: Call,
    reply: Reply,
    /// How many attempts are allowed, and how many are made.
    attempts: u8,
    last: Last,
    entries: usize,
    sessions: u64,
}

/// Makes the operator's call as soon as node 2 was asked something.
fn calls_when_asked<K: RunName, R: Wait + Abort>(
    rt: &R,
    register: &Register<SimWire, K>,
    operator: &mut Seat<K>,
    story: &Story,
    asked: &AtomicUsize,
    called: &AtomicUsize,
) {
    sure(rt, reaches(asked, 1));
    let made = register.call(rt, operator, story.call);
    is_made(rt, made, 3, story.reply);
    called.store(1, Ordering::SeqCst);
}

/// Boots node 2 in another thread, while the operator calls.
fn boots_beside<'a, K: RunName + Send + Sync, R: Wait + Threads + Abort + Send + Sync>(
    rt: &R,
    alloc: Global,
    register: &Register<SimWire, K>,
    seats: Vec<Seat<K>>,
    operator: &mut Seat<K>,
    story: &Story,
    asked: &'a AtomicUsize,
    called: &'a AtomicUsize,
) -> Booted<HeldBus<'a>, K> {
    let buses = held(rt, alloc, register.network(), 1, asked, called, 1);
    let attempts = story.attempts;
    let (booted, ()) = thread::join(
        rt,
        move || boot_all(rt, alloc, register, seats, buses, attempts),
        || calls_when_asked(rt, register, &mut *operator, story, asked, called),
    );
    booted.ok().expect(rt, "all booted")
}

/// The operator calls while the worker asks node 2; the worker's seat comes back.
fn boot_while_called<K: RunName + Send + Sync, R: Wait + Threads + Abort + Send + Sync>(
    rt: &R,
    alloc: Global,
    register: &Register<SimWire, K>,
    seats: Vec<Seat<K>>,
    operator: &mut Seat<K>,
    story: &Story,
) -> Vec<Seat<K>> {
    let asked = AtomicUsize::new(0);
    let called = AtomicUsize::new(0);
    let booted = boots_beside(rt, alloc, register, seats, operator, story, &asked, &called);
    let wanted = outcome(rt, 2, story.attempts, story.last);
    sure(rt, booted.outcomes.as_slice() == [wanted].as_slice());
    booted.seats
}

/// The operator starts the network, and calls while the worker asks node 2; all seats come back.
fn start_and_boot<K: RunName + Send + Sync, R: Wait + Threads + Abort + Send + Sync>(
    rt: &R,
    alloc: Global,
    register: &Register<SimWire, K>,
    mut seats: Vec<Seat<K>>,
    story: &Story,
) -> Vec<Seat<K>> {
    let mut operator = start(rt, register, &mut seats);
    let seats = boot_while_called(rt, alloc, register, seats, &mut operator, story);
    with_operator(rt, seats, operator)
}

/// The same, and what the register leaves.
fn tells<K: RunName + Send + Sync, R: Wait + Threads + Abort + Send + Sync>(
    rt: &R,
    alloc: Global,
    opened: Opened<SimWire>,
    story: &Story,
)
    requires { Names K.RunName opened }
{
    let (register, seats) = named::<K>(rt, opened);
    let seats = start_and_boot(rt, alloc, &register, seats, story);
    let closed = close(rt, register, seats);
    sure(rt, closed.history.len() == story.entries);
    sure(rt, closed.manager.begun() == story.sessions);
}

/// The boot-up message of node 2: its session ends, and another attempt is made, if one is allowed.
fn boots_up(id: NodeId, attempts: u8, last: Last, entries: usize) -> Story {
    Story {
        call: Call::Signal(id, 0),
        reply: Reply::BootAgain,
        attempts,
        last,
        entries,
        sessions: u64::from(attempts),
    }
}

#[test]
fn an_operator_calls_while_a_worker_boots(rt: HostRuntime) {
    let id = node(&rt, 2);
    let held = Story {
        call: Call::Hold(id),
        reply: Reply::Done,
        attempts: 2,
        last: Last::Refused(14),
        entries: 5,
        sessions: 1,
    };
    let stories = [
        boots_up(id, 2, Last::Status(Status::Ok), 6),
        boots_up(id, 1, Last::Refused(7), 4),
        held,
    ];
    for story in stories.iter() {
        let net = network(&rt, rt.alloc(), 127, &[(2, 0x0D)]);
        let opened = open(&rt, rt.alloc(), &net, 2, 20, 10);
        tells::<Brand, _>(&rt, rt.alloc(), opened, story);
    }
}
