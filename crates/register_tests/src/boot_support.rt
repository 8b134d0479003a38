//! What the tests of boots, of an operator and of a live bus call.

ghost use Rattle.std.specs.Prelude.{⊤};

use crate::support::{is_made, node};
use cm_boot::{Answer, Bus, Question};
use cm_history::{Call, Reply};
use cm_netlist::{Network, worker_at};
use cm_nmt::NodeId;
use cm_register::{Register, RunName, Seat};
use cm_run::{Last, Outcome, SimBus, SimSlave, SimWire};
use std::alloc::Global;
use std::process::Abort;
use std::sync::Wait;
use std::sync::atomic::{AtomicUsize, Ordering};
use std::thread;

/// How many turns are waited at most.
const TURNS: u32 = 1_000_000;

/// The last seat, the operator's, by which the network is started; the workers' are left.
pub(crate) fn start<K: RunName, R: Wait + Abort>(
    rt: &R,
    register: &Register<SimWire, K>,
    seats: &mut Vec<Seat<K>>,
) -> Seat<K> {
    let mut operator = seats.pop().expect(rt, "a seat");
    let start = register.call(rt, &mut operator, Call::StartNetwork);
    is_made(rt, start, 1, Reply::Started);
    operator
}

/// The workers' seats, and the operator's behind them.
pub(crate) fn with_operator<K: RunName>(
    rt: &impl Abort,
    mut seats: Vec<Seat<K>>,
    operator: Seat<K>,
) -> Vec<Seat<K>> {
    seats.push(operator).ok().expect(rt, "memory");
    seats
}

/// What this many attempts at a slave came to.
pub(crate) fn outcome(rt: &impl Abort, number: u8, attempts: u8, last: Last) -> Outcome {
    Outcome {
        id: node(rt, number),
        attempts,
        last,
    }
}

/// A bus for each worker, with its slaves, which agree with the list.
pub(crate) fn agreeing(
    rt: &impl Abort,
    alloc: Global,
    net: &Network,
    workers: usize,
) -> Vec<SimBus> {
    let mut buses = Vec::new(alloc);
    for worker in 0..workers {
        let mut bus = SimBus::new();
        for (place, id) in net.listed_ids().iter().enumerate() {
            if let (true, Some(slave)) = (
                worker_at(workers, place) == worker,
                SimSlave::agreeing(net, *id),
            ) {
                bus.put(*id, slave);
            }
        }
        buses.push(bus).ok().expect(rt, "memory");
    }
    buses
}

/// Whether the count comes to this many in time.
pub(crate) fn reaches(count: &AtomicUsize, least: usize) -> bool {
    for _ in 0..TURNS {
        if count.load(Ordering::SeqCst) >= least {
            return true;
        }
        thread::yield_now();
    }
    false
}

/// A bus that counts its questions, and holds each answer until another count has come to this many;
/// it is silent where that isn't so in time.
#[derive(Drop)]
pub(crate) struct HeldBus<'a> {
    slaves: SimBus,
    asked: &'a AtomicUsize,
    awaited: &'a AtomicUsize,
    least: usize,
}

impl<'a> Bus for HeldBus<'a> {
    ghost step = { λ _ _ _ _ _. ⊤ };

    fn ask(&mut self, id: NodeId, question: Question) -> Answer {
        self.asked.fetch_add(1, Ordering::SeqCst);
        if !reaches(self.awaited, self.least) {
            return Answer::Silent;
        }
        self.slaves.ask(id, question)
    }
}

/// A bus for each worker, with its slaves, which agree with the list and whose answers are held.
pub(crate) fn held<'a>(
    rt: &impl Abort,
    alloc: Global,
    net: &Network,
    workers: usize,
    asked: &'a AtomicUsize,
    awaited: &'a AtomicUsize,
    least: usize,
) -> Vec<HeldBus<'a>> {
    let mut buses = Vec::new(alloc);
    for slaves in agreeing(rt, alloc, net, workers).iter() {
        let bus = HeldBus {
            slaves: *slaves,
            asked,
            awaited,
            least,
        };
        buses.push(bus).ok().expect(rt, "memory");
    }
    buses
}
