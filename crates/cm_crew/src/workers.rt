//! The workers of a live run: who they are, their threads, and what each does.
ghost use Rattle.std.specs.Prelude.{◌≡◌, ◌+◌, ◌≤◌, [], All, IfOk, Some, min, vec_len};
ghost use Rattle.cm_register.specs.Reads.{HasMadeCalls};
ghost use Rattle.cm_bus.specs.Sent.{IsHadBy};
ghost use Rattle.cm_crew.specs.Faults.{fault_of};

use crate::booth::Booth;
use crate::heard_seat::HeardSeat;
use cm_bus::{CausedOutlet, LivePort, Setting, make_bus};
use cm_can::Request;
use cm_history::CallFault;
use cm_nmt::NodeId;
use cm_receiving::{BusName, Notification, Received};
use cm_register::{RunName, Seat, SharedManager};
use cm_run::{Last, Outcome};
use crossbeam_channel::{Receiver, Sender};
use std::alloc::{AllocError, Global};
use std::io::Write;
use std::sync::Wait;
use std::sync::atomic::{AtomicBool, Ordering};
use std::thread::{JoinHandle, Scope, Threads};
use std::time::Clock;

/// What one worker is made of.
#[derive(Drop)]
pub struct Worker<'n, R: Wait + Clock + Drop, K: RunName, B: BusName, W: Write + Drop> {
    booth: Booth<'n, K, B, LivePort<R, B, W>>,
    jobs: Receiver<NodeId>,
    notifications: Sender<Notification>,
    attempts: u8,
}

/// What a worker leaves: its seat, and by what it has written its requests.
#[derive(Drop)]
pub struct Left<K: RunName, B: BusName, W: Write + Drop> {
    pub seat: HeardSeat<K, B>,
    pub outlet: CausedOutlet<W, B, Request>,
}

/// Why a call couldn't be made, if one couldn't.
fn fault_of(outcome: &Outcome) -> Option<CallFault>
    ensures { result ≡ fault_of outcome.now.last }
{
    match outcome.last {
        Last::Status(_) | Last::Refused(_) | Last::Left => None,
        Last::Fault(fault) => Some(fault),
    }
}

/// Boots the slaves that are handed to a worker, and tells what came of each, until the run is over: a boot that is under way
/// then is left without a report.
fn boot_handed<
    'n,
    R: Wait + Clock + Drop,
    K: RunName,
    B: BusName,
    M: SharedManager<K, R>,
    W: Write + Drop,
>(
    rt: &R,
    register: &M,
    booth: &mut Booth<'n, K, B, LivePort<R, B, W>>,
    jobs: &Receiver<NodeId>,
    notifications: &Sender<Notification>,
    attempts: u8,
    over: &AtomicBool,
)
    requires { (1 ≤ attempts) × (attempts ≤ 10) }
    ensures { HasMadeCalls booth.old booth.new }
{
    for _ in rt.forever() {
        let Ok(id) = jobs.recv(rt) else {
            return;
        };
        if over.load(Ordering::SeqCst) {
            return;
        }
        // Another worker's slave never comes: the watcher hands out each to its own.
        let fault = match booth.boot(rt, register, id, attempts, over) {
            Some(outcome) => fault_of(&outcome),
            None => None,
        };
        let _ = notifications.send(rt, Notification::Ended(id, fault));
    }
}

/// What one worker does: rounds of the slaves that it is handed, until the run is over.
fn work<
    'n,
    R: Wait + Clock + Drop,
    K: RunName,
    B: BusName,
    M: SharedManager<K, R>,
    W: Write + Drop,
>(rt: &R, register: &M, worker: Worker<'n, R, K, B, W>, over: &AtomicBool) -> Left<K, B, W>
    ensures { HasMadeCalls worker.entry.booth result.seat }
{
    let Worker {
        mut booth,
        jobs,
        notifications,
        attempts,
    } = worker;
    let attempts = attempts.clamp(1, 10);
    boot_handed(
        rt,
        register,
        &mut booth,
        &jobs,
        &notifications,
        attempts,
        over,
    );
    let (seat, LivePort { outlet, .. }) = booth.into_parts();
    Left { seat, outlet }
}

/// The workers of a live run, with the ends of their channels.
#[derive(Drop)]
pub struct Workers<'n, R: Wait + Clock + Drop, K: RunName, B: BusName, W: Write + Drop> {
    pub workers: Vec<Worker<'n, R, K, B, W>>,
    /// By which each worker gets frames.
    pub hears: Vec<Sender<Received<B>>>,
    /// By which each worker gets slaves.
    pub jobs: Vec<Sender<NodeId>>,
}

/// A worker with this seat that tries a slave so often at most, and the ends of its channels by which it gets frames and slaves.
fn make_worker<'a, 'n, R: Wait + Clock + Clone + Drop, K: RunName, B: BusName, W: Write + Drop>(
    setting: &Setting<'a, 'n, R>,
    attempts: u8,
    place: usize,
    seat: Seat<K>,
    writer: W,
) -> Result<(Worker<'n, R, K, B, W>, Sender<Received<B>>, Sender<NodeId>), AllocError>
    requires list { seat.list ≡ [] }
    requires workers { (1 ≤ setting.now.options.workers) × (setting.now.options.workers + 1 ≡ K.seats) }
    requires format { setting.now.options.format ≡ B.format }
    requires had { W.contents writer ≡ B.had (Some place) }
    ensures seat { IfOk result (λ r. r.0.booth ≡ seat) }
    ensures attempts { IfOk result (λ r. r.0.attempts ≡ attempts) }
{
    let notifications = setting.notifications.clone()?;
    let (tells, jobs) = crossbeam_channel::unbounded(setting.alloc)?;
    let (bus, hears) = make_bus(setting, place, writer)?;
    let worker = Worker {
        booth: Booth::new(seat, bus, u16::from(setting.options.workers)),
        jobs,
        notifications,
        attempts,
    };
    Ok((worker, hears, tells))
}

impl<'n, R: Wait + Clock + Drop, K: RunName, B: BusName, W: Write + Drop> Workers<'n, R, K, B, W> {
    /// Nobody.
    fn new(alloc: Global) -> Workers<'n, R, K, B, W>
        ensures workers { vec_len result.workers ≡ 0 }
        ensures channels { (vec_len result.hears ≡ 0) × (vec_len result.jobs ≡ 0) }
    {
        Workers {
            workers: Vec::new(alloc),
            hears: Vec::new(alloc),
            jobs: Vec::new(alloc),
        }
    }

    /// Takes in a worker, with the ends of its channels.
    fn take(
        &mut self,
        worker: Worker<'n, R, K, B, W>,
        hears: Sender<Received<B>>,
        jobs: Sender<NodeId>,
    ) -> Result<(), AllocError>
        ensures workers { IfOk result (λ _. vec_len self.new.workers ≡ vec_len self.old.workers + 1) }
        ensures channels { IfOk result (λ _. (vec_len self.new.hears ≡ vec_len self.old.hears + 1)
            × (vec_len self.new.jobs ≡ vec_len self.old.jobs + 1)) }
    {
        self.workers.push(worker)?;
        self.hears.push(hears)?;
        self.jobs.push(jobs)?;
        Ok(())
    }
}

/// The workers, one for each seat, each of which tries a slave so often at most, and the channels to them. The conditions say that `B` knows
/// in what lines frames are written, and what their writers have.
pub fn make_workers<
    'a,
    'n,
    R: Wait + Clock + Clone + Drop,
    K: RunName,
    B: BusName,
    W: Write + Drop,
>(
    setting: &Setting<'a, 'n, R>,
    attempts: u8,
    mut seats: Vec<Seat<K>>,
    written: Vec<W>,
) -> Result<Workers<'n, R, K, B, W>, AllocError>
    requires seats { All (λ s. s.list ≡ []) seats.items }
    requires workers { (1 ≤ setting.now.options.workers) × (setting.now.options.workers + 1 ≡ K.seats) }
    requires format { setting.now.options.format ≡ B.format }
    requires had { IsHadBy W.contents B.had written.items }
    ensures workers { IfOk result (λ m. vec_len m.workers ≡ min (vec_len seats) (vec_len written)) }
    ensures channels { IfOk result (λ m. (vec_len m.hears ≡ vec_len m.workers)
        × (vec_len m.jobs ≡ vec_len m.workers)) }
{
    let mut made = Workers::new(setting.alloc);
    for writer in written {
        if seats.is_empty() {
            break;
        }
        let seat = seats.remove(0);
        let place = made.workers.len();
        let (worker, hears, jobs) = make_worker(setting, attempts, place, seat, writer)?;
        made.take(worker, hears, jobs)?;
    }
    Ok(made)
}

/// Starts a thread for a worker. The answer is whether it has one.
fn start_worker<
    's,
    V,
    R: Wait + Threads + Clock + Send + Sync + Drop + 's,
    K: RunName + Send + Sync + 's,
    B: BusName + Send + Sync + 's,
    M: SharedManager<K, R> + Sync + 's,
    W: Write + Drop + Send + 's,
>(
    scope: &Scope<'s, V>,
    rt: &'s R,
    register: &'s M,
    worker: Worker<'s, R, K, B, W>,
    over: &'s AtomicBool,
    handles: &mut Vec<JoinHandle<Left<K, B, W>>>,
) -> bool {
    match scope.spawn(move || work(rt, register, worker, over)) {
        Ok(handle) => handles.push(handle).is_ok(),
        Err(_) => false,
    }
}

/// Starts a thread for each worker. The answer is whether each has one.
pub fn start_workers<
    's,
    V,
    R: Wait + Threads + Clock + Send + Sync + Drop + 's,
    K: RunName + Send + Sync + 's,
    B: BusName + Send + Sync + 's,
    M: SharedManager<K, R> + Sync + 's,
    W: Write + Drop + Send + 's,
>(
    scope: &Scope<'s, V>,
    rt: &'s R,
    register: &'s M,
    workers: Vec<Worker<'s, R, K, B, W>>,
    over: &'s AtomicBool,
    handles: &mut Vec<JoinHandle<Left<K, B, W>>>,
) -> bool {
    for worker in workers {
        if !start_worker(scope, rt, register, worker, over, handles) {
            return false;
        }
    }
    true
}

/// Waits for the workers, and puts their seats, and by what they have written, behind the others.
pub fn join_workers<R: Threads, K: RunName, B: BusName, W: Write + Drop>(
    rt: &R,
    handles: Vec<JoinHandle<Left<K, B, W>>>,
    seats: &mut Vec<HeardSeat<K, B>>,
    outlets: &mut Vec<CausedOutlet<W, B, Request>>,
) -> Result<(), AllocError>
    ensures seats { IfOk result (λ _. vec_len seats.new ≡ vec_len seats.old + vec_len handles) }
    ensures outlets { IfOk result (λ _. vec_len outlets.new ≡ vec_len outlets.old + vec_len handles) }
{
    for handle in handles {
        let Left { seat, outlet } = handle.join(rt);
        seats.push(seat)?;
        outlets.push(outlet)?;
    }
    Ok(())
}
