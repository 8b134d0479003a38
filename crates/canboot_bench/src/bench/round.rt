//! One round of calls of a register: by some seats, each in a thread of its own, beside others that read, and beside one that
//! publishes versions.

ghost use Rattle.cm_register.specs.Naming.{Names};

use crate::bench::caller::{Caller, call_often};
use crate::bench::network::SLAVES;
use crate::bench::tape::Tape;
use crate::bench::timing::{nanos_since, rate_of};
use crate::closing::left_by;
use cm_history::{Call, Entry};
use cm_nmt::Terms;
use cm_register::{Opened, Register, RunName, Seat};
use cm_text::ENDLESS;
use cm_versions::Publisher;
use std::alloc::Global;
use std::rt::Clock;
use std::sync::Wait;
use std::sync::atomic::{AtomicU64, AtomicUsize, Ordering};
use std::thread::{self, Threads};
use std::time::{Duration, Instant};

/// How many entries a publisher takes at once at most.
const BATCH: usize = 64;

/// How long it pauses behind each batch while calls are made.
const PAUSE_MS: u64 = 5;

/// What a round is to measure: so many calls of each of so many seats; each other seat reads, and versions are published.
#[derive(Clone, Copy)]
pub struct Plan<'a> {
    pub terms: &'a [Terms],
    pub count: u32,
    pub callers: usize,
    pub publishes: bool,
}

/// What a round took: nanoseconds of a caller's calls, and in which all entries were taken, and told and published; and how
/// many reads a second there were.
#[derive(Clone, Copy)]
pub struct Round {
    pub calls: u64,
    pub reads: u64,
    pub taken: u64,
    pub told: u64,
}

/// What the threads of a round share.
#[derive(Drop)]
struct Board {
    /// How many seats are there, and how many callers aren't done yet.
    there: AtomicUsize,
    calling: AtomicUsize,
    /// How many seats have done all that they had to.
    finished: AtomicUsize,
    /// Nanoseconds of all callers.
    nanos: AtomicU64,
    /// Reads per second of all readers, and the sum of what they saw, so that no read is left out of the program.
    reads: AtomicU64,
    states: AtomicU64,
}

impl Board {
    /// Waits until so many seats are there.
    fn wait<R: Wait>(&self, rt: &R, seats: usize) {
        self.there.fetch_add(1, Ordering::SeqCst);
        for _ in rt.forever() {
            if self.there.load(Ordering::SeqCst) >= seats {
                return;
            }
            thread::yield_now();
        }
    }

    fn is_over(&self) -> bool {
        self.calling.load(Ordering::SeqCst) == 0
    }
}

/// Makes the calls of a seat.
fn call<R: Clock + Wait, K: RunName>(
    rt: &R,
    register: &Register<Tape, K>,
    seat: &mut Seat<K>,
    place: usize,
    plan: Plan,
    board: &Board,
) -> Option<()> {
    let from = Instant::now(rt).ok();
    let caller = Caller::new(place, plan.callers);
    let made = call_often(rt, register, seat, plan.terms, caller, plan.count);
    let nanos = nanos_since(rt, from);
    board.calling.fetch_sub(1, Ordering::SeqCst);
    made?;
    board.nanos.fetch_add(nanos?, Ordering::SeqCst);
    Some(())
}

/// Reads each slave once, and gives the sum of their states.
fn pass<K: RunName>(seat: &mut Seat<K>) -> Option<u64> {
    let mut states: u64 = 0;
    for number in 1..=SLAVES {
        let seen = seat.read(number).ok()?;
        states = states.saturating_add(u64::from(seen.state));
    }
    Some(states)
}

/// Reads from this seat until the calls are over.
fn read<R: Clock, K: RunName>(rt: &R, seat: &mut Seat<K>, board: &Board) -> Option<()> {
    let from = Instant::now(rt).ok();
    let mut passes: u64 = 0;
    let mut states: u64 = 0;
    for _ in 0..ENDLESS {
        if board.is_over() {
            break;
        }
        states = states.saturating_add(pass(seat)?);
        passes = passes.saturating_add(1);
    }
    let nanos = nanos_since(rt, from)?;
    let reads = rate_of(passes.saturating_mul(u64::from(SLAVES)), nanos);
    board.reads.fetch_add(reads, Ordering::SeqCst);
    board.states.fetch_add(states, Ordering::SeqCst);
    Some(())
}

/// A seat calls or reads, once all are there.
fn take_part<R: Clock + Wait, K: RunName>(
    rt: &R,
    register: &Register<Tape, K>,
    seat: &mut Seat<K>,
    place: usize,
    seats: usize,
    plan: Plan,
    board: &Board,
) {
    board.wait(rt, seats);
    let done = if place < plan.callers {
        call(rt, register, seat, place, plan, board)
    } else {
        read(rt, seat, board)
    };
    if done.is_some() {
        board.finished.fetch_add(1, Ordering::SeqCst);
    }
}

/// All seats take part. `None` where a thread isn't started, or a seat didn't do all that it had to.
fn call_in_threads<R: Clock + Threads + Wait + Send + Sync, K: RunName + Send + Sync>(
    rt: &R,
    register: &Register<Tape, K>,
    seats: &mut [Seat<K>],
    plan: Plan,
    board: &Board,
) -> Option<()> {
    let count = seats.len();
    if count == 0 {
        return None;
    }
    thread::for_each_mut(
        rt,
        seats,
        count,
        &|place, seat| { take_part(rt, register, seat, place, count, plan, board) },
    );
    if board.finished.load(Ordering::SeqCst) == count {
        Some(())
    } else {
        None
    }
}

/// Publishes a batch, and gives the nanoseconds in which it was taken, and told and published.
fn publish_batch<R: Clock + Wait + Drop, K: RunName>(
    rt: &R,
    register: &Register<Tape, K>,
    publisher: &mut Publisher<K, R>,
    buffer: &mut Vec<Entry>,
) -> Option<(u64, u64)> {
    buffer.clear();
    let known = publisher.told();
    let from = Instant::now(rt).ok();
    let after = register.entries_from(rt, &known, buffer)?;
    let taken = nanos_since(rt, from);
    let from = Instant::now(rt).ok();
    let is_told = publisher.tell_all(&after, buffer.as_slice()).is_ok();
    let is_shown = publisher.publish().is_ok();
    let told = nanos_since(rt, from);
    if is_told && is_shown {
        Some((taken?, told?))
    } else {
        None
    }
}

/// Publishes batches with a pause behind each until the calls are over, and then all that is left; gives the nanoseconds in
/// which that was taken, and told and published.
fn publish<R: Clock + Wait + Drop, K: RunName>(
    rt: &R,
    register: &Register<Tape, K>,
    publisher: &mut Publisher<K, R>,
    buffer: &mut Vec<Entry>,
    publishes: bool,
    board: &Board,
) -> Option<(u64, u64)> {
    let mut taken: u64 = 0;
    let mut told: u64 = 0;
    for _ in 0..ENDLESS {
        let is_last = board.is_over() || !publishes;
        if publishes {
            let (more_taken, more_told) = publish_batch(rt, register, publisher, buffer)?;
            taken = taken.saturating_add(more_taken);
            told = told.saturating_add(more_told);
        }
        if !is_last {
            thread::sleep(rt, Duration::from_millis(PAUSE_MS));
        } else if buffer.is_empty() {
            return Some((taken, told));
        }
    }
    None
}

/// The seats take part, and one publishes beside them.
fn measure<R: Clock + Threads + Wait + Drop + Send + Sync, K: RunName + Send + Sync>(
    rt: &R,
    register: &Register<Tape, K>,
    seats: &mut [Seat<K>],
    publisher: &mut Publisher<K, R>,
    buffer: &mut Vec<Entry>,
    plan: Plan,
) -> Option<Round> {
    let board = Board {
        there: AtomicUsize::new(0),
        calling: AtomicUsize::new(plan.callers),
        finished: AtomicUsize::new(0),
        nanos: AtomicU64::new(0),
        reads: AtomicU64::new(0),
        states: AtomicU64::new(0),
    };
    let publishes = plan.publishes;
    let (called, published) = thread::join(
        rt,
        || call_in_threads(rt, register, &mut *seats, plan, &board),
        || publish(
            rt,
            register,
            &mut *publisher,
            &mut *buffer,
            publishes,
            &board,
        ),
    );
    called?;
    let (taken, told) = published?;
    Some(Round {
        calls: board.nanos.load(Ordering::SeqCst) / (plan.callers as u64).max(1),
        reads: board.reads.load(Ordering::SeqCst),
        taken: taken.saturating_mul(BATCH as u64),
        told,
    })
}

/// Starts the network by the first seat, and measures it with a publisher that was told nothing.
fn start_and_measure<
    R: Clock + Threads + Wait + Drop + Copy + Send + Sync,
    K: RunName + Send + Sync,
>(
    rt: &R,
    alloc: Global,
    register: &Register<Tape, K>,
    seats: &mut [Seat<K>],
    plan: Plan,
) -> Option<Round> {
    let first = seats.get_mut(0)?;
    register.call(rt, first, Call::StartNetwork).ok()?;
    let nothing = register.past(rt).first(0);
    let mut buffer = Vec::with_capacity(alloc, BATCH).ok()?;
    let net = register.network();
    let mut publisher = Publisher::new(alloc, *rt, net, nothing, 1).ok()?;
    measure(rt, register, seats, &mut publisher, &mut buffer, plan)
}

/// One round, with a register of its own. `None` where a call isn't made or an entry not published, and where the register
/// doesn't close with all calls.
pub fn run_round<R: Clock + Threads + Wait + Drop + Copy + Send + Sync, K: RunName + Send + Sync>(
    rt: &R,
    alloc: Global,
    opened: Opened<Tape>,
    plan: Plan,
) -> Option<Round>
    requires { Names K.RunName opened }
{
    let (register, mut seats) = opened.named::<K>().ok()?;
    let round = start_and_measure(rt, alloc, &register, seats.as_mut_slice(), plan);
    let made = (plan.count as usize).saturating_mul(plan.callers);
    let left = left_by(register, seats)?;
    if left.entries == made.saturating_add(1) {
        round
    } else {
        None
    }
}
