ghost use Rattle.std.specs.Prelude.{◌≡◌, ◌≢◌, ◌≤◌, [], All, length, map, vec_capacity, vec_len, IfErr, IfNone, IfOk, IfSome};
ghost use Rattle.cm_netlist.specs.Network.{listed_ids};
ghost use Rattle.cm_run.specs.Running.{AllBooted, AllStopped, IsRunCause, MayRun, FirstStopped, id_of};

use crate::fault::RunKind;
use crate::jobs::{Plan, Room, merge, pair_up, split_up, take_room};
use crate::outcome::Outcome;
use crate::team::run_jobs;
use cm_boot::Bus;
use cm_register::{RunName, Seat, SharedManager};
use std::alloc::Global;
use std::sync::Wait;
use std::thread::Threads;

/// What the workers did, with the seats and buses that they were given, in their order.
#[derive(Drop)]
pub struct Booted<B: Bus, K: RunName> {
    /// One outcome for each listed slave, in rising order of the node-IDs.
    pub outcomes: Vec<Outcome>,
    pub seats: Vec<Seat<K>>,
    pub buses: Vec<B>,
}

/// Why not every slave was booted, with all seats and buses, in their order.
#[derive(Drop)]
pub struct RunFault<B: Bus, K: RunName> {
    pub kind: RunKind,
    pub seats: Vec<Seat<K>>,
    pub buses: Vec<B>,
}

/// What is wrong with the numbers of seats, buses and attempts, if something is.
fn fault_of(seats: usize, buses: usize, attempts: u8) -> Option<RunKind>
    ensures none { IfNone result (MayRun seats buses attempts) }
    ensures fault { IfSome result (λ kind. IsRunCause seats buses attempts kind) }
    ensures early { IfSome result (λ kind. kind ≢ RunKind.NoWorker) }
{
    if buses < 1 || buses > 16 || seats != buses {
        return Some(RunKind::BadWorkers);
    }
    if attempts < 1 || attempts > 10 {
        return Some(RunKind::BadAttempts);
    }
    None
}

/// Boots every listed slave, as [`boot_all`] does, in memory that was taken.
fn boot_in<
    K: RunName + Send + Sync,
    R: Wait + Threads + Send + Sync,
    M: SharedManager<K, R> + Sync,
    B: Bus + Send,
>(
    rt: &R,
    register: &M,
    plan: Plan,
    room: Room<B, K>,
    mut seats: Vec<Seat<K>>,
    mut buses: Vec<B>,
) -> Result<Booted<B, K>, RunFault<B, K>>
    requires workers { (vec_len seats ≡ plan.workers) × (vec_len buses ≡ plan.workers)
        × (plan.workers ≤ 16) }
    requires jobs { (vec_len room.jobs ≡ 0) × (plan.workers ≤ vec_capacity room.jobs) }
    requires lists { (vec_len room.lists ≡ plan.workers)
        × All (λ list. length (listed_ids K.net) ≤ vec_capacity list) room.lists.items }
    requires outcomes { (room.outcomes.items ≡ [])
        × (length (listed_ids K.net) ≤ vec_capacity room.outcomes) }
    ensures outcomes { IfOk result (λ r. map id_of r.outcomes.items ≡ listed_ids K.net) }
    ensures all { IfOk result
        (λ r. (vec_len r.seats ≡ vec_len seats) × (vec_len r.buses ≡ vec_len buses)) }
    ensures rounds { IfOk result
        (AllBooted B.step K.net K.seats K.limit plan.attempts plan.workers seats.items buses.items) }
    ensures fault { IfErr result (λ f. f.kind ≡ RunKind.NoWorker) }
    ensures kept { IfErr result
        (λ f. (vec_len f.seats ≡ vec_len seats) × (vec_len f.buses ≡ vec_len buses)) }
    ensures stopped { IfErr result (λ f. f.kind ≡ RunKind.NoWorker
        → AllStopped B.step K.net K.seats K.limit plan.attempts plan.workers seats.items buses.items f) }
    ensures first { IfErr result (λ f. f.kind ≡ RunKind.NoWorker
        → FirstStopped B.step K.net K.seats K.limit plan.workers seats.items buses.items f) }
{
    let Room {
        mut jobs,
        lists,
        mut outcomes,
    } = room;
    pair_up(&mut seats, &mut buses, lists, &mut jobs);
    match run_jobs(rt, register, plan, jobs) {
        Ok(jobs) => {
            let listed = register.network().listed_ids();
            merge(jobs.as_slice(), listed.as_slice(), &mut outcomes);
            split_up(jobs, &mut seats, &mut buses);
            Ok(Booted {
                outcomes,
                seats,
                buses,
            })
        }
        Err(jobs) => {
            split_up(jobs, &mut seats, &mut buses);
            Err(RunFault {
                kind: RunKind::NoWorker,
                seats,
                buses,
            })
        }
    }
}

/// Boots every listed slave of the register's network, with one worker for each bus, in a thread of
/// its own. The k-th listed slave, counted from 0, belongs to worker k modulo the number of workers;
/// worker k makes its calls by seat k and asks over bus k. There are to be 1 to 16 buses, as many
/// seats, and 1 to 10 attempts at each slave at most; all memory is taken before the first call.
/// Where the start of a thread is refused, that worker isn't run and no other is started; those that
/// were started finish, and their calls stand.
pub fn boot_all<
    K: RunName + Send + Sync,
    R: Wait + Threads + Send + Sync,
    M: SharedManager<K, R> + Sync,
    B: Bus + Send,
>(
    rt: &R,
    alloc: Global,
    register: &M,
    seats: Vec<Seat<K>>,
    buses: Vec<B>,
    attempts: u8,
) -> Result<Booted<B, K>, RunFault<B, K>>
    ensures may { IfOk result (λ r. MayRun (vec_len seats) (vec_len buses) attempts) }
    ensures outcomes { IfOk result (λ r. map id_of r.outcomes.items ≡ listed_ids K.net) }
    ensures all { IfOk result (λ r. (vec_len r.seats ≡ vec_len seats)
        × (vec_len r.buses ≡ vec_len buses) × (vec_len seats ≡ vec_len buses)) }
    ensures rounds { IfOk result
        (AllBooted B.step K.net K.seats K.limit attempts (vec_len buses) seats.items buses.items) }
    ensures fault { IfErr result
        (λ f. IsRunCause (vec_len seats) (vec_len buses) attempts f.kind) }
    ensures back { IfErr result (λ f. f.kind ≢ RunKind.NoWorker
        → (f.seats.items ≡ seats.items) × (f.buses.items ≡ buses.items)) }
    ensures kept { IfErr result
        (λ f. (vec_len f.seats ≡ vec_len seats) × (vec_len f.buses ≡ vec_len buses)) }
    ensures stopped { IfErr result (λ f. f.kind ≡ RunKind.NoWorker
        → AllStopped B.step K.net K.seats K.limit attempts (vec_len buses) seats.items buses.items f) }
    ensures first { IfErr result (λ f. f.kind ≡ RunKind.NoWorker
        → FirstStopped B.step K.net K.seats K.limit (vec_len buses) seats.items buses.items f) }
{
    if let Some(kind) = fault_of(seats.len(), buses.len(), attempts) {
        return Err(RunFault { kind, seats, buses });
    }
    let plan = Plan {
        workers: buses.len(),
        attempts,
    };
    let slaves = register.network().listed_ids().len();
    match take_room(alloc, plan.workers, slaves) {
        Ok(room) => boot_in(rt, register, plan, room, seats, buses),
        Err(_) => Err(RunFault {
            kind: RunKind::OutOfMemory,
            seats,
            buses,
        }),
    }
}
