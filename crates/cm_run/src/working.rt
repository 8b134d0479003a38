//! The work of one worker.
ghost use Rattle.std.specs.Prelude.{◌≡◌, ◌≤◌, All, length, map, vec_capacity, vec_len};
ghost use Rattle.cm_netlist.specs.Network.{listed_ids, listing};
ghost use Rattle.cm_register.specs.Reads.{HasMadeCalls};
ghost use Rattle.cm_run.specs.Faults.{FailsForCause};
ghost use Rattle.cm_run.specs.Rounds.{AllReported, HasRounds};
ghost use Rattle.cm_run.specs.Jobs.{IsDone};
ghost use Rattle.cm_run.specs.Running.{id_of};
ghost use Rattle.cm_run.specs.Shares.{share};

use crate::jobs::{Job, Plan};
use crate::outcome::Outcome;
use crate::rounds::round;
use cm_boot::Bus;
use cm_netlist::worker_at;
use cm_register::{RunName, Seat, SharedManager};
use std::sync::Wait;

/// The rounds of the worker's slaves, in order.
fn make_rounds<K: RunName, R: Wait, M: SharedManager<K, R>, B: Bus>(
    rt: &R,
    register: &M,
    plan: Plan,
    worker: usize,
    seat: &mut Seat<K>,
    bus: &mut B,
    outcomes: &mut Vec<Outcome>,
)
    requires empty { vec_len outcomes.old ≡ 0 }
    requires room { length (listed_ids K.net) ≤ vec_capacity outcomes.old }
    ensures slaves { map id_of outcomes.new.items ≡ share plan.workers worker (listed_ids K.net) }
    ensures number { seat.new.number ≡ seat.old.number }
    ensures calls { HasMadeCalls seat.old seat.new }
    ensures rounds { HasRounds B.step AllReported K.net plan.attempts outcomes.new.items seat.old.list
        seat.new.list bus.old bus.new }
    ensures faults { All (FailsForCause (listing K.net) K.seats K.limit seat.old) outcomes.new.items }
    ensures capacity { vec_capacity outcomes.new ≡ vec_capacity outcomes.old }
{
    let listed = register.network().listed_ids();
    let ids = listed.as_slice();
    for place in 0..ids.len() {
        let id = ids[place];
        if worker_at(plan.workers, place) == worker {
            outcomes.push_reserved(round(rt, register, seat, bus, id, plan.attempts));
        }
    }
}

/// Boots the slaves of a worker, with its job.
pub(crate) fn work<K: RunName, R: Wait, M: SharedManager<K, R>, B: Bus>(
    rt: &R,
    register: &M,
    plan: Plan,
    worker: usize,
    job: Job<B, K>,
) -> Job<B, K>
    ensures { IsDone plan worker job result }
{
    let Job {
        mut seat,
        mut bus,
        mut outcomes,
    } = job;
    outcomes.clear();
    make_rounds(
        rt,
        register,
        plan,
        worker,
        &mut seat,
        &mut bus,
        &mut outcomes,
    );
    Job {
        seat,
        bus,
        outcomes,
    }
}
