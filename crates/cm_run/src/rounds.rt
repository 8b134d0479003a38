ghost use Rattle.std.specs.Prelude.{◌≡◌, ◌≢◌, ◌++◌, ◌<◌};
ghost use Rattle.cm_register.specs.Reads.{HasMadeCalls};
ghost use Rattle.cm_netlist.specs.Network.{listing};
ghost use Rattle.cm_run.specs.Faults.{EndsForCause, FailsForCause};
ghost use Rattle.cm_run.specs.Rounds.{AllReported, Gives, HasRound, calls_in, is_followed, last_of};

use crate::lookout::{Lookout, ReportsAll};
use crate::outcome::{Attempt, Last, Outcome};
use cm_boot::{Bus, boot_slave};
use cm_history::{Call, Refusal, Reply};
use cm_nmt::{NodeId, Status};
use cm_register::{RunName, Seat, SharedManager};
use std::sync::Wait;

/// One attempt to boot a slave: the begin, the boot over the bus, the report, where one is made.
fn attempt<K: RunName, R: Wait, M: SharedManager<K, R>, B: Bus, L: Lookout<B>>(
    rt: &R,
    register: &M,
    seat: &mut Seat<K>,
    bus: &mut B,
    lookout: &mut L,
    id: NodeId,
) -> Attempt
    ensures number { seat.new.number ≡ seat.old.number }
    ensures calls { HasMadeCalls seat.old seat.new }
    ensures list { seat.new.list ≡ seat.old.list ++ calls_in id result }
    ensures gives { Gives B.step L.looks K.net id bus.old result bus.new }
    ensures cause { EndsForCause (listing K.net) K.seats K.limit id seat.old (last_of result) }
{
    let begin = match register.call(rt, seat, Call::Begin(id)) {
        Ok(receipt) => receipt,
        Err(fault) => return Attempt::NotBegun(fault),
    };
    let session = match begin.reply {
        Reply::Begun(session) => session,
        Reply::Refused(reason) => return Attempt::Refused(begin, reason),
        _ => unreachable!(),
    };
    let answers = boot_slave(bus, register.network(), id);
    if !lookout.is_reported(bus, id) {
        return Attempt::Left(begin, session, answers);
    }
    let report = match register.call(rt, seat, Call::Report(id, session, answers)) {
        Ok(receipt) => receipt,
        Err(fault) => return Attempt::NotReported(begin, session, answers, fault),
    };
    let last = match report.reply {
        Reply::Reported(status) => Last::Status(status),
        Reply::Refused(reason) => Last::Refused(reason),
        _ => unreachable!(),
    };
    Attempt::Ended(begin, session, answers, report, last)
}

/// How the attempt ended.
fn last_of(attempt: &Attempt) -> Last
    ensures { result ≡ last_of attempt.now }
{
    match attempt {
        Attempt::NotBegun(fault) | Attempt::NotReported(_, _, _, fault) => Last::Fault(*fault),
        Attempt::Refused(_, reason) => Last::Refused(*reason),
        Attempt::Left(_, _, _) => Last::Left,
        Attempt::Ended(_, _, _, _, last) => *last,
    }
}

/// Whether another attempt follows: the slave gave no device type, or its session was dropped.
fn is_followed(attempt: &Attempt) -> bool
    ensures { result ≡ is_followed attempt.now }
{
    match attempt {
        Attempt::Ended(_, _, _, _, Last::Status(status)) => *status == Status::B,
        Attempt::Ended(_, _, _, _, Last::Refused(reason)) => *reason == Refusal::Stale.number(),
        _ => false,
    }
}

/// The attempts at one slave, `most` at most. Of each boot the lookout says whether it is reported; behind one that isn't,
/// no other attempt is made.
pub fn round_by<K: RunName, R: Wait, M: SharedManager<K, R>, B: Bus, L: Lookout<B>>(
    rt: &R,
    register: &M,
    seat: &mut Seat<K>,
    bus: &mut B,
    lookout: &mut L,
    id: NodeId,
    most: u8,
) -> Outcome
    requires { 0 < most }
    ensures number { seat.new.number ≡ seat.old.number }
    ensures calls { HasMadeCalls seat.old seat.new }
    ensures round { HasRound B.step L.looks K.net id most result seat.old.list seat.new.list bus.old
        bus.new }
    ensures cause { FailsForCause (listing K.net) K.seats K.limit seat.old result }
{
    for failed in 0..most - 1 {
        let tried = attempt(rt, register, seat, bus, lookout, id);
        if !is_followed(&tried) {
            return Outcome {
                id,
                attempts: failed + 1,
                last: last_of(&tried),
            };
        }
    }
    let tried = attempt(rt, register, seat, bus, lookout, id);
    Outcome {
        id,
        attempts: most,
        last: last_of(&tried),
    }
}

/// The attempts at one slave, `most` at most. Each boot is reported.
pub fn round<K: RunName, R: Wait, M: SharedManager<K, R>, B: Bus>(
    rt: &R,
    register: &M,
    seat: &mut Seat<K>,
    bus: &mut B,
    id: NodeId,
    most: u8,
) -> Outcome
    requires { 0 < most }
    ensures number { seat.new.number ≡ seat.old.number }
    ensures calls { HasMadeCalls seat.old seat.new }
    ensures round { HasRound B.step AllReported K.net id most result seat.old.list seat.new.list bus.old
        bus.new }
    ensures reported { result.last ≢ Last.Left }
    ensures cause { FailsForCause (listing K.net) K.seats K.limit seat.old result }
{
    round_by(rt, register, seat, bus, &mut ReportsAll, id, most)
}
