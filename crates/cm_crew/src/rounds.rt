//! One slave booted over a CAN bus.
ghost use Rattle.std.specs.Prelude.{◌≡◌, ◌<◌, ◌≤◌, [], false};
ghost use Rattle.cm_register.specs.Reads.{HasMadeCalls};
ghost use Rattle.cm_run.specs.Rounds.{HasRound};
ghost use Rattle.cm_crew.specs.Hearing.{HasHeardCalls};
ghost use Rattle.cm_bus.specs.Receiving.{EndsBoot, IsAskedOver};

use crate::lookout::UntilOver;
use cm_bus::{LiveBus, Port};
use cm_nmt::NodeId;
use cm_receiving::BusName;
use cm_register::{RunName, Seat, SharedManager};
use cm_run::{Outcome, round_by};
use std::sync::Wait;

/// The attempts at one slave over a live bus, `most` at most, up to 10, as [`round_by`] makes them: once the run is over, and
/// where the slave has booted up meanwhile, no boot is reported. The bus's log is emptied before; afterwards it has what went
/// over the bus, and the answers of each report stand in it. For each question the port sent the requests that the log says it did,
/// each once, and nothing else. The answers were given by frames that were received on the bus that `B` names, each behind the one
/// before; from where a boot began to each of its answers no boot-up message of the slave was received.
pub fn live_round<'n, K: RunName, B: BusName, R: Wait, M: SharedManager<K, R>, P: Port<B>>(
    rt: &R,
    register: &M,
    seat: &mut Seat<K>,
    bus: &mut LiveBus<'n, B, P>,
    lookout: &mut UntilOver<'_>,
    id: NodeId,
    most: u8,
) -> Outcome
    requires { (0 < most) × (most ≤ 10) }
    ensures number { seat.new.number ≡ seat.old.number }
    ensures calls { HasMadeCalls seat.old seat.new }
    ensures round { HasRound (λ b i q x c. IsAskedOver P.sends B.format B.text i q x b c) (λ b i x c. EndsBoot b c)
        K.net id most result seat.old.list seat.new.list
        (record { log = []; heard = bus.old.heard; begun = bus.old.begun; goes_on = false; port = bus.old.port }) bus.new }
    ensures heard { HasHeardCalls K.net id seat.old.list seat.new.list bus.new.log }
{
    bus.forget();
    round_by(rt, register, seat, bus, lookout, id, most)
}
