//! How a register is closed whose seats' reports were received, and whose operator's calls were typed or are of the watch.
ghost use Rattle.std.specs.Prelude.{◌≡◌, All, IfOk, reverse};
ghost use Rattle.cm_netlist.specs.Network.{listing};
ghost use Rattle.cm_history.specs.Legal.{IsHistory};
ghost use Rattle.cm_history.specs.OrderFrames.{frames_in};
ghost use Rattle.cm_sequential.specs.Standing.{Stands};
ghost use Rattle.cm_crew.specs.ReceivedCalls.{IsReceivedList};
ghost use Rattle.cm_crew.specs.Heard.{IsAllHeard};
ghost use Rattle.cm_crew.specs.CallsMade.{calls_made};
ghost use Rattle.cm_crew.specs.Operated.{BootsUnlessOperator, EndsWith, EndsWithOperator, IsOperatedLive, operator_calls};
ghost use Rattle.cm_crew.specs.Typing.{BootsAlone};
ghost use Rattle.cm_crew.specs.Workers.{AreOfItsSeat};

use crate::heard_seat::HeardSeat;
use crate::operator_seat::OperatorSeat;
use cm_history::Recorder;
use cm_nmt::Wire;
use cm_receiving::BusName;
use cm_register::{Closed, Register, RunName, Seat};
use std::alloc::{AllocError, Global};

/// The seats of all who make calls in a live run.
#[derive(Drop)]
pub struct Crew<K: RunName, B: BusName> {
    pub operator: OperatorSeat<K, B>,
    pub workers: Vec<HeardSeat<K, B>>,
}

/// The workers' seats themselves.
fn plain_seats<K: RunName, B: BusName>(
    alloc: Global,
    seats: Vec<HeardSeat<K, B>>,
) -> Result<Vec<Seat<K>>, AllocError>
    ensures received { IfOk result (λ v. All (λ s. IsReceivedList B.format B.text K.net s.list) v.items) }
    ensures boots { IfOk result (λ v. All (λ s. BootsAlone s.list) v.items) }
    ensures own { IfOk result (λ v. All (λ s. AreOfItsSeat K.net K.seats s.number s.list) v.items) }
{
    let mut plain = Vec::new(alloc);
    for seat in seats {
        plain.push(seat.into_seat())?;
    }
    Ok(plain)
}

/// The seats themselves, the operator's behind those of the workers.
fn all_seats<K: RunName, B: BusName>(
    alloc: Global,
    crew: Crew<K, B>,
) -> Result<Vec<Seat<K>>, AllocError>
    ensures received { IfOk result (λ v. All (λ s. IsReceivedList B.format B.text K.net s.list) v.items) }
    ensures own { IfOk result (λ v. All (λ s. AreOfItsSeat K.net K.seats s.number s.list) v.items) }
    ensures others { IfOk result (λ v. All (λ s. BootsUnlessOperator s) v.items) }
    ensures operator { IfOk result (λ v. EndsWithOperator B.typed v.items) }
    ensures last { IfOk result (λ v. EndsWith v.items crew.operator) }
{
    let Crew { operator, workers } = crew;
    let mut plain = plain_seats(alloc, workers)?;
    let (operator, _) = operator.into_seat();
    plain.push(operator)?;
    Ok(plain)
}

/// Closes the register, of whose wire just the history's frames were sent, and gives what it leaves, with its recorder,
/// which has recorded the history. In that history each report whose orders start a slave has the slave's identity among
/// the frames that were received on the bus that `B` names, the reports on a slave are one worker's, and the calls of
/// its operator were typed or are of the watch. Where it can't be closed it comes back.
pub fn close_heard<'n, W: Wire, K: RunName, B: BusName, J: Recorder>(
    alloc: Global,
    register: Register<'n, W, K, J>,
    crew: Crew<K, B>,
) -> Result<(Closed<W>, J), Register<'n, W, K, J>>
    ensures history { IfOk result
        (λ c. IsHistory (listing K.net) K.seats K.limit c.0.history.items) }
    ensures stands { IfOk result
        (λ c. Stands c.0.manager K.net (reverse c.0.history.items)) }
    ensures frames { IfOk result
        (λ c. W.sent c.0.wire ≡ frames_in (listing K.net) c.0.history.items) }
    ensures recorded { IfOk result (λ c. J.has_recorded c.1 c.0.history.items) }
    ensures heard { IfOk result (λ c. IsAllHeard B.format B.text K.net K.seats c.0.history.items) }
    ensures operated { IfOk result (λ c. IsOperatedLive B.typed c.0.history.items) }
    ensures calls { IfOk result (λ c. operator_calls c.0.history.items ≡ calls_made crew.operator) }
{
    let Ok(plain) = all_seats(alloc, crew) else {
        return Err(register);
    };
    match register.close_recorded(plain) {
        Ok(closed) => Ok(closed),
        Err(fault) => Err(fault.register),
    }
}
