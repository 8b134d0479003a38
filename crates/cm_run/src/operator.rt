ghost use Rattle.std.specs.Prelude.{◌≡◌, ◌≤◌, length, take, vec_len, IfOk, IfErr};
ghost use Rattle.cm_netlist.specs.Network.{listing};
ghost use Rattle.cm_register.specs.Reads.{HasMadeCalls};
ghost use Rattle.cm_run.specs.Faults.{StopsForCause};
ghost use Rattle.cm_run.specs.Operating.{HasGrown, HasSome};

use cm_history::{Call, CallFault};
use cm_register::{Receipt, RunName, Seat, SharedManager};
use std::alloc::Global;
use std::sync::Wait;

/// The first call that wasn't made, and how many were made before it.
#[derive(Clone, Copy, Debug, PartialEq, Eq)]
pub struct OperateFault {
    pub done: usize,
    pub fault: CallFault,
}

/// Makes the calls in order, up to the first that isn't made; a refusal of the manager is a reply like
/// any other. Room for the receipts is taken first: where it is refused, no call was made.
pub fn operate<K: RunName, R: Wait, M: SharedManager<K, R>>(
    rt: &R,
    alloc: Global,
    register: &M,
    seat: &mut Seat<K>,
    calls: &[Call],
) -> Result<Vec<Receipt>, OperateFault>
    ensures number { seat.new.number ≡ seat.old.number }
    ensures calls { HasMadeCalls seat.old seat.new }
    ensures all { IfOk result (λ r. (vec_len r ≡ length calls.now)
        × HasGrown seat.old.list calls.now r.items seat.new.list) }
    ensures part { IfErr result (λ f. (f.done ≤ length calls.now)
        × HasSome seat.old.list (take f.done calls.now) seat.new.list) }
    ensures cause { IfErr result (StopsForCause (listing K.net) K.seats K.limit seat.new calls.now) }
{
    let Ok(mut receipts) = Vec::with_capacity(alloc, calls.len()) else {
        return Err(OperateFault {
            done: 0,
            fault: CallFault::OutOfMemory,
        });
    };
    for i in 0..calls.len() {
        match register.call(rt, seat, calls[i]) {
            Ok(receipt) => receipts.push_reserved(receipt),
            Err(fault) => return Err(OperateFault { done: i, fault }),
        }
    }
    Ok(receipts)
}
