//! How the register of a run is started and closed, and why there may be no history.

ghost use Rattle.std.specs.Prelude.{◌≡◌, Err, IfOk, Ok, OnOk, false, reverse};
ghost use Rattle.cm_nmt.specs.Bits.{has_bit};
ghost use Rattle.cm_history.specs.Legal.{IsHistory};
ghost use Rattle.cm_netlist.specs.Network.{listing};
ghost use Rattle.cm_register.specs.Handing.{HaveTheirCalls};
ghost use Rattle.cm_sequential.specs.Standing.{Stands};
ghost use Rattle.cm_run.specs.Causes.{cause_of_call, cause_of_open};
ghost use Rattle.cm_run.specs.Started.{HasStarted, IsStarted};

use cm_history::{Call, CallFault, Entry, Refusal, Reply};
use cm_nmt::Wire;
use cm_register::{OpenFault, Receipt, Register, RunName, Seat, SharedManager};
use cm_sequential::Manager;
use std::alloc::AllocError;
use std::sync::Wait;
use thiserror::Error;

/// The history of a run, and the manager that stands for it.
#[derive(Drop)]
pub struct Recorded {
    pub history: Vec<Entry>,
    pub manager: Manager,
}

/// Why there is no history.
#[derive(Clone, Copy, Debug, Error)]
pub enum NoHistory {
    /// The start was refused, since the device isn't the NMT master.
    #[error("start refused: 1 NotMaster")]
    NotMaster,
    /// Memory was refused.
    #[error("out of memory")]
    OutOfMemory,
    /// A worker couldn't be started, or the register had another fault.
    #[error("no worker")]
    NoWorker,
}

/// What the fault of a call comes to.
pub fn not_called(fault: CallFault) -> NoHistory
    ensures { result ≡ cause_of_call fault }
{
    match fault {
        CallFault::OutOfMemory => NoHistory::OutOfMemory,
        CallFault::JournalFull | CallFault::WireFull | CallFault::SeatStale => NoHistory::NoWorker,
    }
}

/// What the fault of a register that isn't opened or named comes to.
pub fn not_opened(fault: OpenFault) -> NoHistory
    ensures { result ≡ cause_of_open fault }
{
    match fault {
        OpenFault::OutOfMemory => NoHistory::OutOfMemory,
        OpenFault::BadSeats | OpenFault::BadLimit | OpenFault::WireUsed | OpenFault::NoReader => {
            NoHistory::NoWorker
        }
    }
}

/// What memory that was refused comes to.
pub fn kept<T>(made: Result<T, AllocError>) -> Result<T, NoHistory>
    ensures value { IfOk result (λ t. made ≡ Ok t) }
    ensures fault { result ≡ Err NoHistory.NotMaster → ⊥ }
{
    match made {
        Ok(made) => Ok(made),
        Err(_) => Err(NoHistory::OutOfMemory),
    }
}

/// What the first call came to, by which the network was to be started.
pub fn started(is_master: bool, made: Result<Receipt, CallFault>) -> Result<(), NoHistory>
    ensures started { OnOk result (IsStarted made) }
    ensures refused { result ≡ Err NoHistory.NotMaster → is_master ≡ false }
{
    let not_master = Refusal::NotMaster.number();
    match made {
        Ok(receipt) => match receipt.reply {
            Reply::Started => Ok(()),
            Reply::Refused(reason) if reason == not_master && !is_master => {
                Err(NoHistory::NotMaster)
            }
            _ => Err(NoHistory::NoWorker),
        },
        Err(fault) => Err(not_called(fault)),
    }
}

/// The first call: the operator starts the network.
pub fn start<K: RunName, R: Wait, M: SharedManager<K, R>>(
    rt: &R,
    register: &M,
    operator: &mut Seat<K>,
) -> Result<(), NoHistory>
    ensures started { OnOk result (HasStarted operator.old operator.new) }
    ensures refused { result ≡ Err NoHistory.NotMaster → has_bit K.net.startup 0 ≡ false }
{
    let is_master = register.network().startup().is_master();
    started(is_master, register.call(rt, operator, Call::StartNetwork))
}

/// Closes the register, and gives its history, in which each seat has just the calls of its list.
pub fn close<'n, W: Wire, K: RunName>(
    register: Register<'n, W, K>,
    seats: Vec<Seat<K>>,
) -> Result<Recorded, NoHistory>
    ensures history { IfOk result
        (λ s. IsHistory (listing K.net) K.seats K.limit s.history.items) }
    ensures stands { IfOk result (λ s. Stands s.manager K.net (reverse s.history.items)) }
    ensures calls { IfOk result (λ s. HaveTheirCalls s.history.items seats.items) }
    ensures fault { result ≡ Err NoHistory.NotMaster → ⊥ }
{
    match register.close(seats) {
        Ok(closed) => Ok(Recorded {
            history: closed.history,
            manager: closed.manager,
        }),
        Err(_) => Err(NoHistory::NoWorker),
    }
}
