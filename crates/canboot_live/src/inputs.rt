//! What the operator of a live run types.

ghost use Rattle.std.specs.Prelude.{◌≡◌, Err};

use cm_bus::NoThread;
use cm_operator::{TypedRoute, TypedSource};
use cm_receiving::BusName;
use cm_run::NoHistory;
use std::io::Read;
use std::sync::Wait;
use std::thread::{self, Threads};

/// What a thread that isn't started comes to.
pub(crate) fn threaded(made: Result<(), NoThread>) -> Result<(), NoHistory>
    ensures { result ≡ Err NoHistory.NotMaster → ⊥ }
{
    match made {
        Ok(()) => Ok(()),
        Err(NoThread::OutOfMemory) => Err(NoHistory::OutOfMemory),
        Err(NoThread::Refused) => Err(NoHistory::NoWorker),
    }
}

/// Starts the thread that reads what the operator types. It isn't joined either.
pub(crate) fn start_typing<
    R: Wait + Threads + Clone + Send + Drop + 'static,
    B: BusName + Send + Sync + 'static,
    T: Read + Send + Drop + 'static,
>(rt: &R, route: TypedRoute<B>, source: TypedSource<B, T>) -> Result<(), NoHistory>
    ensures { result ≡ Err NoHistory.NotMaster → ⊥ }
{
    let Ok(theirs) = rt.clone() else {
        return Err(NoHistory::OutOfMemory);
    };
    match thread::spawn(rt, move || source.tell(&theirs, &route)) {
        Ok(_reader) => Ok(()),
        Err(_) => Err(NoHistory::NoWorker),
    }
}
