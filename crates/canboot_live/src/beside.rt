//! By what is written in a live run besides the NMT messages.
ghost use Rattle.std.specs.Prelude.{◌≡◌, Err, IfOk, None, vec_len};
ghost use Rattle.cm_bus.specs.Sent.{AreWrittenFrom, HasWritten};
ghost use Rattle.cm_can.specs.Requests.{IsErrorControlFrame, IsToNode};

use cm_bus::{CausedOutlet, Outlet, outlets_of};
use cm_can::{ControlFrame, Request};
use cm_receiving::BusName;
use cm_run::NoHistory;
use std::alloc::Global;
use std::io::Write;

/// By what was written in a live run besides the NMT messages.
#[derive(Drop)]
pub(crate) struct Beside<W: Write + Drop> {
    /// One for each worker, in their order.
    pub(crate) requests: Vec<Outlet<W>>,
    pub(crate) error_control: Outlet<W>,
}

/// By what was written besides the NMT messages, once all have ended, of so many workers. That an outlet isn't there, or isn't its worker's,
/// never comes.
pub(crate) fn outlets_back<B: BusName, W: Write + Drop>(
    alloc: Global,
    workers: usize,
    requests: Vec<CausedOutlet<W, B, Request>>,
    control: CausedOutlet<W, B, ControlFrame>,
) -> Result<Beside<W>, NoHistory>
    ensures none { result ≡ Err NoHistory.NotMaster → ⊥ }
    ensures requested { IfOk result (λ b. AreWrittenFrom IsToNode W.contents B.format B.had 0 b.requests.items) }
    ensures all { IfOk result (λ b. vec_len b.requests ≡ workers) }
    ensures controlled { IfOk result (λ b. HasWritten IsErrorControlFrame W.contents B.format (B.had None) b.error_control) }
{
    if requests.len() != workers || !control.is_of(None) {
        return Err(NoHistory::NoWorker);
    }
    let Some(requests) = outlets_of(alloc, requests) else {
        return Err(NoHistory::OutOfMemory);
    };
    Ok(Beside {
        requests,
        error_control: control.into_outlet(),
    })
}
