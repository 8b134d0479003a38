//! What all threads share that use a bus.

ghost use Rattle.std.specs.Prelude.{◌≡◌, ◌<◌, ◌^◌, IfOk};

use crate::options::BusOptions;
use cm_netlist::Network;
use cm_receiving::{Listening, Notification};
use crossbeam_channel::{Receiver, Sender};
use std::alloc::{AllocError, Global};
use std::sync::Arc;
use std::sync::atomic::{AtomicBool, AtomicU64};
use std::time::{Clock, Instant};

/// What all threads of a live run share, or of a scan.
#[derive(Drop)]
pub struct Setting<'a, 'n, R> {
    pub rt: &'a R,
    pub alloc: Global,
    pub network: &'n Network,
    pub options: BusOptions,
    pub start: Instant,
    pub listening: Arc<Listening>,
    /// Set once a frame couldn't be written.
    pub broken: Arc<AtomicBool>,
    /// Set once the run is over: no boot is reported any more, and no answer waited for.
    pub over: Arc<AtomicBool>,
    /// Set once a line of the journal couldn't be written.
    pub unrecorded: Arc<AtomicBool>,
    /// Set once the file of the status couldn't be written.
    pub unshown: Arc<AtomicBool>,
    /// Set once an entry couldn't be told, since memory was refused.
    pub untold: Arc<AtomicBool>,
    /// How many NMT frames were written.
    pub handed: Arc<AtomicU64>,
    pub notifications: Sender<Notification>,
}

/// What all threads share that use a bus, by these options, and where the one that watches hears what happens.
pub fn set_up<'a, 'n, R: Clock>(
    rt: &'a R,
    alloc: Global,
    network: &'n Network,
    options: BusOptions,
) -> Result<(Setting<'a, 'n, R>, Receiver<Notification>), AllocError>
    ensures network { IfOk result (λ s. s.0.network.now ≡ network.now) }
    ensures options { IfOk result (λ s. s.0.options ≡ options) }
{
    let Ok(start) = Instant::now(rt) else {
        return Err(AllocError);
    };
    let (tells, notifications) = crossbeam_channel::unbounded(alloc)?;
    let setting = Setting {
        rt,
        alloc,
        network,
        options,
        start,
        listening: Arc::new(alloc, Listening::new(alloc, options.workers)?)?,
        broken: Arc::new(alloc, AtomicBool::new(false))?,
        over: Arc::new(alloc, AtomicBool::new(false))?,
        unrecorded: Arc::new(alloc, AtomicBool::new(false))?,
        unshown: Arc::new(alloc, AtomicBool::new(false))?,
        untold: Arc::new(alloc, AtomicBool::new(false))?,
        handed: Arc::new(alloc, AtomicU64::new(0))?,
        notifications: tells,
    };
    Ok((setting, notifications))
}

/// The time since the run began, in ms.
fn since<R: Clock>(rt: &R, start: Instant) -> u64
    ensures { result < 2 ^ 63 }
{
    match start.elapsed(rt) {
        Ok(time) => u64::try_from(time.as_millis()).unwrap_or(0).min(1 << 62),
        Err(_) => 0,
    }
}

impl<'a, 'n, R: Clock> Setting<'a, 'n, R> {
    /// The time since the run began, in ms.
    pub fn now(&self) -> u64
        ensures { result < 2 ^ 63 }
    {
        since(self.rt, self.start)
    }
}
