//! What makes a bus: ports of workers, whom each frame is given to, and the thread that reads frames.

ghost use Rattle.std.specs.Prelude.{◌≡◌, [], IfOk, Some};
ghost use Rattle.cm_netlist.specs.Network.{listed_ids};

use crate::bus::LiveBus;
use crate::caused_outlet::CausedOutlet;
use crate::live_port::LivePort;
use crate::outlet::Outlet;
use crate::patience::Patience;
use crate::setting::Setting;
use cm_receiving::{BusName, ControlMessage, HeardRemark, Received, Routes, Source};
use crossbeam_channel::Sender;
use std::alloc::AllocError;
use std::io::{Read, Write};
use std::sync::{Arc, Wait};
use std::thread::{self, Threads};
use std::time::Clock;

/// The bus of one worker, and by what it gets frames. The conditions say that `B` knows in what lines frames are written, and what the
/// writer has.
pub fn make_bus<'a, 'n, R: Wait + Clock + Clone + Drop, B: BusName, W: Write + Drop>(
    setting: &Setting<'a, 'n, R>,
    worker: usize,
    writer: W,
) -> Result<(LiveBus<'n, B, LivePort<R, B, W>>, Sender<Received<B>>), AllocError>
    requires format { setting.now.options.format ≡ B.format }
    requires had { W.contents writer ≡ B.had (Some worker) }
    ensures { IfOk result (λ r. (r.0.log ≡ []) × (r.0.heard ≡ 0)) }
{
    let (hears, heard) = crossbeam_channel::unbounded(setting.alloc)?;
    let port = LivePort {
        rt: setting.rt.clone()?,
        worker,
        heard,
        listening: Arc::try_clone(&setting.listening)?,
        outlet: CausedOutlet::new(Outlet::new(writer, setting.options.format), Some(worker)),
        broken: Arc::try_clone(&setting.broken)?,
        over: Arc::try_clone(&setting.over)?,
        patience: Patience::none(),
    };
    let answer_ms = setting.options.answer_ms;
    let bus = LiveBus::new(setting.alloc, setting.network, answer_ms, port)?;
    Ok((bus, hears))
}

/// Whom each frame is given to that is received: `heard` to whom error control messages are, `said` to whom remarks are.
pub fn make_routes<'a, 'n, R, B: BusName>(
    setting: &Setting<'a, 'n, R>,
    workers: Vec<Sender<Received<B>>>,
    heard: Sender<ControlMessage<B>>,
    said: Sender<HeardRemark<B>>,
) -> Result<Routes<B>, AllocError>
    ensures listed { IfOk result (λ r. r.listed.items ≡ listed_ids setting.now.network.now) }
    ensures workers { IfOk result (λ r. r.workers ≡ workers) }
{
    let mut listed = Vec::new(setting.alloc);
    for id in setting.network.listed_ids().as_slice() {
        listed.push(*id)?;
    }
    Ok(Routes {
        listed,
        listening: Arc::try_clone(&setting.listening)?,
        workers,
        heard,
        said,
        notifications: setting.notifications.clone()?,
    })
}

/// Why a thread isn't started.
#[derive(Clone, Copy)]
pub enum NoThread {
    /// Memory was refused.
    OutOfMemory,
    /// The thread was.
    Refused,
}

/// Starts the thread that reads frames. It isn't joined: where no frame comes, it waits for one while the program
/// ends.
pub fn start_receiving<
    R: Wait + Threads + Clock + Clone + Send + Drop + 'static,
    B: BusName + Send + Sync + 'static,
    I: Read + Send + Drop + 'static,
>(rt: &R, routes: Routes<B>, source: Source<B, I>) -> Result<(), NoThread> {
    let Ok(theirs) = rt.clone() else {
        return Err(NoThread::OutOfMemory);
    };
    match thread::spawn(rt, move || source.receive(&theirs, &routes)) {
        Ok(_receiver) => Ok(()),
        Err(_) => Err(NoThread::Refused),
    }
}
