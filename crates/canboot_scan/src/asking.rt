//! The threads of a scan: each worker asks its nodes, one after another.

ghost use Rattle.std.specs.Prelude.{◌≡◌, ◌<◌};
ghost use Rattle.cm_bus.specs.Sent.{IsHadBy};

use crate::device::{HeardDevice, hear_device};
use crate::scanned::NoScan;
use cm_bus::{LiveBus, LivePort, Port, Setting, make_bus, start_receiving};
use cm_netlist::worker_at;
use cm_nmt::NodeId;
use cm_receiving::{BusName, HeardRemark, Received, Routes, Source};
use crossbeam_channel::Sender;
use std::alloc::{AllocError, Global};
use std::io::{Read, Write};
use std::sync::{Arc, Wait};
use std::thread::{self, JoinHandle, Scope, Threads};
use std::time::Clock;

/// What a worker has found.
type Devices<B> = Vec<HeardDevice<B>>;

/// One worker: its bus, and the nodes that it asks.
#[derive(Drop)]
struct Asker<'n, R: Wait + Clock + Drop, B: BusName, W: Write + Drop> {
    bus: LiveBus<'n, B, LivePort<R, B, W>>,
    nodes: Vec<NodeId>,
}

/// Asks these nodes what they are.
fn hear_devices<'n, B: BusName, P: Port<B>>(
    alloc: Global,
    bus: &mut LiveBus<'n, B, P>,
    nodes: &[NodeId],
) -> Result<Devices<B>, AllocError> {
    let mut devices = Vec::new(alloc);
    for id in nodes {
        if let Some(device) = hear_device(bus, *id) {
            devices.push(device)?;
        }
    }
    Ok(devices)
}

/// What one worker does.
fn work<'n, R: Wait + Clock + Drop, B: BusName, W: Write + Drop>(
    alloc: Global,
    asker: Asker<'n, R, B, W>,
) -> Result<Devices<B>, AllocError> {
    let Asker { mut bus, nodes } = asker;
    hear_devices(alloc, &mut bus, nodes.as_slice())
}

/// The nodes of one worker: each of so many is asked by its place among them modulo their number.
fn share(
    alloc: Global,
    nodes: &[NodeId],
    workers: usize,
    worker: usize,
) -> Result<Vec<NodeId>, AllocError>
    requires { 0 < workers }
{
    let mut share = Vec::new(alloc);
    for (place, id) in nodes.iter().enumerate() {
        if worker_at(workers, place) == worker {
            share.push(*id)?;
        }
    }
    Ok(share)
}

/// The workers, one for each writer, and the channels by which they hear frames.
fn make_askers<'a, 'n, R: Wait + Clock + Clone + Drop, B: BusName, W: Write + Drop>(
    setting: &Setting<'a, 'n, R>,
    nodes: &[NodeId],
    written: Vec<W>,
) -> Result<(Vec<Asker<'n, R, B, W>>, Vec<Sender<Received<B>>>), AllocError>
    requires format { setting.now.options.format ≡ B.format }
    requires had { IsHadBy W.contents B.had written.items }
{
    let alloc = setting.alloc;
    let count = written.len();
    let mut askers = Vec::new(alloc);
    let mut senders = Vec::new(alloc);
    for writer in written {
        let place = askers.len();
        let (bus, hears) = make_bus(setting, place, writer)?;
        let nodes = share(alloc, nodes, count.max(1), place)?;
        askers.push(Asker { bus, nodes })?;
        senders.push(hears)?;
    }
    Ok((askers, senders))
}

/// Whom each frame is given to that is received: `said` to whom remarks are. Nobody is told of error control messages.
fn make_routes<'a, 'n, R, B: BusName>(
    setting: &Setting<'a, 'n, R>,
    nodes: &[NodeId],
    workers: Vec<Sender<Received<B>>>,
    said: Sender<HeardRemark<B>>,
) -> Result<Routes<B>, AllocError> {
    let (heard, _unheard) = crossbeam_channel::bounded(setting.alloc, 1)?;
    Ok(Routes {
        listed: Vec::from_slice(setting.alloc, nodes)?,
        listening: Arc::try_clone(&setting.listening)?,
        workers,
        heard,
        said,
        notifications: setting.notifications.clone()?,
    })
}

/// Starts a thread for each worker. The answer is whether each has one.
fn start_askers<
    's,
    'n: 's,
    V,
    R: Wait + Threads + Clock + Send + Sync + Drop + 's,
    B: BusName + Send + Sync + 's,
    W: Write + Drop + Send + 's,
>(
    scope: &Scope<'s, V>,
    alloc: Global,
    askers: Vec<Asker<'n, R, B, W>>,
    handles: &mut Vec<JoinHandle<Result<Devices<B>, AllocError>>>,
) -> bool {
    for asker in askers {
        let is_started = match scope.spawn(move || work(alloc, asker)) {
            Ok(handle) => handles.push(handle).is_ok(),
            Err(_) => false,
        };
        if !is_started {
            return false;
        }
    }
    true
}

/// Waits for the workers, and gives what they have found.
fn join_askers<R: Threads, B: BusName>(
    rt: &R,
    alloc: Global,
    handles: Vec<JoinHandle<Result<Devices<B>, AllocError>>>,
) -> Result<Devices<B>, AllocError> {
    let mut devices = Vec::new(alloc);
    for handle in handles {
        for device in handle.join(rt)? {
            devices.push(device)?;
        }
    }
    Ok(devices)
}

/// Asks all these nodes, by workers side by side, each with a writer; the devices that answered, in no order. What else is said on the
/// bus is sent by `said`.
pub(crate) fn ask_nodes<
    'a,
    'n,
    R: Wait + Threads + Clock + Clone + Send + Sync + Drop + 'static,
    B: BusName + Send + Sync + 'static,
    I: Read + Send + Drop + 'static,
    W: Write + Drop + Send,
>(
    setting: &Setting<'a, 'n, R>,
    nodes: &[NodeId],
    received: I,
    written: Vec<W>,
    said: Sender<HeardRemark<B>>,
) -> Result<Devices<B>, NoScan>
    requires format { setting.now.options.format ≡ B.format }
    requires text { I.remaining received ≡ B.text }
    requires had { IsHadBy W.contents B.had written.items }
{
    let frames = Source::<B, I>::new(received, setting.options.format);
    let (askers, hears) = make_askers(setting, nodes, written)?;
    let routes = make_routes(setting, nodes, hears, said)?;
    start_receiving(setting.rt, routes, frames)?;
    let rt = setting.rt;
    let alloc = setting.alloc;
    thread::scope(
        thread::scope_env(),
        rt,
        |scope| -> Result<Devices<B>, NoScan> {
            let mut handles = Vec::new(alloc);
            let are_started = start_askers(scope, alloc, askers, &mut handles);
            let devices = join_askers(rt, alloc, handles)?;
            if are_started {
                Ok(devices)
            } else {
                Err(NoScan::NoWorker)
            }
        },
    )
}
