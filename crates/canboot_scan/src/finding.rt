//! The devices on a bus are asked what they are.

ghost use Rattle.std.specs.Prelude.{◌≡◌, All, IfOk};
ghost use Rattle.cm_bus.specs.Sent.{IsHadBy};
ghost use Rattle.canboot_scan.specs.Scanning.{IsHeardDevice};

use crate::asking::ask_nodes;
use crate::scan::{Scan, ScanEnds};
use crate::scanned::{BusSaid, NoScan, Scanned, in_order};
use cm_bus::set_up;
use cm_can::{BusState, CanError, Remark};
use cm_netlist::Network;
use cm_receiving::{BusName, HeardRemark, Notification};
use cm_text::ENDLESS;
use crossbeam_channel::Receiver;
use std::alloc::Global;
use std::io::{Read, Write};
use std::marker::Brand;
use std::sync::Wait;
use std::sync::atomic::Ordering;
use std::thread::Threads;
use std::time::Clock;

/// The interface says this of the bus.
fn take_error(said: &mut BusSaid, error: &CanError) {
    if error.is_unacknowledged() {
        said.is_unacknowledged = true;
    }
    if let Some(state) = error.state() {
        said.state = Some(state);
    }
}

/// What the interface said of the bus so far.
fn take_errors<R: Wait, B: BusName>(
    rt: &R,
    remarks: &Receiver<HeardRemark<B>>,
    said: &mut BusSaid,
) {
    for _said in 0..ENDLESS {
        let Ok(heard) = remarks.try_recv(rt) else {
            return;
        };
        if let Remark::Error(error) = heard.remark() {
            take_error(said, &error);
        }
    }
}

/// What was told of the bus so far, while its nodes were asked.
fn told_of<R: Wait>(rt: &R, notifications: &Receiver<Notification>) -> BusSaid {
    let mut said = BusSaid {
        is_over: false,
        are_strange: false,
        is_unacknowledged: false,
        state: None,
    };
    for _told in 0..ENDLESS {
        match notifications.try_recv(rt) {
            Ok(Notification::NoMoreHeard) => said.is_over = true,
            Ok(Notification::NoFrames) => said.are_strange = true,
            Ok(_) => {}
            Err(_) => break,
        }
    }
    said
}

/// Asks these nodes on a bus that has a name.
fn find_on<
    R: Wait + Threads + Clock + Clone + Send + Sync + Drop + 'static,
    B: BusName + Send + Sync + 'static,
    I: Read + Send + Drop + 'static,
    W: Write + Drop + Send,
>(rt: &R, alloc: Global, network: &Network, scan: Scan<'_, I, W>) -> Result<Scanned, NoScan>
    requires format { scan.options.format ≡ B.format }
    requires text { I.remaining scan.ends.received ≡ B.text }
    requires had { IsHadBy W.contents B.had scan.ends.written.items }
    ensures { IfOk result (λ s. All (IsHeardDevice B.format B.text) s.found.items) }
{
    let Scan {
        nodes,
        options,
        ends,
    } = scan;
    let (setting, notifications) = set_up(rt, alloc, network, options)?;
    let ScanEnds { received, written } = ends;
    let (tells_said, remarks) = crossbeam_channel::unbounded(alloc)?;
    let devices = ask_nodes::<_, B, _, _>(&setting, nodes, received, written, tells_said)?;
    if setting.broken.load(Ordering::SeqCst) {
        return Err(NoScan::NotWritten);
    }
    let mut said = told_of(rt, &notifications);
    take_errors(rt, &remarks, &mut said);
    if said.is_over {
        return Err(NoScan::NotHeard);
    }
    if said.state == Some(BusState::Off) {
        return Err(NoScan::BusOff);
    }
    Ok(in_order(alloc, devices, said)?)
}

/// Asks these nodes what they are; those that answered, in rising order.
pub(crate) fn find_devices<
    R: Wait + Threads + Clock + Clone + Send + Sync + Drop + 'static,
    I: Read + Send + Drop + 'static,
    W: Write + Drop + Send,
>(rt: &R, alloc: Global, network: &Network, scan: Scan<'_, I, W>) -> Result<Scanned, NoScan>
    ensures { IfOk result (λ s. All (IsHeardDevice scan.entry.options.format (I.remaining scan.entry.ends.received)) s.found.items) }
{
    find_on::<_, Brand, _, _>(rt, alloc, network, scan)
}
