//! `canboot scan`: the network list of the devices on a CAN bus, and how they differ from one.

ghost use Rattle.std.specs.Prelude.{◌≡◌, ◌⊎◌, ℕ, List, [], Option, All, OnOk};
ghost use Rattle.std.specs.Io.KnownBytes.{Appends};
ghost use Rattle.cm_can.specs.declared.format.Format.{Format as Lines};
ghost use Rattle.canboot_scan.specs.Scanning.{AreHeardAsListed, FailsToScan, IsHeardDevice, Scans};

use crate::comparing::compare;
use crate::difference::Difference;
use crate::differences::{put_lines, put_object};
use crate::finding::find_devices;
use crate::listing::{ScanFault, list_found};
use crate::scanned::{BusSaid, NoScan, Scanned};
use canboot_faults::{DONE, FAILED, REFUSED, tell_output, tell_words};
use cm_bus::BusOptions;
use cm_can::Format;
use cm_netlist::Network;
use cm_nmt::{NodeId, Startup};
use cm_report::ReportForm;
use cm_telling::{ErrorNotice, Notice};
use cm_words::{NoFrames, say_notice};
use std::alloc::Global;
use std::io::{self, Read, Write};
use std::sync::Wait;
use std::thread::Threads;
use std::time::Clock;

/// Where the frames of a scan come from and go to.
#[derive(Drop)]
pub struct ScanEnds<I, W> {
    /// Where frames are received.
    pub received: I,
    /// Where the frames of the workers are written, one for each.
    pub written: Vec<W>,
}

/// Which nodes a scan asks, how, and over what.
#[derive(Drop)]
pub struct Scan<'s, I, W> {
    /// The nodes that are asked.
    pub nodes: &'s [NodeId],
    /// How they are asked.
    pub options: BusOptions,
    /// Where frames come from and go to.
    pub ends: ScanEnds<I, W>,
}

/// What is printed of the devices that were found.
#[derive(Clone, Copy)]
pub struct ListForm {
    /// The manager's own node-ID in the list.
    pub own: NodeId,
    /// Whether a comment says what each one's device profile is about.
    pub with_profiles: bool,
}

/// Tells why a scan gives nothing, and gives the exit status.
fn tell_no_scan<E: Write>(form: ReportForm, none: NoScan, err: &mut E) -> u8
    ensures { result ≡ 3 }
{
    let words = match none {
        NoScan::OutOfMemory => "out of memory",
        NoScan::NoWorker => "no worker",
        NoScan::NotHeard => "read failed",
        NoScan::NotWritten => "write failed",
        NoScan::BusOff => "bus: off",
    };
    tell_words(form, FAILED, words, err)
}

/// Says what the bus said of itself.
fn tell_bus<E: Write>(err: &mut E, network: &Network, said: BusSaid) -> io::Result<()> {
    if said.is_unacknowledged {
        err.write_all(b"canboot: ")?;
        say_notice(err, network, Some(Notice::Bus(ErrorNotice::Unacknowledged)))?;
    }
    if let Some(state) = said.trouble() {
        err.write_all(b"canboot: ")?;
        say_notice(err, network, Some(Notice::Bus(ErrorNotice::State(state))))?;
    }
    Ok(())
}

/// Says beside the list that nothing that was received is a frame, that no device was heard, what the bus said of itself, and at which
/// nodes two devices answer, each where it is so.
fn tell_beside<E: Write>(
    err: &mut E,
    network: &Network,
    format: Format,
    scanned: &Scanned,
) -> io::Result<()> {
    if scanned.said.are_strange {
        let words = NoFrames(format);
        writeln!(err, "canboot: {words}")?;
    }
    if scanned.found.is_empty() {
        err.write_all(b"canboot: no device was heard\n")?;
    }
    tell_bus(err, network, scanned.said)?;
    for double in scanned.doubles.as_slice() {
        writeln!(err, "canboot: {double}")?;
    }
    Ok(())
}

/// Writes a text, and all of it.
fn put_text<O: Write>(text: &[u8], out: &mut O) -> io::Result<()>
    ensures { OnOk result (Appends (O.contents out.old) (O.contents out.new) text.now) }
{
    out.write_all(text)?;
    out.flush()
}

/// Writes the network list of what was found, and gives the exit status. A fault is told in a line.
fn put_list<O: Write, E: Write>(
    alloc: Global,
    scanned: &Scanned,
    form: ListForm,
    out: &mut O,
    err: &mut E,
) -> u8
    ensures done { (lines : Lines) (received : Option (List ℕ)) → All (IsHeardDevice lines received) scanned.now.found.items
        → result ≡ 0 → Scans lines received form.own (O.contents out.old) (O.contents out.new) }
    ensures failed { (lines : Lines) (received : Option (List ℕ)) → All (IsHeardDevice lines received) scanned.now.found.items
        → result ≡ 3 → FailsToScan lines received form.own (O.contents out.old) (O.contents out.new) }
    ensures statuses { (result ≡ 0) ⊎ (result ≡ 3) }
{
    let found = scanned.found.as_slice();
    let names = scanned.names.as_slice();
    match list_found(alloc, form.own, found, names, form.with_profiles) {
        Ok(text) => tell_output(ReportForm::Text, put_text(text.as_slice(), out), err),
        Err(ScanFault::OutOfMemory) => tell_words(ReportForm::Text, FAILED, "out of memory", err),
        Err(ScanFault::NoList) => {
            tell_words(
                ReportForm::Text,
                FAILED,
                "no network list has these devices",
                err,
            )
        }
    }
}

/// Asks these nodes on a CAN bus, workers side by side, what they are: 1000h, and of those that answer it 1018h sub 1 to 4 and 1008h
/// (CiA 301); and writes a network list in TOML of the devices that answered, in rising order of their node-IDs: each is to be booted
/// (1F81h bits 0 and 2), and the values that it gave are the expected ones; a value that it didn't give is left out. No NMT message is
/// sent. `scan.ends` has a writer for each worker. The answer is the exit status:
///
/// - 0: the list is written, of whatever was found; `err` has a line where no device was heard, where the bus says that it isn't well, and
///   for each node at which two devices answer;
/// - 3: frames could no longer be received or sent, the bus is off, the list couldn't be written, memory or a thread was refused; `err` has one line
///   that says which.
pub fn scan_text<
    R: Wait + Threads + Clock + Clone + Send + Sync + Drop + 'static,
    I: Read + Send + Drop + 'static,
    W: Write + Drop + Send,
    O: Write,
    E: Write,
>(rt: &R, alloc: Global, scan: Scan<'_, I, W>, form: ListForm, out: &mut O, err: &mut E) -> u8
    ensures done { result ≡ 0 → Scans scan.entry.options.format (I.remaining scan.entry.ends.received) form.own
        (O.contents out.old) (O.contents out.new) }
    ensures failed { result ≡ 3 → FailsToScan scan.entry.options.format (I.remaining scan.entry.ends.received) form.own
        (O.contents out.old) (O.contents out.new) }
    ensures statuses { (result ≡ 0) ⊎ (result ≡ 3) }
{
    let network = Network::new(alloc, form.own, Startup(1), 0);
    let format = scan.options.format;
    match find_devices(rt, alloc, &network, scan) {
        Ok(scanned) => {
            let _ = tell_beside(err, &network, format, &scanned);
            put_list(alloc, &scanned, form, out, err)
        }
        Err(none) => tell_no_scan(ReportForm::Text, none, err),
    }
}

/// Writes the differences in this form, and gives the exit status: 0 only where there is none.
fn put_compared<O: Write, E: Write>(
    differences: &[Difference],
    slaves: usize,
    form: ReportForm,
    out: &mut O,
    err: &mut E,
) -> u8
    ensures none { result ≡ 0 → differences.now ≡ [] }
    ensures statuses { (result ≡ 0) ⊎ ((result ≡ 1) ⊎ (result ≡ 3)) }
{
    let output = match form {
        ReportForm::Text => put_lines(differences, slaves, out),
        ReportForm::Json => put_object(differences, slaves, out),
    };
    match (output, differences) {
        (Ok(()), []) => DONE,
        (Ok(()), _) => REFUSED,
        (Err(_), _) => tell_words(form, FAILED, "write failed", err),
    }
}

/// Asks these nodes as [`scan_text`] does, and writes how the devices that answered differ from those that the network list has, a
/// line for each listed node without a device, for each value that isn't the expected one, and for each device that isn't listed; or
/// these as one JSON object on a line. The answer is the exit status:
///
/// - 0: each listed slave answered each value that is expected of it, and no other node that was asked answered;
/// - 1: not so; `out` has the lines;
/// - 3: as [`scan_text`]'s.
pub fn scan_check<
    R: Wait + Threads + Clock + Clone + Send + Sync + Drop + 'static,
    I: Read + Send + Drop + 'static,
    W: Write + Drop + Send,
    O: Write,
    E: Write,
>(
    rt: &R,
    alloc: Global,
    network: &Network,
    scan: Scan<'_, I, W>,
    form: ReportForm,
    out: &mut O,
    err: &mut E,
) -> u8
    ensures done { result ≡ 0
        → AreHeardAsListed scan.entry.options.format (I.remaining scan.entry.ends.received) network.now }
    ensures statuses { (result ≡ 0) ⊎ ((result ≡ 1) ⊎ (result ≡ 3)) }
{
    let format = scan.options.format;
    let scanned = match find_devices(rt, alloc, network, scan) {
        Ok(scanned) => scanned,
        Err(none) => return tell_no_scan(form, none, err),
    };
    let _ = tell_beside(err, network, format, &scanned);
    match compare(alloc, network, scanned.found.as_slice()) {
        Ok(differences) => {
            let slaves = network.listed_ids().len();
            put_compared(differences.as_slice(), slaves, form, out, err)
        }
        Err(_) => tell_words(form, FAILED, "out of memory", err),
    }
}
