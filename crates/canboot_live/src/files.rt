//! The files of a live run.

ghost use Rattle.std.specs.Prelude.{◌≡◌, ◌≤◌, ◌⊎◌, IfErr};

use crate::ends::{Followed, LiveEnds, LiveIo, LiveOutputs, LiveTrace};
use crate::live::live_listed;
use canboot_cli::{Host, JournalPath, LiveWords};
use canboot_faults::{FAILED, MISUSED, tell_unmade, tell_unopened, tell_words};
use canboot_live_files::{
    EventFile, JournalFile, OperatorInput, ReplaceFile, StatusFile, make_journal, open_operator,
    wrong_path,
};
use canboot_refusing::{read_fault_of, read_file, refuse_explained, refuse_names, write_fault_of};
use cm_bus::{
    BusOptions, LiveOptions, Outlet, Unopened, channel_closing, channel_opening, format_of,
    open_bus, writers_to,
};
use cm_netlist::{Network, list_of};
use cm_recorder::JournalOutput;
use cm_report::ReportForm;
use cm_shown::{Names, ShownLines, read_names};
use std::alloc::Global;
use std::fs::File;
use std::io::{self, BufWriter, ErrorKind, StdinLock, Write};
use std::marker::PhantomData;
use std::rt::Files;
use std::time::Clock;

/// How the network is booted and watched, as these words say.
fn options_of(words: &LiveWords<'_>) -> LiveOptions
    ensures { result.bus.workers ≡ words.now.workers }
{
    LiveOptions {
        bus: BusOptions {
            workers: words.workers,
            answer_ms: words.answer_ms,
            format: format_of(&words.bus),
        },
        attempts: words.attempts,
        settle_ms: words.settle_ms,
        heartbeat_ms: words.heartbeat_ms,
        seconds: words.seconds,
    }
}

/// The network of the list in the file of this path. The answer is else the exit status.
fn read_network<R: Files + AllocGlobal, E: Write>(
    rt: &R,
    form: ReportForm,
    path: &str,
    err: &mut E,
) -> Result<Network, u8>
    ensures { IfErr result (λ status. (status ≡ 1) ⊎ (status ≡ 3)) }
{
    let text = read_file(rt, form, path, err)?;
    let bytes = text.as_slice();
    match list_of(rt.alloc(), bytes) {
        Ok(network) => Ok(network),
        Err(fault) => Err(refuse_explained(form, rt.alloc(), bytes, fault, err)),
    }
}

/// Tells that an operator's file can't be opened, or is no FIFO, and gives the exit status.
fn tell_no_operator<E: Write>(form: ReportForm, kind: ErrorKind, err: &mut E) -> u8
    ensures { result ≡ 3 }
{
    match kind {
        ErrorKind::InvalidInput => {
            tell_words(form, FAILED, "the operator's file isn't a FIFO", err)
        }
        _ => tell_unopened(form, kind, err),
    }
}

/// The names of the file of this path; none without a path.
fn read_names_file<R: Files + AllocGlobal, E: Write>(
    rt: &R,
    form: ReportForm,
    path: Option<&str>,
    err: &mut E,
) -> Result<Names, u8>
    ensures { IfErr result (λ status. (status ≡ 1) ⊎ (status ≡ 3)) }
{
    let Some(path) = path else {
        return Ok(Names::new(rt.alloc()));
    };
    let text = match read_file(rt, form, path, err) {
        Ok(text) => text,
        Err(status) => return Err(status),
    };
    let bytes = text.as_slice();
    match read_names(rt.alloc(), bytes) {
        Ok(names) => Ok(names),
        Err(fault) => Err(refuse_names(form, rt.alloc(), path, bytes, fault, err)),
    }
}

/// Opens what events are written to, if they are. The answer is else the exit status.
fn open_events<R: Files<File = File>, E: Write>(
    rt: &R,
    form: ReportForm,
    path: Option<&str>,
    err: &mut E,
) -> Result<Option<EventFile>, u8>
    ensures { IfErr result (λ status. status ≡ 3) }
{
    let Some(path) = path else {
        return Ok(None);
    };
    match EventFile::open(rt, path) {
        Ok(file) => Ok(Some(file)),
        Err(error) => Err(write_fault_of(form, path, error.kind(), err)),
    }
}

/// Where the report so far is written, if it is.
fn status_file<F: Drop>(
    alloc: Global,
    path: Option<&str>,
    files: F,
) -> io::Result<Option<StatusFile<F>>> {
    let Some(path) = path else {
        return Ok(None);
    };
    let path = String::from_str(alloc, path)?;
    Ok(Some(StatusFile { files, path }))
}

/// Opens where other programs follow a live run. The answer is else the exit status.
fn open_followed<R: Files<File = File> + AllocGlobal, F: Drop, E: Write>(
    rt: &R,
    words: &LiveWords<'_>,
    files: F,
    err: &mut E,
) -> Result<Followed<EventFile, F>, u8>
    ensures { IfErr result (λ status. status ≡ 3) }
{
    let (form, paths) = (words.report, &words.paths);
    let events = match open_events(rt, form, paths.events, err) {
        Ok(events) => events,
        Err(status) => return Err(status),
    };
    match status_file(rt.alloc(), paths.status, files) {
        Ok(status) => Ok(Followed { events, status }),
        Err(error) => Err(tell_unmade(form, error.kind(), err)),
    }
}

/// A live run over files, whose status is kept by this.
struct OverFiles<F> {
    of: PhantomData<F>,
}

impl<F: ReplaceFile + Send + Drop + 'static> LiveIo for OverFiles<F> {
    type Received = File;

    type Typed = OperatorInput;

    type Sent = BufWriter<File>;

    type Events = EventFile;

    type Files = F;

    type Journal = JournalFile<File>;
}

/// What a live run reads and writes, opened.
#[derive(Drop)]
struct OpenEnds<F: ReplaceFile + Send + Drop + 'static> {
    ends: LiveEnds<OverFiles<F>>,
    messages: Outlet<BufWriter<File>>,
    /// The bus itself.
    sent: File,
}

/// Opens what a live run reads and writes, but for its journal. The answer is else the exit status.
fn open_ends<
    R: Files<File = File> + Input<Reader = StdinLock<'static>> + AllocGlobal,
    F: ReplaceFile + Send + Drop + 'static,
    E: Write,
>(rt: &R, words: &LiveWords<'_>, files: F, err: &mut E) -> Result<OpenEnds<F>, u8>
    requires workers { (1 ≤ words.now.workers) × (words.now.workers ≤ 16) }
    ensures { IfErr result (λ status. status ≡ 3) }
{
    let form = words.report;
    let typed = match open_operator(rt, words.paths.operator) {
        Ok(typed) => typed,
        Err(error) => return Err(tell_no_operator(form, error.kind(), err)),
    };
    let (received, sent) = match open_bus(rt, &words.bus) {
        Ok(opened) => opened,
        Err(Unopened { path, kind }) => return Err(read_fault_of(form, path, kind, err)),
    };
    // One for each worker, one for error control, and one for the NMT messages.
    let mut written = match writers_to(rt.alloc(), &sent, words.workers + 2) {
        Ok(writers) => writers,
        Err(error) => return Err(tell_unmade(form, error.kind(), err)),
    };
    let (Some(writer), Some(error_control)) = (written.pop(), written.pop()) else {
        return Err(tell_words(form, FAILED, "out of memory", err));
    };
    let followed = match open_followed(rt, words, files, err) {
        Ok(followed) => followed,
        Err(status) => return Err(status),
    };
    Ok(OpenEnds {
        ends: LiveEnds {
            received,
            typed,
            written,
            error_control,
            followed,
        },
        messages: Outlet::new(writer, format_of(&words.bus)),
        sent,
    })
}

/// Makes the file of the journal, if there is one. Where another is taken than the path's own, that is told as a line of the run is.
fn make_journal_told<R: Files<File = File> + Clock + AllocGlobal, E: Write>(
    rt: &R,
    journal: JournalPath<'_>,
    err: &mut E,
    is_coloured: bool,
) -> io::Result<JournalOutput<JournalFile<File>>> {
    let names = Names::new(rt.alloc());
    let mut shown = ShownLines::new(rt, rt.alloc(), err, is_coloured, Some(&names));
    make_journal(rt, journal.path, journal.is_synced, &mut shown)
}

/// The same. The answer is else the exit status.
fn open_journal<R: Files<File = File> + Clock + AllocGlobal, E: Write>(
    rt: &R,
    form: ReportForm,
    journal: JournalPath<'_>,
    err: &mut E,
    is_coloured: bool,
) -> Result<JournalOutput<JournalFile<File>>, u8>
    ensures { IfErr result (λ status. status ≡ 3) }
{
    let made = make_journal_told(rt, journal, err, is_coloured);
    match (made, journal.path) {
        (Ok(output), _) => Ok(output),
        (Err(error), Some(path)) => Err(write_fault_of(form, path, error.kind(), err)),
        (Err(error), None) => Err(tell_unmade(form, error.kind(), err)),
    }
}

/// Runs the network of a list over what was opened, as these words say.
fn live_over<R: Host, F: ReplaceFile + Send + Drop + 'static, O: Write, E: Write>(
    rt: &R,
    words: &LiveWords<'_>,
    network: &Network,
    opened: OpenEnds<F>,
    journal: JournalOutput<JournalFile<File>>,
    out: &mut O,
    err: &mut E,
) -> u8
    requires workers { (1 ≤ words.now.workers) × (words.now.workers ≤ 16) }
    ensures statuses { (result ≡ 0) ⊎ ((result ≡ 1) ⊎ (result ≡ 3)) }
{
    let OpenEnds {
        ends,
        messages,
        mut sent,
    } = opened;
    let options = options_of(words);
    let mut outputs = LiveOutputs {
        form: words.report,
        out: &mut *out,
        err: &mut *err,
        trace: LiveTrace {
            messages: Some(messages),
            requests: Vec::new(rt.alloc()),
            error_control: None,
            journal,
        },
    };
    let _ = sent.write_all(channel_opening(options.bus.format));
    let status = live_listed(rt, rt.alloc(), network, options, ends, &mut outputs);
    let _ = sent.write_all(channel_closing(options.bus.format));
    status
}

/// `canboot live`, over the files that these words name. The list is read first; where it has no fault, the names are read and the
/// rest is opened, and then the journal's file is made, if there is one, before a byte goes to the bus. Where the start will be
/// refused no journal is made. Each line of the run on `err` has its time, and words in colour and with names where these are asked for.
pub(crate) fn live_file<
    R: Host + Input<Reader = StdinLock<'static>>,
    F: ReplaceFile + Send + Drop + 'static,
    O: Write,
    E: Write,
>(rt: &R, words: &LiveWords<'_>, files: F, out: &mut O, err: &mut E, is_coloured: bool) -> u8
    requires workers { (1 ≤ words.now.workers) × (words.now.workers ≤ 16) }
    ensures statuses { result ≤ 3 }
{
    let (form, paths) = (words.report, &words.paths);
    let network = match read_network(rt, form, paths.network, err) {
        Ok(network) => network,
        Err(status) => return status,
    };
    if let Some(wrong) = wrong_path(rt, paths) {
        return tell_words(form, MISUSED, wrong, err);
    }
    let names = match read_names_file(rt, form, paths.names, err) {
        Ok(names) => names,
        Err(status) => return status,
    };
    let opened = match open_ends(rt, words, files, err) {
        Ok(opened) => opened,
        Err(status) => return status,
    };
    let journal = if network.startup().is_master() {
        paths.journal
    } else {
        JournalPath {
            path: None,
            is_synced: false,
        }
    };
    let journal = match open_journal(rt, form, journal, err, is_coloured) {
        Ok(output) => output,
        Err(status) => return status,
    };
    let mut shown = ShownLines::new(rt, rt.alloc(), err, is_coloured, Some(&names));
    live_over(rt, words, &network, opened, journal, out, &mut shown)
}
