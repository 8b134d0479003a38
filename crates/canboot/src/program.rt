ghost use Rattle.std.specs.Prelude.{◌≡◌, ◌≤◌, IfOk};
ghost use Rattle.std.specs.Io.KnownBytes.{Appends};
ghost use Rattle.canboot.specs.Program.{EndsWithout};

use crate::simulated::run_simulated;
use canboot_check::check_file;
use canboot_cli::{Action, CheckOutput, Host, NoAction, ReplayOutput, read_words};
use canboot_faults::{FAILED, MISUSED, fault_line, output_status, read_fault};
use canboot_import::{ImportWords, import_file};
use canboot_journals::{mend_text, replay_as_json, replay_explained, replay_text};
use canboot_lists::explain_file;
use canboot_live::live_told;
use canboot_live_files::ReplaceFile;
use canboot_picture::picture_text;
use canboot_scan::scan_file;
use canboot_tell::tell_text;
use cm_report::ReportForm;
use std::alloc::Global;
use std::env;
use std::io::{self, BufWriter, IsTerminal, Read, StdinLock, Write};
use std::process::ExitCode;
use std::rt::{Env, Files};

/// Runs canboot on the words of its command line and its standard input and output, with `err` for
/// what goes to standard error, and gives its exit status. What a live run tells goes there by a thread of its own, since whoever reads
/// there may keep it waiting.
pub fn run<
    R: Env + Host + Print + Input<Reader = StdinLock<'static>>,
    E: Write + IsTerminal + Copy + Send + Drop + 'static,
    F: ReplaceFile + Send + Drop + 'static,
>(rt: &R, err: &mut E, files: F) -> ExitCode {
    ExitCode::from(run_here(rt, err, files))
}

fn run_here<
    R: Env + Host + Print + Input<Reader = StdinLock<'static>>,
    E: Write + IsTerminal + Copy + Send + Drop + 'static,
    F: ReplaceFile + Send + Drop + 'static,
>(rt: &R, err: &mut E, files: F) -> u8
    ensures statuses { result ≤ 3 }
{
    let args = match env::args(rt) {
        Ok(args) => args,
        Err(error) => return read_fault(err, error.kind()),
    };
    let Ok(words) = args.collect::<Vec<String>>(rt.alloc()) else {
        return fault_line(err, FAILED, "out of memory");
    };
    let Ok(out) = BufWriter::new(rt.alloc(), io::writer(rt)) else {
        return fault_line(err, FAILED, "out of memory");
    };
    let is_coloured = err.is_terminal() && !has_no_color(rt);
    let told = Some(*err);
    let mut streams = Streams {
        input: rt.reader(),
        out,
        err: &mut *err,
        told,
        is_coloured,
    };
    run_words(rt, words.as_slice(), &mut streams, files)
}

/// Whether the environment asks for no colour: `NO_COLOR` is there, and isn't empty.
fn has_no_color<R: Env + AllocGlobal>(rt: &R) -> bool {
    match env::var(rt, "NO_COLOR") {
        Ok(value) => !value.is_empty(),
        Err(_) => false,
    }
}

/// With what streams canboot runs.
#[derive(Drop)]
pub struct Streams<I, W, E, S> {
    /// What is read where no file is named.
    pub input: I,
    /// Where results are written.
    pub out: W,
    /// Where faults and warnings are told.
    pub err: E,
    /// Where a live run tells what it tells, if not on `err`.
    pub told: Option<S>,
    /// Whether words of what a live run tells are coloured.
    pub is_coloured: bool,
}

/// Runs canboot on these words, of which the first is the program's name, with these streams, and gives its exit status: that of
/// [`check_file`], [`explain_text`](canboot_lists::explain_text), [`import_text`](canboot_import::import_text), [`scan_text`](canboot_scan::scan_text),
/// [`scan_check`](canboot_scan::scan_check), [`run_network`](canboot_run::run_network), [`live_text`](canboot_live::live_text), [`replay_text`],
/// [`replay_explained`], [`mend_text`], [`tell_text`] or [`picture_text`], 0 for help and the version, 2 for wrong words, 3 for a file that can't be opened or made. Where `err` is a
/// terminal, a live run says the time with each line there. Where there is `told`, a live run tells there what it tells, and not on
/// `err`: a thread of its own writes it, which isn't joined; where nobody takes it, 16,384 lines wait at most, and more are left out
/// and counted.
pub fn run_words<
    R: Host + Input<Reader = StdinLock<'static>>,
    I: Read,
    W: Write,
    E: Write,
    S: Write + Send + Drop + 'static,
    F: ReplaceFile + Send + Drop + 'static,
>(rt: &R, words: &[String], streams: &mut Streams<I, W, E, S>, files: F) -> u8
    ensures statuses { result ≤ 3 }
{
    let Streams {
        input,
        out,
        err,
        told,
        is_coloured,
    } = streams;
    match read_words(rt.alloc(), words) {
        Ok(Action::Check { network, output }) => check_as(rt, network, output, out, err),
        Ok(
            Action::Import {
                file,
                id,
                mandatory,
                heartbeat_ms,
                first,
                is_partly,
            },
        ) => {
            let words = ImportWords {
                id,
                mandatory,
                heartbeat_ms,
                first,
                is_partly,
            };
            import_file(rt, file, words, out, err)
        }
        Ok(Action::Run(words)) => run_simulated(rt, &words, out, err),
        Ok(Action::Scan(words)) => scan_file(rt, &words, out, err),
        Ok(Action::Live(words)) => {
            live_told(rt, &words, files, out, err, told.take(), *is_coloured)
        }
        Ok(Action::Replay(output)) => replay_as(rt.alloc(), output, input, out, err),
        Ok(Action::Mend) => mend_text(rt.alloc(), input, out, err),
        Ok(Action::Tell { node, is_explained }) => {
            tell_text(rt.alloc(), input, node, is_explained, out, err)
        }
        Ok(Action::Picture) => picture_text(rt.alloc(), input, out, err),
        Err(none) => say(&none, out, err),
    }
}

/// `canboot replay`, with what is to be printed.
fn replay_as<I: Read, W: Write, E: Write>(
    alloc: Global,
    output: ReplayOutput,
    input: &mut I,
    out: &mut W,
    err: &mut E,
) -> u8
    ensures statuses { result ≤ 3 }
{
    match output {
        ReplayOutput::Text => replay_text(alloc, input, out, err),
        ReplayOutput::Words => replay_explained(alloc, input, out, err),
        ReplayOutput::Json => replay_as_json(alloc, input, out, err),
    }
}

/// `canboot check`, over the file of this path, with what is to be printed.
fn check_as<R: Files + AllocGlobal, W: Write, E: Write>(
    rt: &R,
    path: &str,
    output: CheckOutput,
    out: &mut W,
    err: &mut E,
) -> u8
    ensures statuses { result ≤ 3 }
{
    match output {
        CheckOutput::Line => check_file(rt, path, ReportForm::Text, out, err),
        CheckOutput::Words => explain_file(rt, path, out, err),
        CheckOutput::Json => check_file(rt, path, ReportForm::Json, out, err),
    }
}

/// Says why nothing is run: help and the version on `out`, what is wrong on `err`.
fn say<W: Write, E: Write>(none: &NoAction, out: &mut W, err: &mut E) -> u8
    ensures { EndsWithout none.now result }
{
    match none {
        NoAction::Shown(text) => output_status(err, show(text.as_str(), out)),
        NoAction::Wrong(text) => {
            let _ = err.write_all(text.as_str().as_bytes());
            MISUSED
        }
        NoAction::OutOfMemory => fault_line(err, FAILED, "out of memory"),
    }
}

/// Writes a text, and all of it.
fn show<W: Write>(text: &str, out: &mut W) -> io::Result<()>
    ensures { IfOk result (λ _. Appends (W.contents out.old) (W.contents out.new) text.now) }
{
    out.write_all(text.as_bytes())?;
    out.flush()
}
