//! The files of a run: its network list, and the one that its journal is written to.

ghost use Rattle.std.specs.Prelude.{◌≡◌, ◌≤◌, IfOk, None, false, is_some, true};

use crate::running::{Asked, run_listed, tell_unlisted};
use canboot_faults::{
    MISUSED, is_list, tell_input, tell_list, tell_unmade, tell_unopened, tell_words,
};
use cm_netlist::{CheckFault, LONGEST_LIST, Network, list_of};
use cm_report::ReportForm;
use cm_text::{InputFault, read_input};
use std::fs;
use std::io::{self, BufWriter, ErrorKind, Write};
use std::rt::Files;
use std::sync::Wait;
use std::thread::Threads;

/// Why a run has no network.
#[derive(Drop)]
pub enum NoNetwork {
    /// The list's file can't be opened, for this reason.
    Unopened(ErrorKind),
    /// The journal's file would be the list itself.
    JournalIsList,
    /// The list's file wasn't read to its end.
    Unread(InputFault),
    /// The journal's file can't be made, for this reason.
    Unmade(ErrorKind),
    /// The list has a fault, or there was no memory for its network.
    Faulty {
        /// The bytes of the list.
        text: Vec<u8>,
        /// What is wrong.
        fault: CheckFault,
    },
}

/// Tells in this form why a run has no network, and gives its exit status: 2 where the journal's file would be the list itself, 1 for a
/// fault of the list, 3 for any other.
pub fn refuse_run<E: Write>(form: ReportForm, none: &NoNetwork, err: &mut E) -> u8
    ensures { result ≤ 3 }
{
    match none {
        NoNetwork::Unopened(kind) => tell_unopened(form, *kind, err),
        NoNetwork::JournalIsList => {
            let said = "the file of the journal is the network list";
            tell_words(form, MISUSED, said, err)
        }
        NoNetwork::Unread(fault) => tell_input(form, *fault, err),
        NoNetwork::Unmade(kind) => tell_unmade(form, *kind, err),
        NoNetwork::Faulty { fault, .. } => tell_list(form, *fault, err),
    }
}

/// The network of the list in the file of this path, for a run whose journal goes to that file, if it goes to one. Nothing is done where
/// the journal's file would be the list itself; where the list has a fault, the journal's file is made.
pub fn network_of_file<R: Files + AllocGlobal>(
    rt: &R,
    path: &str,
    journal: Option<&str>,
) -> Result<Network, NoNetwork> {
    let text = list_text(rt, path, journal)?;
    match list_of(rt.alloc(), text.as_slice()) {
        Ok(network) => Ok(network),
        Err(fault) => match make(rt, journal) {
            Ok(_) => Err(NoNetwork::Faulty { text, fault }),
            Err(error) => Err(NoNetwork::Unmade(error.kind())),
        },
    }
}

/// The bytes of the file of this path, unless the journal's file would be the list itself.
fn list_text<R: Files + AllocGlobal>(
    rt: &R,
    path: &str,
    journal: Option<&str>,
) -> Result<Vec<u8>, NoNetwork> {
    let mut list = match fs::open(rt, path) {
        Ok(file) => file,
        Err(error) => return Err(NoNetwork::Unopened(error.kind())),
    };
    if is_list(rt, path, journal) {
        return Err(NoNetwork::JournalIsList);
    }
    match read_input(rt.alloc(), &mut list, LONGEST_LIST) {
        Ok(text) => Ok(text),
        Err(fault) => Err(NoNetwork::Unread(fault)),
    }
}

/// `canboot run`, over the network of a list that was read, as [`run_text_as`](crate::run_text_as) does: 3 also for a journal's file that
/// can't be made. That file, if there is one, is made behind the look whether the slaves with faults are listed.
pub fn run_network<R: Files + AllocGlobal + Wait + Threads + Send + Sync, W: Write, E: Write>(
    rt: &R,
    network: &Network,
    asked: Asked<'_>,
    journal: Option<&str>,
    out: &mut W,
    err: &mut E,
) -> u8
    requires workers { (1 ≤ asked.options.now.workers) × (asked.options.now.workers ≤ 16) }
    requires attempts { (1 ≤ asked.options.now.attempts) × (asked.options.now.attempts ≤ 10) }
    ensures { result ≤ 3 }
{
    if let Some(node) = asked.options.faults.unlisted(network) {
        return tell_unlisted(asked.form, node, err);
    }
    match make(rt, journal) {
        Ok(mut file) => run_listed(rt, rt.alloc(), network, asked, out, err, &mut file),
        Err(error) => tell_unmade(asked.form, error.kind(), err),
    }
}

/// Makes the file of this path, if there is one.
fn make<R: Files + AllocGlobal>(
    rt: &R,
    path: Option<&str>,
) -> io::Result<Option<BufWriter<R::File>>>
    ensures none { path.entry ≡ None → IfOk result (λ made. is_some made ≡ false) }
    ensures some { is_some path.entry ≡ true → IfOk result (λ made. is_some made ≡ true) }
{
    match path {
        Some(path) => {
            let file = fs::create(rt, path)?;
            Ok(Some(BufWriter::new(rt.alloc(), file)?))
        }
        None => Ok(None),
    }
}
