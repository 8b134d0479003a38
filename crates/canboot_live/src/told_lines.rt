//! How the lines that a live run tells get out: a thread of its own writes them, since whoever reads them may keep it waiting.

ghost use Rattle.std.specs.Prelude.{◌≡◌, ◌≤◌, Err};

use crate::files::live_file;
use crate::live::tell_no_history;
use canboot_cli::{Host, LiveWords};
use canboot_live_files::ReplaceFile;
use cm_run::{NoHistory, kept};
use cm_shown::{Names, ShownLines};
use crossbeam_channel::{Receiver, Sender};
use std::alloc::{AllocError, Global};
use std::io::{self, StdinLock, Write};
use std::mem;
use std::sync::atomic::{AtomicU64, Ordering};
use std::sync::{Arc, Wait};
use std::thread::{self, Threads};
use std::time::{Clock, Duration};

/// How many lines wait at most for whoever reads them.
const MOST_WAITING: usize = 16_384;

/// For how long the last lines are waited for at most, in ms.
const LAST_LINES_MS: u64 = 1000;

/// A writer that doesn't wait for whoever reads its lines: a thread writes them, each by one write, and 16,384 wait for it at most.
/// What it doesn't take is left out, and how many lines were is told before the next that it takes. Only a flush waits for the
/// thread, and all flushes together for a second at most.
#[derive(Drop)]
pub struct ToldLines<'r, R: Wait + Clock> {
    rt: &'r R,
    alloc: Global,
    /// To the thread that writes them.
    lines: Sender<Vec<u8>>,
    /// The line that has come so far.
    line: Vec<u8>,
    /// How many lines were left out since the last that wasn't.
    left_out: u64,
    /// How many texts the thread has taken.
    taken: u64,
    /// How many of them it has written.
    written: Arc<AtomicU64>,
    /// For how long a flush may still wait, in ms.
    patience_ms: u64,
}

/// How many lines a text ends; one where it ends none.
fn lines_in(text: &[u8]) -> u64 {
    let ends = text.iter().filter(|byte| **byte == b'\n').count() as u64;
    ends.max(1)
}

/// Puts how many lines were left out, as a line of the run.
fn put_left_out<R: Clock>(rt: &R, alloc: Global, count: u64, text: &mut Vec<u8>) -> io::Result<()> {
    let lines = if count == 1 { "line" } else { "lines" };
    let names = Names::new(alloc);
    let mut shown = ShownLines::new(rt, alloc, text, false, Some(&names));
    writeln!(shown, "{count} {lines} left out, since nobody took them")
}

impl<'r, R: Wait + Clock> ToldLines<'r, R> {
    /// Hands a text to the thread, without waiting. Whether it was taken.
    fn hand(&mut self, text: Vec<u8>) -> bool {
        if self.lines.try_send(self.rt, text).is_err() {
            return false;
        }
        self.taken = self.taken.wrapping_add(1);
        true
    }

    /// Tells how many lines were left out, if some were and this is taken.
    fn tell_left_out(&mut self) {
        if self.left_out == 0 {
            return;
        }
        let mut text = Vec::new(self.alloc);
        if put_left_out(self.rt, self.alloc, self.left_out, &mut text).is_ok() && self.hand(text) {
            self.left_out = 0;
        }
    }

    /// Hands the line that has come to the thread, behind how many were left out before it.
    fn put_line(&mut self) {
        let line = mem::replace(&mut self.line, Vec::new(self.alloc));
        let count = lines_in(&line);
        self.tell_left_out();
        if self.left_out > 0 || !self.hand(line) {
            self.left_out = self.left_out.saturating_add(count);
        }
    }

    /// Whether all lines are written.
    fn is_done(&self) -> bool {
        self.left_out == 0 && self.written.load(Ordering::SeqCst) == self.taken
    }

    /// Waits until all lines are written, as long as there is patience.
    fn wait(&mut self) {
        for _ in 0..LAST_LINES_MS {
            self.tell_left_out();
            if self.is_done() || self.patience_ms == 0 {
                return;
            }
            thread::sleep(self.rt, Duration::from_millis(1));
            self.patience_ms = self.patience_ms.saturating_sub(1);
        }
    }

    /// Hands on what has come of a last line, and waits for the thread as a flush does.
    fn end(mut self) {
        if !self.line.is_empty() {
            self.put_line();
        }
        self.wait();
    }
}

impl<'r, R: Wait + Clock> Write for ToldLines<'r, R> {
    fn write(&mut self, buf: &[u8]) -> io::Result<usize> {
        if let Err(refused) = self.line.extend_from_slice(buf) {
            self.left_out = self.left_out.saturating_add(1);
            return Err(io::Error::from(refused));
        }
        if self.line.last() == Some(&b'\n') {
            self.put_line();
        }
        Ok(buf.len())
    }

    fn flush(&mut self) -> io::Result<()> {
        self.wait();
        Ok(())
    }
}

/// Writes texts as they come, each by one write, until no more come.
fn write_texts<R: Wait, S: Write>(
    rt: &R,
    texts: &Receiver<Vec<u8>>,
    out: &mut S,
    written: &AtomicU64,
) {
    for _ in rt.forever() {
        let Ok(text) = texts.recv(rt) else {
            return;
        };
        let _ = out.write_all(text.as_slice());
        let _ = out.flush();
        written.fetch_add(1, Ordering::SeqCst);
    }
}

/// A count that two threads share, 0 at first.
fn shared_count(alloc: Global) -> Result<(Arc<AtomicU64>, Arc<AtomicU64>), AllocError> {
    let count = Arc::new(alloc, AtomicU64::new(0))?;
    let same = Arc::try_clone(&count)?;
    Ok((count, same))
}

/// Starts the thread that writes the lines of a live run to this writer. It isn't joined: where nobody reads them, it waits while the
/// program ends.
fn start_told<
    'r,
    R: Wait + Threads + Clock + Clone + Send + Drop + 'static,
    S: Write + Send + Drop + 'static,
>(rt: &'r R, alloc: Global, out: S) -> Result<ToldLines<'r, R>, NoHistory>
    ensures { result ≡ Err NoHistory.NotMaster → ⊥ }
{
    let (lines, texts) = kept(crossbeam_channel::bounded(alloc, MOST_WAITING))?;
    let (written, counted) = kept(shared_count(alloc))?;
    let theirs = kept(rt.clone())?;
    let mut out = out;
    let write = move || write_texts(&theirs, &texts, &mut out, &counted);
    if thread::spawn(rt, write).is_err() {
        return Err(NoHistory::NoWorker);
    }
    Ok(ToldLines {
        rt,
        alloc,
        lines,
        line: Vec::new(alloc),
        left_out: 0,
        taken: 0,
        written,
        patience_ms: LAST_LINES_MS,
    })
}

/// `canboot live`, over the files that these words name. What it tells goes to `told`, if that is there, by a thread of its own, and
/// else to `err`.
pub fn live_told<
    R: Host + Input<Reader = StdinLock<'static>>,
    F: ReplaceFile + Send + Drop + 'static,
    O: Write,
    E: Write,
    S: Write + Send + Drop + 'static,
>(
    rt: &R,
    words: &LiveWords<'_>,
    files: F,
    out: &mut O,
    err: &mut E,
    told: Option<S>,
    is_coloured: bool,
) -> u8
    requires workers { (1 ≤ words.now.workers) × (words.now.workers ≤ 16) }
    ensures statuses { result ≤ 3 }
{
    let Some(told) = told else {
        return live_file(rt, words, files, out, err, is_coloured);
    };
    match start_told(rt, rt.alloc(), told) {
        Ok(mut lines) => {
            let status = live_file(rt, words, files, out, &mut lines, is_coloured);
            lines.end();
            status
        }
        Err(none) => tell_no_history(words.report, none, err),
    }
}
