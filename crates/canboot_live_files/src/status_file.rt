//! The file that has the status of a live run: a thread of its own writes the report there, as JSON, from versions of the history,
//! for which it takes no lock and by which no call waits for the file.

ghost use Rattle.std.specs.Prelude.{◌≡◌, IsTrue};
ghost use Rattle.cm_format.specs.ReportJson.{report_json};

use crate::replace_file::ReplaceFile;
use cm_netlist::Network;
use cm_register::{RunName, SharedManager};
use cm_versions::VersionReader;
use crossbeam_channel::{Receiver, Sender};
use std::alloc::{AllocError, Global};
use std::sync::Wait;
use std::sync::atomic::{AtomicBool, Ordering};
use std::thread::{JoinHandle, Scope, Threads};
use std::time::{Clock, Duration};

/// How long nothing is written behind a write, in ms.
const PAUSE_MS: u64 = 1000;

/// Where the status of a live run is written.
#[derive(Drop)]
pub struct StatusFile<F> {
    /// Who replaces the file.
    pub files: F,
    /// The path of the file.
    pub path: String,
}

/// Who keeps the file of the status.
#[derive(Drop)]
pub struct StatusKeeper<K: RunName, F> {
    reader: VersionReader<K>,
    file: StatusFile<F>,
    /// The text that was written last.
    text: Vec<u8>,
    /// Of how many entries the file is; none, where it wasn't written yet.
    written: Option<u64>,
}

impl<K: RunName, F: ReplaceFile + Drop> StatusKeeper<K, F> {
    /// Who keeps this file with what this reader sees.
    pub fn new(alloc: Global, reader: VersionReader<K>, file: StatusFile<F>) -> StatusKeeper<K, F> {
        StatusKeeper {
            reader,
            file,
            text: Vec::new(alloc),
            written: None,
        }
    }

    /// Puts the report of the newest version in the place of the text, and leaves the version. Whether it did.
    fn render(&mut self, network: &Network) -> bool
        requires { network.now ≡ K.net }
        ensures { IsTrue result → self.new.text.items ≡ report_json K.net self.new.reader }
    {
        self.text.clear();
        match self.reader.json(network, &mut self.text) {
            Some(written) => written.is_ok(),
            None => false,
        }
    }

    /// Writes the file, if the history has grown since it was written; sets this where it can't be written.
    fn write_new(&mut self, network: &Network, failed: &AtomicBool)
        requires { network.now ≡ K.net }
    {
        let _ = self.reader.look();
        if self.written == Some(self.reader.known().len()) || !self.render(network) {
            return;
        }
        let seen = self.reader.known().len();
        let path = self.file.path.as_str();
        match self.file.files.replace(path, self.text.as_slice()) {
            Ok(()) => self.written = Some(seen),
            Err(_) => failed.store(true, Ordering::SeqCst),
        }
    }
}

/// Keeps the file of the status until the other end of this channel is gone: each second in which the history has grown, and at the end.
fn keep_status<R: Wait + Clock, K: RunName, M: SharedManager<K, R>, F: ReplaceFile + Drop>(
    rt: &R,
    register: &M,
    keeper: StatusKeeper<K, F>,
    failed: &AtomicBool,
    stops: &Receiver<()>,
) {
    let mut keeper = keeper;
    for _ in rt.forever() {
        keeper.write_new(register.network(), failed);
        match stops.recv_timeout(rt, Duration::from_millis(PAUSE_MS)) {
            Err(none) if none.is_timeout() => {}
            _ => break,
        }
    }
    keeper.write_new(register.network(), failed);
}

/// The thread that keeps the file of the status.
#[derive(Drop)]
pub struct StatusThread {
    /// Once this is gone, it writes the file once more, and ends.
    stops: Sender<()>,
    handle: JoinHandle<()>,
}

impl StatusThread {
    /// Lets it write the file once more, and waits for it.
    pub fn stop<R: Threads>(self, rt: &R) {
        let StatusThread { stops, handle } = self;
        drop(stops);
        handle.join(rt);
    }
}

/// Starts the thread that keeps the file of the status, if there is one to keep; it sets `failed` where the file can't be written.
pub fn start_status<
    's,
    V,
    R: Wait + Threads + Clock + Send + Sync + Drop + 's,
    K: RunName + Send + Sync + 's,
    M: SharedManager<K, R> + Sync + 's,
    F: ReplaceFile + Drop + Send + 's,
>(
    scope: &Scope<'s, V>,
    rt: &'s R,
    alloc: Global,
    register: &'s M,
    keeper: Option<StatusKeeper<K, F>>,
    failed: &'s AtomicBool,
) -> Result<Option<StatusThread>, AllocError> {
    let Some(keeper) = keeper else {
        return Ok(None);
    };
    let (stops, stopped) = crossbeam_channel::bounded(alloc, 1)?;
    match scope.spawn(move || keep_status(rt, register, keeper, failed, &stopped)) {
        Ok(handle) => Ok(Some(StatusThread { stops, handle })),
        Err(_) => Err(AllocError),
    }
}
