//! By what a live run is followed: events for other programs, and versions of its history for readers.
ghost use Rattle.std.specs.Prelude.{◌≡◌, Err};

use crate::ends::Followed;
use canboot_live_files::{ReplaceFile, StatusFile, StatusKeeper};
use canboot_saying::{Events, LastLines, start_events};
use canboot_turns::{LiveRegister, open_versions};
use cm_bus::Setting;
use cm_register::RunName;
use cm_run::{NoHistory, kept};
use cm_versions::{Publisher, VersionReader};
use std::alloc::Global;
use std::io::Write;
use std::sync::Wait;
use std::thread::Threads;
use std::time::Clock;

/// Who keeps the file of the status, if there is one to keep.
fn keeper_of<K: RunName, F: ReplaceFile + Drop>(
    alloc: Global,
    reader: VersionReader<K>,
    file: Option<StatusFile<F>>,
) -> Option<StatusKeeper<K, F>> {
    match file {
        Some(file) => Some(StatusKeeper::new(alloc, reader, file)),
        None => None,
    }
}

/// By whom versions of the history are shown, and who reads them: the one that watches, and who keeps the file of the status.
#[derive(Drop)]
pub(crate) struct Shown<K: RunName, R: Wait + Drop, F> {
    pub(crate) publisher: Publisher<K, R>,
    pub(crate) versions: VersionReader<K>,
    pub(crate) keeper: Option<StatusKeeper<K, F>>,
}

/// By what other programs are told, and readers shown.
#[derive(Drop)]
pub(crate) struct Following<K: RunName, R: Wait + Drop, F> {
    pub(crate) told: Events,
    pub(crate) last_lines: LastLines,
    pub(crate) shown: Shown<K, R, F>,
}

/// Opens who shows versions of the register's history, and who reads them.
fn open_shown<
    'a,
    'n,
    R: Wait + Threads + Clock + Clone + Drop,
    K: RunName,
    M: LiveRegister<K, R>,
    F: ReplaceFile + Drop,
>(
    setting: &Setting<'a, 'n, R>,
    register: &M,
    status: Option<StatusFile<F>>,
) -> Result<Shown<K, R, F>, NoHistory>
    ensures { result ≡ Err NoHistory.NotMaster → ⊥ }
{
    let (publisher, reader, versions) = kept(open_versions(setting.alloc, setting.rt, register))?;
    let keeper = keeper_of(setting.alloc, reader, status);
    Ok(Shown {
        publisher,
        versions,
        keeper,
    })
}

/// Opens by what a live run is followed.
pub(crate) fn open_following<
    'a,
    'n,
    R: Wait + Threads + Clock + Clone + Send + Drop + 'static,
    K: RunName,
    M: LiveRegister<K, R>,
    V: Write + Send + Drop + 'static,
    F: ReplaceFile + Drop,
>(
    setting: &Setting<'a, 'n, R>,
    register: &M,
    followed: Followed<V, F>,
) -> Result<Following<K, R, F>, NoHistory>
    ensures { result ≡ Err NoHistory.NotMaster → ⊥ }
{
    let Followed { events, status } = followed;
    let (told, last_lines) = start_events(setting.rt, setting.alloc, events)?;
    let shown = open_shown(setting, register, status)?;
    Ok(Following {
        told,
        last_lines,
        shown,
    })
}
