ghost use Rattle.std.specs.Prelude.{◌≡◌, ◌++◌, ◌∷◌, [], List};
ghost use Rattle.cm_history.specs.declared.call.Entry.{Entry as AnEntry};

use cm_history::{Entry, Recorder};
use cm_receiving::Notification;
use crossbeam_channel::Sender;
use std::sync::atomic::{AtomicBool, Ordering};
use std::sync::{Arc, Wait};

/// A recorder that tells each entry, once it is recorded, to the one that watches the network, with its place in the
/// history. Entries are recorded under the register's lock, so they are told in the order of the history.
#[derive(Drop)]
pub struct Telling<R: Wait + Drop, J: Recorder> {
    recorder: J,
    rt: R,
    /// How many entries were recorded.
    count: u64,
    notifications: Sender<Notification>,
    untold: Arc<AtomicBool>,
}

impl<R: Wait + Drop, J: Recorder> Telling<R, J> {
    /// A recorder over this one, to which nothing was handed. `untold` is set once an entry couldn't be told, since
    /// memory was refused.
    pub fn new(
        rt: R,
        recorder: J,
        notifications: Sender<Notification>,
        untold: Arc<AtomicBool>,
    ) -> Telling<R, J>
        ensures { result.recorder ≡ recorder }
    {
        Telling {
            recorder,
            rt,
            count: 0,
            notifications,
            untold,
        }
    }

    /// The recorder below.
    pub fn into_recorder(self) -> J
        ensures { result ≡ self.recorder }
    {
        let Telling { recorder, .. } = self;
        recorder
    }
}

impl<R: Wait + Drop, J: Recorder> Recorder for Telling<R, J> {
    ghost has_recorded = { λ t entries. J.has_recorded t.recorder entries };

    fn record(&mut self, entry: &Entry)
        ensures { (entries : List AnEntry) → J.has_recorded self.old.recorder entries
            → J.has_recorded self.new.recorder (entries ++ entry.now ∷ []) }
    {
        self.recorder.record(entry);
        let entered = Notification::Entered(self.count, *entry);
        self.count = self.count.wrapping_add(1);
        if self.notifications.send(&self.rt, entered).is_err() {
            self.untold.store(true, Ordering::SeqCst);
        }
    }
}
