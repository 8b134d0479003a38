//! What a live run says of what happens, each call behind its frames.

ghost use Rattle.std.specs.Prelude.{◌≡◌, IfSome};
ghost use Rattle.cm_watched.specs.Pasts.{Past};
ghost use Rattle.cm_watched.specs.declared.settings.Settings.{Settings as WatchSettings};
ghost use Rattle.canboot_turns.specs.Going.{Follows};
ghost use Rattle.canboot_turns.specs.Running.{AreRunningOn};

use crate::progress::LiveCourse;
use crate::versions::manager_seen;
use crate::watching::is_set;
use cm_history::Entry;
use cm_netlist::Network;
use cm_register::{RunName, Seat};
use cm_telling::Untold;
use cm_versions::VersionReader;
use cm_words::{EntryWords, Nodes, running_by, started_too, tell_entry, tell_told};
use std::io::Write;
use std::sync::Wait;
use std::sync::atomic::Ordering;
use std::time::Clock;

/// The nodes that are operational, as the manager of the newest version knows it, if that has all that the operator's seat knows.
pub(crate) fn running<K: RunName>(
    versions: &mut VersionReader<K>,
    network: &Network,
    seat: &Seat<K>,
) -> Option<Nodes>
    ensures { network.now ≡ K.net → IfSome result (λ nodes. AreRunningOn K.net seat.now nodes.0.items) }
{
    let manager = manager_seen(versions, seat)?;
    Some(running_by(network, &manager))
}

/// The same, where the network was halted.
fn running_if<K: RunName>(
    is_halted: bool,
    versions: &mut VersionReader<K>,
    network: &Network,
    seat: &Seat<K>,
) -> Option<Nodes>
    ensures { network.now ≡ K.net → IfSome result (λ nodes. AreRunningOn K.net seat.now nodes.0.items) }
{
    if is_halted {
        running(versions, network, seat)
    } else {
        None
    }
}

impl<'w, 'a, 'n, R: Wait + Clock> LiveCourse<'w, 'a, 'n, R> {
    /// Tells an entry, and what became of the network and of slaves with it.
    fn tell_untold<E: Write>(
        &mut self,
        err: &mut E,
        untold: &Untold<Entry>,
        is_handed: bool,
        running: &Option<Nodes>,
    )
        ensures progress { self.new.progress ≡ self.old.progress }
        ensures network { self.new.network ≡ self.old.network }
    {
        let words = EntryWords {
            network: self.network,
            entry: &untold.value,
            is_handed,
            is_halted: untold.is_halted,
            place: untold.place,
            unbooted: self
                .progress
                .tried
                .unbooted(&untold.value, &self.progress.watch),
        };
        let (watch, tried) = (&self.progress.watch, &self.progress.tried);
        let too = started_too(self.network, watch, tried, &untold.value.orders, is_handed);
        let _ = tell_entry(err, &words);
        let _ = tell_told(err, &too, running, &untold.value, &untold.told);
        let rt = self.setting.rt;
        self.teller
            .events
            .tell_untold(rt, self.network, untold, is_handed, &too, running);
        self.teller.given_up.note_told(untold.place);
        self.teller.tell_given_up(err, rt, self.network);
    }

    /// Tells the next entry that waits, if its frames were handed to the wire; at the end of the run, also if not. Whether
    /// it did.
    fn tell_next<K: RunName, E: Write>(
        &mut self,
        err: &mut E,
        versions: &mut VersionReader<K>,
        seat: &Seat<K>,
        handed: u64,
        is_end: bool,
    ) -> bool
        ensures follows { (s : WatchSettings) (past : Past) → Follows self.old.progress self.old.network.now s past
            → Follows self.new.progress self.old.network.now s past }
        ensures network { self.new.network ≡ self.old.network }
    {
        let Some((untold, is_handed)) = self.progress.waiting.next_handed(handed, is_end) else {
            return false;
        };
        let running = running_if(untold.told.is_halted, versions, self.network, seat);
        self.tell_untold(err, &untold, is_handed, &running);
        true
    }

    /// Tells what is to be told by now.
    pub(crate) fn tell<K: RunName, E: Write>(
        &mut self,
        err: &mut E,
        versions: &mut VersionReader<K>,
        seat: &Seat<K>,
        is_end: bool,
    )
        ensures follows { (s : WatchSettings) (past : Past) → Follows self.old.progress self.old.network.now s past
            → Follows self.new.progress self.old.network.now s past }
        ensures network { self.new.network ≡ self.old.network }
    {
        let handed = self.setting.handed.load(Ordering::SeqCst);
        for _ in self.setting.rt.forever() {
            if !self.tell_next(err, versions, seat, handed, is_end) {
                break;
            }
        }
        self.teller
            .tell_given_up(err, self.setting.rt, self.network);
        let is_unrecorded = is_set(&self.setting.unrecorded);
        let is_unshown = is_set(&self.setting.unshown);
        self.teller
            .tell_unwritten(err, self.setting.rt, is_unrecorded, is_unshown);
    }
}
