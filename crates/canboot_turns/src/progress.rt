//! How far a live run has come.

ghost use Rattle.std.specs.Prelude.{◌≡◌, ◌<◌, ◌^◌, [], ◌∷◌, ◌++◌, ℕ, List, Option, false, Err, IfNone, IfOk, IfSome, OnOk};
ghost use Rattle.cm_register.specs.SeatViews.{SeatView};
ghost use Rattle.cm_netlist.specs.Network.{Network as NetworkList};
ghost use Rattle.cm_watched.specs.Guarding.{heard_at};
ghost use Rattle.cm_watched.specs.Pasts.{Past};
ghost use Rattle.cm_telling.specs.Tried.{may_change_boots};
ghost use Rattle.canboot_turns.specs.Causes.{GoesOnAs, HasSent, course_stand};
ghost use Rattle.canboot_turns.specs.Going.{ComesNext, Follows, HasTaken, HasToldEntries, ends_behind};
ghost use Rattle.cm_watched.specs.declared.happening.Happening.TheVariants.{Called, Ended};
ghost use Rattle.cm_watched.specs.declared.happening.Moment.TheVariants.{Happened};
ghost use Rattle.cm_watched.specs.declared.settings.Settings.{Settings as WatchSettings};

use crate::ending::{Ending, can_go_on};
use crate::setting::LiveSetting;
use crate::watching::{MOST_TAKEN, is_set};
use canboot_saying::{Boots, Events, Teller, count_sent};
use cm_bus::{CausedOutlet, LiveOptions, Setting};
use cm_can::ControlFrame;
use cm_history::{CallFault, Entry};
use cm_netlist::Network;
use cm_nmt::NodeId;
use cm_receiving::{BusName, Notification};
use cm_register::{RunName, Seat};
use cm_sequential::frames;
use cm_telling::{Tried, Waiting};
use cm_versions::VersionReader;
use cm_watch::Watch;
use cm_watched::{Happening, Settings};
use cm_words::given_up;
use crossbeam_channel::Receiver;
use std::alloc::{AllocError, Global};
use std::io::Write;
use std::sync::Wait;
use std::time::Clock;

/// What the watch keeps of a live run, what waits to be told in words, and what came of the boots of slaves.
#[derive(Drop)]
pub(crate) struct Progress<T> {
    pub(crate) watch: Watch,
    pub(crate) waiting: Waiting<T>,
    pub(crate) tried: Tried,
}

impl Progress<Entry> {
    /// Nothing has happened.
    pub(crate) fn new(alloc: Global, settings: Settings) -> Progress<Entry>
        ensures { (net : NetworkList) → Follows result net settings [] }
    {
        Progress {
            watch: Watch::new(settings),
            waiting: Waiting::new(alloc),
            tried: Tried::new(),
        }
    }

    /// What the watch is told beside entries. The answer is the slave that is given up with it, if one is while the network isn't
    /// halted.
    pub(crate) fn note(
        &mut self,
        network: &Network,
        happening: &Happening,
        now: u64,
    ) -> Option<NodeId>
        requires time { now < 2 ^ 63 }
        requires other { may_change_boots (Happened happening.now) ≡ false }
        ensures { (s : WatchSettings) (past : Past) → Follows self.old network.now s past
            → Follows self.new network.now s ((now, Happened happening.now) ∷ past) }
    {
        let told = self.watch.take(network, now, happening);
        if self.watch.phase().is_halted() {
            None
        } else {
            told.given_up
        }
    }

    /// An error control message of a node came, with this byte.
    pub(crate) fn hear(&mut self, network: &Network, id: NodeId, byte: u8, now: u64)
        requires { now < 2 ^ 63 }
        ensures { (s : WatchSettings) (past : Past) → Follows self.old network.now s past
            → Follows self.new network.now s (heard_at network.now past now id byte ++ past) }
    {
        self.watch.hear(network, now, id, byte);
    }

    /// The entry that comes next in the history, where it has come.
    pub(crate) fn next_entry(&mut self) -> Option<Entry>
        ensures next { (net : NetworkList) (s : WatchSettings) (past : Past) → Follows self.old net s past
            → IfSome result (ComesNext self.new net s past) }
        ensures none { (net : NetworkList) (s : WatchSettings) (past : Past) → Follows self.old net s past
            → IfNone result (Follows self.new net s past) }
    {
        self.waiting.next()
    }

    /// The entry that comes next is told to the watch, and waits to be told in words.
    pub(crate) fn take_entry(
        &mut self,
        network: &Network,
        entry: Entry,
        now: u64,
    ) -> Result<(), AllocError>
        requires { now < 2 ^ 63 }
        ensures { (s : WatchSettings) (past : Past) → ComesNext self.old network.now s past entry
            → OnOk result (Follows self.new network.now s ((now, Happened (Called entry)) ∷ past)) }
    {
        let is_halted = self.watch.phase().is_halted();
        let told = self.watch.take(network, now, &Happening::Called(entry));
        self.tried.count(&entry);
        let count = frames(network, entry.orders).len() as u64;
        self.waiting.wait(entry, told, is_halted, count)
    }

    /// The entries that come next in the history are told to the watch, and wait to be told in words.
    fn take_entries<R: Wait>(
        &mut self,
        rt: &R,
        network: &Network,
        now: u64,
    ) -> Result<(), AllocError>
        requires { now < 2 ^ 63 }
        ensures { (s : WatchSettings) (past : Past) → Follows self.old network.now s past
            → IfOk result (λ _. HasToldEntries self.new network.now s past now) }
    {
        for _ in rt.forever() {
            match self.next_entry() {
                Some(entry) => self.take_entry(network, entry, now)?,
                None => break,
            }
        }
        Ok(())
    }

    /// An entry of the history was recorded, before which so many stand.
    fn enter<R: Wait>(
        &mut self,
        rt: &R,
        network: &Network,
        position: u64,
        entry: Entry,
        now: u64,
    ) -> Result<(), AllocError>
        requires { now < 2 ^ 63 }
        ensures { (s : WatchSettings) (past : Past) → Follows self.old network.now s past
            → IfOk result (λ _. HasToldEntries self.new network.now s past now) }
    {
        self.waiting.take(position, entry)?;
        self.take_entries(rt, network, now)
    }
}

/// How a live run goes on: how far it has come, and by what it is told.
#[derive(Drop)]
pub(crate) struct LiveCourse<'w, 'a, 'n, R> {
    pub(crate) setting: &'w Setting<'a, 'n, R>,
    pub(crate) options: LiveOptions,
    pub(crate) network: &'n Network,
    pub(crate) progress: Progress<Entry>,
    pub(crate) teller: Teller,
}

impl<'w, 'a, 'n, R: Wait + Clock> LiveCourse<'w, 'a, 'n, R> {
    /// Nothing has happened.
    pub(crate) fn new(
        setting: &'w LiveSetting<'a, 'n, R>,
        events: Events,
    ) -> LiveCourse<'w, 'a, 'n, R>
        ensures network { result.network ≡ setting.now.bus.network }
        ensures follows { (net : NetworkList) → Follows result.progress net
            (record { settle_ms = setting.now.options.settle_ms; heartbeat_ms = setting.now.options.heartbeat_ms }) [] }
    {
        let LiveSetting { bus, options } = setting;
        let settings = Settings {
            settle_ms: options.settle_ms,
            heartbeat_ms: options.heartbeat_ms,
        };
        LiveCourse {
            setting: bus,
            options: *options,
            network: bus.network,
            progress: Progress::new(bus.alloc, settings),
            teller: Teller::new(events),
        }
    }

    /// What the watch is told beside entries. A slave that is given up with it is told behind the entries that came by now.
    pub(crate) fn note(&mut self, happening: &Happening, now: u64)
        requires time { now < 2 ^ 63 }
        requires other { may_change_boots (Happened happening.now) ≡ false }
        ensures told { (s : WatchSettings) (past : Past) → Follows self.old.progress self.old.network.now s past
            → Follows self.new.progress self.old.network.now s ((now, Happened happening.now) ∷ past) }
        ensures network { self.new.network ≡ self.old.network }
    {
        if let Some(id) = self.progress.note(self.network, happening, now) {
            let told = given_up(&self.progress.tried, self.network, id);
            let boots = Boots {
                attempts: told.attempts,
                status: told.status,
                place: self.progress.waiting.count(),
            };
            self.teller.given_up.put_off(id, boots);
        }
    }

    /// A worker's attempts at a slave have ended; where a call couldn't be made, the run does.
    fn end(&mut self, id: NodeId, fault: Option<CallFault>, now: u64) -> Result<(), Ending>
        requires { now < 2 ^ 63 }
        ensures told { (s : WatchSettings) (past : Past) → Follows self.old.progress self.old.network.now s past
            → IfOk result (λ _. Follows self.new.progress self.old.network.now s ((now, Happened (Ended id)) ∷ past)) }
        ensures network { self.new.network ≡ self.old.network }
        ensures other { result ≡ Err Ending.Asked → ⊥ }
    {
        if let Some(fault) = fault {
            return Err(Ending::NotCalled(fault));
        }
        self.note(&Happening::Ended(id), now);
        Ok(())
    }

    /// The operator types no more: the run is to end so many seconds later, if it was said how many.
    fn end_behind(&mut self, now: u64)
        requires { now < 2 ^ 63 }
        ensures told { (s : WatchSettings) (past : Past) → Follows self.old.progress self.old.network.now s past
            → Follows self.new.progress self.old.network.now s
            (ends_behind self.old.options.seconds now ++ past) }
        ensures network { self.new.network ≡ self.old.network }
    {
        match self.options.seconds {
            Some(seconds) => {
                let rest_ms = u64::from(seconds) * 1000;
                self.note(&Happening::Ends(now + rest_ms), now);
            }
            None => {}
        }
    }

    /// Takes one thing that has happened, but for a line that was typed, which never comes here: who obeys it takes it.
    pub(crate) fn take<E: Write>(
        &mut self,
        err: &mut E,
        notification: Notification,
        now: u64,
    ) -> Result<(), Ending>
        requires { now < 2 ^ 63 }
        ensures told { (s : WatchSettings) (past : Past) → Follows self.old.progress self.old.network.now s past → IfOk result
            (λ _. (typed : Option (List ℕ)) (seat : SeatView) → HasTaken notification self.old.options.seconds typed
            self.new.progress self.old.network.now s past now seat seat) }
        ensures network { self.new.network ≡ self.old.network }
        ensures other { result ≡ Err Ending.Asked → ⊥ }
    {
        let rt = self.setting.rt;
        match notification {
            Notification::Entered(position, entry) => {
                count_sent(&mut self.teller.notices, self.network, &entry);
                self.progress.enter(rt, self.network, position, entry, now)?;
            }
            Notification::Ended(id, fault) => self.end(id, fault, now)?,
            Notification::Typed => return Err(Ending::OutOfOrder),
            Notification::NoMoreTyped => self.end_behind(now),
            Notification::NoFrames => self
                .teller
                .tell_no_frames(err, rt, self.setting.options.format),
            Notification::NoMoreHeard => return Err(Ending::NotHeard),
        }
        Ok(())
    }

    /// At the end of the run, takes the entries that were recorded by now and weren't taken yet.
    pub(crate) fn take_rest(&mut self, notifications: &Receiver<Notification>) {
        let rt = self.setting.rt;
        for _ in 0..MOST_TAKEN {
            let Ok(notification) = notifications.try_recv(rt) else {
                return;
            };
            if let Notification::Entered(position, entry) = notification {
                let now = self.setting.now();
                let entered = self.progress.enter(rt, self.network, position, entry, now);
                if entered.is_err() {
                    return;
                }
            }
        }
    }

    /// Tells what is to be told by now, and sends what is to be sent for error control. Where a frame or an entry was lost, the run ends.
    pub(crate) fn keep_up<K: RunName, B: BusName, E: Write, W: Write + Drop>(
        &mut self,
        err: &mut E,
        outlet: &mut CausedOutlet<W, B, ControlFrame>,
        versions: &mut VersionReader<K>,
        seat: &Seat<K>,
        now: u64,
    ) -> Result<(), Ending>
        requires { now < 2 ^ 63 }
        ensures goes_on { IfOk result (λ _. (seat : SeatView) (heard : ℕ) → GoesOnAs (HasSent now) B.format B.text B.typed
            (course_stand self.old seat heard) (course_stand self.new seat heard)) }
        ensures other { result ≡ Err Ending.Asked → ⊥ }
    {
        self.tell(err, versions, seat, false);
        let rt = self.setting.rt;
        let _ = self.teller.tell_left_out(err, rt, self.network, now);
        self.send_error_control(outlet, now)?;
        can_go_on(is_set(&self.setting.broken), is_set(&self.setting.untold))
    }
}
