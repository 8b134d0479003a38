//! How a live run goes on: what happens is told to the watch, and the steps that it gives are made.

ghost use Rattle.std.specs.Prelude.{◌≡◌, ◌<◌, ◌^◌, ◌++◌, ◌∷◌, ℕ, [], Err, IfOk, is_some};
ghost use Rattle.cm_netlist.specs.Network.{Network as NetworkList};
ghost use Rattle.cm_watch.specs.Paces.{behind_at, pace_after};
ghost use Rattle.cm_watch.specs.declared.pace.Pace.{Pace as PaceKept};
ghost use Rattle.cm_watched.specs.Pasts.{Past};
ghost use Rattle.cm_watched.specs.declared.settings.Settings.{Settings as WatchSettings};
ghost use Rattle.canboot_turns.specs.Causes.{GoesOn, GoesOnAs, HasTurned, IsAskedToEnd, stand_of};
ghost use Rattle.canboot_turns.specs.Going.{Follows, HasTaken};
ghost use Rattle.cm_crew.specs.CallsMade.{calls_made};
ghost use Rattle.cm_crew.specs.Typing.{IsUntyped};

use crate::console::show_report;
use crate::ending::Ending;
use crate::progress::LiveCourse;
use crate::publishing::Batches;
use crate::register::LiveRegister;
use crate::repeats::Repeats;
use crate::saying::running;
use crate::setting::LiveSetting;
use crate::typing::Typing;
use canboot_saying::Events;
use cm_bus::CausedOutlet;
use cm_can::ControlFrame;
use cm_crew::OperatorSeat;
use cm_history::Call;
use cm_nmt::NodeId;
use cm_operator::TypedLine;
use cm_receiving::{BusName, ControlMessage, HeardRemark, Notification};
use cm_register::RunName;
use cm_versions::{Publisher, VersionReader};
use cm_watch::Pace;
use crossbeam_channel::{Receiver, Sender};
use std::io::Write;
use std::sync::Wait;
use std::sync::atomic::{AtomicBool, Ordering};
use std::time::{Clock, Duration};

/// How long nothing may happen before the time is looked at, in ms.
const TURN_MS: u64 = 5;

/// How many notifications are taken at most before the time is looked at.
pub(crate) const MOST_TAKEN: u32 = 65_536;

/// How many typed lines are obeyed at most before the time is looked at.
const MOST_OBEYED: u32 = 256;

/// For how long typed lines are obeyed before the time is looked at, in ms: less than a look at the input may be late.
const MOST_OBEYED_MS: u64 = 10;

/// What comes from outside in a live run, and is taken one by one.
#[derive(Drop)]
pub struct Inputs<B: BusName> {
    /// The error control messages of listed nodes.
    pub heard: Receiver<ControlMessage<B>>,
    /// What else is said on the bus.
    pub said: Receiver<HeardRemark<B>>,
    /// The lines that the operator types.
    pub typed: Receiver<TypedLine<B>>,
}

/// What a live run is watched with.
#[derive(Drop)]
pub struct Watcher<
    'w,
    'a,
    'n,
    R: Wait + Clock + Drop,
    K: RunName,
    B: BusName,
    M: LiveRegister<K, R>,
> {
    pub(crate) course: LiveCourse<'w, 'a, 'n, R>,
    pub(crate) register: &'w M,
    pub(crate) operator: OperatorSeat<K, B>,
    pub(crate) inputs: Inputs<B>,
    /// The place of the error control message that was heard last, and which of these repeat what was told.
    pub(crate) heard_upto: u64,
    repeats: Repeats,
    /// What of these is put off until all else was taken.
    typing: Typing,
    /// The slaves that each worker is to boot.
    pub(crate) jobs: Vec<Sender<NodeId>>,
    /// Who reads versions of the history.
    versions: VersionReader<K>,
    batches: Batches,
    /// The operator has asked for the report.
    pub(crate) is_report_due: bool,
    pub(crate) pace: Pace,
}

/// Whether this was set by another thread.
pub(crate) fn is_set(flag: &AtomicBool) -> bool {
    flag.load(Ordering::SeqCst)
}

impl<'w, 'a, 'n, R: Wait + Clock + Drop, K: RunName, B: BusName, M: LiveRegister<K, R>> Watcher<
    'w,
    'a,
    'n,
    R,
    K,
    B,
    M,
> {
    /// A watcher of the register's network, which the operator has started.
    pub fn new(
        setting: &'w LiveSetting<'a, 'n, R>,
        register: &'w M,
        operator: OperatorSeat<K, B>,
        inputs: Inputs<B>,
        jobs: Vec<Sender<NodeId>>,
        events: Events,
        versions: VersionReader<K>,
    ) -> Watcher<'w, 'a, 'n, R, K, B, M>
        ensures operator { result.operator ≡ operator }
        ensures heard { result.heard_upto ≡ 0 }
        ensures network { result.course.network ≡ setting.now.bus.network }
        ensures follows { (net : NetworkList) → Follows result.course.progress net
            (record { settle_ms = setting.now.options.settle_ms; heartbeat_ms = setting.now.options.heartbeat_ms }) [] }
    {
        Watcher {
            course: LiveCourse::new(setting, events),
            register,
            operator,
            inputs,
            heard_upto: 0,
            repeats: Repeats::new(),
            typing: Typing::new(),
            jobs,
            versions,
            batches: Batches::new(setting.bus.alloc),
            is_report_due: false,
            pace: Pace::new(),
        }
    }

    /// No slave is handed to a worker any more, by which each ends once it has done what it has.
    pub fn release_workers(&mut self)
        ensures calls { self.new.operator ≡ self.old.operator }
    {
        self.jobs.clear();
    }

    /// The operator's seat, once nothing is watched any more.
    pub fn into_operator(self) -> OperatorSeat<K, B>
        ensures { result ≡ self.entry.operator }
    {
        let Watcher { operator, .. } = self;
        operator
    }

    /// Makes a call that no line asks for.
    pub(crate) fn call(&mut self, call: Call) -> Result<(), Ending>
        requires { IsUntyped call }
        ensures made { IfOk result (λ _. calls_made self.new.operator ≡ calls_made self.old.operator ++ call ∷ []) }
        ensures course { self.new.course ≡ self.old.course }
        ensures pace { self.new.pace ≡ self.old.pace }
        ensures heard { self.new.heard_upto ≡ self.old.heard_upto }
        ensures other { result ≡ Err Ending.Asked → ⊥ }
    {
        let rt = self.course.setting.rt;
        self.operator.call(rt, self.register, call)?;
        Ok(())
    }

    /// Takes one thing that has happened.
    fn take<E: Write>(
        &mut self,
        err: &mut E,
        notification: Notification,
        now: u64,
    ) -> Result<(), Ending>
        requires { now < 2 ^ 63 }
        ensures told { (s : WatchSettings) (past : Past) → Follows self.old.course.progress self.old.course.network.now s past
            → IfOk result (λ _. HasTaken notification self.old.course.options.seconds B.typed
            self.new.course.progress self.old.course.network.now s past now self.old.operator self.new.operator) }
        ensures network { IfOk result (λ _. self.new.course.network ≡ self.old.course.network) }
        ensures heard { self.new.heard_upto ≡ self.old.heard_upto }
        ensures quits { result ≡ Err Ending.Asked → IsAskedToEnd B.format B.text B.typed (stand_of self.old) (stand_of self.new) }
    {
        match notification {
            Notification::Typed => self.obey_next(err, now),
            _ => self.course.take(err, notification, now),
        }
    }

    /// Takes one thing that has happened; one of typing is put off.
    fn hear<E: Write>(&mut self, err: &mut E, notification: Notification) -> Result<(), Ending>
        ensures goes_on { IfOk result (λ _. GoesOn B.format B.text B.typed (stand_of self.old) (stand_of self.new)) }
        ensures quits { result ≡ Err Ending.Asked → IsAskedToEnd B.format B.text B.typed (stand_of self.old) (stand_of self.new) }
    {
        let now = self.course.setting.now();
        let Some(notification) = self.typing.put_off(notification) else {
            return Ok(());
        };
        self.take(err, notification, now)?;
        Ok(())
    }

    /// Takes what has happened, if something has within so many ms, and then all else that has. What is typed is put off.
    fn hear_all<E: Write>(
        &mut self,
        err: &mut E,
        notifications: &Receiver<Notification>,
        wait_ms: u64,
    ) -> Result<(), Ending>
        ensures goes_on { IfOk result (λ _. GoesOn B.format B.text B.typed (stand_of self.old) (stand_of self.new)) }
        ensures quits { result ≡ Err Ending.Asked → IsAskedToEnd B.format B.text B.typed (stand_of self.old) (stand_of self.new) }
    {
        let setting = self.course.setting;
        let mut wait = Duration::from_millis(wait_ms);
        for _ in 0..MOST_TAKEN {
            let Ok(notification) = notifications.recv_timeout(setting.rt, wait) else {
                return Ok(());
            };
            self.hear(err, notification)?;
            wait = Duration::ZERO;
        }
        Ok(())
    }

    /// Tells the watch of an error control message, unless it repeats what was told just before. One that doesn't stand behind the last
    /// never comes.
    fn hear_message(&mut self, message: ControlMessage<B>, now: u64) -> Result<(), Ending>
        requires { now < 2 ^ 63 }
        ensures goes_on { IfOk result (λ _. GoesOn B.format B.text B.typed (stand_of self.old) (stand_of self.new)) }
        ensures other { result ≡ Err Ending.Asked → ⊥ }
    {
        let place = message.place();
        if place <= self.heard_upto {
            return Err(Ending::OutOfOrder);
        }
        self.heard_upto = place;
        if self
            .repeats
            .is_repeated(message.node(), message.byte(), now)
        {
            return Ok(());
        }
        let network = self.course.network;
        self.course
            .progress
            .hear(network, message.node(), message.byte(), now);
        Ok(())
    }

    /// Tells the watch of so many error control messages, which wait.
    fn hear_messages(&mut self, count: usize) -> Result<(), Ending>
        ensures goes_on { IfOk result (λ _. GoesOn B.format B.text B.typed (stand_of self.old) (stand_of self.new)) }
        ensures other { result ≡ Err Ending.Asked → ⊥ }
    {
        let rt = self.course.setting.rt;
        let now = self.course.setting.now();
        for _ in 0..count {
            let Ok(message) = self.inputs.heard.try_recv(rt) else {
                return Ok(());
            };
            self.hear_message(message, now)?;
        }
        Ok(())
    }

    /// Takes what was typed, so long and so much that a turn doesn't last.
    fn obey_some<E: Write>(&mut self, err: &mut E) -> Result<(), Ending>
        ensures goes_on { IfOk result (λ _. GoesOn B.format B.text B.typed (stand_of self.old) (stand_of self.new)) }
        ensures quits { result ≡ Err Ending.Asked → IsAskedToEnd B.format B.text B.typed (stand_of self.old) (stand_of self.new) }
    {
        let began = self.course.setting.now();
        for _ in 0..MOST_OBEYED {
            let now = self.course.setting.now();
            if MOST_OBEYED_MS <= now.saturating_sub(began) {
                return Ok(());
            }
            let Some(notification) = self.typing.next() else {
                return Ok(());
            };
            self.take(err, notification, now)?;
        }
        Ok(())
    }

    /// Tells so many remarks, which wait, in words.
    fn tell_remarks<E: Write>(&mut self, err: &mut E, count: usize)
        ensures { stand_of self.new ≡ stand_of self.old }
    {
        let rt = self.course.setting.rt;
        let now = self.course.setting.now();
        for _ in 0..count {
            let Ok(heard) = self.inputs.said.try_recv(rt) else {
                return;
            };
            let remark = heard.remark();
            let network = self.course.network;
            let _ = self
                .course
                .teller
                .tell_remark(err, rt, network, &remark, now);
        }
    }

    /// Takes what has happened, then each error control message that waits by then, behind all entries that were recorded before it, and
    /// then what is typed, not so much that the network isn't watched meanwhile. What was said besides is told last: of a message of ours
    /// that was heard the entry was taken before.
    fn take_all<E: Write>(
        &mut self,
        err: &mut E,
        notifications: &Receiver<Notification>,
    ) -> Result<(), Ending>
        ensures goes_on { IfOk result (λ _. GoesOn B.format B.text B.typed (stand_of self.old) (stand_of self.new)) }
        ensures quits { result ≡ Err Ending.Asked → IsAskedToEnd B.format B.text B.typed (stand_of self.old) (stand_of self.new) }
    {
        let wait_ms = if self.typing.is_empty() { TURN_MS } else { 0 };
        self.hear_all(err, notifications, wait_ms)?;
        let waiting = self.inputs.heard.len();
        let said = self.inputs.said.len();
        self.hear_all(err, notifications, 0)?;
        self.hear_messages(waiting)?;
        self.obey_some(err)?;
        self.tell_remarks(err, said);
        Ok(())
    }

    /// Shows readers a version with all that the register has; where memory is refused the next turn does. Then shows the report, if
    /// the operator has asked for it.
    fn show<E: Write>(&mut self, err: &mut E, publisher: &mut Publisher<K, R>)
        ensures course { self.new.course ≡ self.old.course }
        ensures calls { self.new.operator ≡ self.old.operator }
        ensures heard { self.new.heard_upto ≡ self.old.heard_upto }
    {
        let setting = self.course.setting;
        let _ = self.batches.show(setting.rt, self.register, publisher);
        if self.is_report_due {
            self.is_report_due = false;
            let network = self.register.network();
            let seat = self.operator.as_seat();
            show_report(err, setting.alloc, &mut self.versions, network, seat);
        }
    }

    /// One turn: takes what has happened, shows readers a version of it, sends what is to be sent for error control, and looks at the
    /// time once that was all that was received.
    fn turn<E: Write, W: Write + Drop>(
        &mut self,
        err: &mut E,
        notifications: &Receiver<Notification>,
        outlet: &mut CausedOutlet<W, B, ControlFrame>,
        publisher: &mut Publisher<K, R>,
    ) -> Result<(), Ending>
        ensures goes_on { IfOk result (λ _. (pace : PaceKept) × (now received : ℕ) × (self.new.pace ≡ pace_after pace now received)
            × GoesOnAs (HasTurned (is_some (behind_at pace now received)) now) B.format B.text B.typed
            (stand_of self.old) (stand_of self.new)) }
        ensures asked { result ≡ Err Ending.Asked → IsAskedToEnd B.format B.text B.typed (stand_of self.old) (stand_of self.new) }
    {
        self.take_all(err, notifications)?;
        self.show(err, publisher);
        let setting = self.course.setting;
        let now = setting.now();
        let seat = self.operator.as_seat();
        self.course
            .keep_up(err, outlet, &mut self.versions, seat, now)?;
        if !self.pace.look(now, setting.listening.received().bytes()) {
            return Ok(());
        }
        if self.make_steps(err, now)? {
            return Err(Ending::Asked);
        }
        Ok(())
    }

    /// Tells what was recorded by now and wasn't told yet, at the end of the run, and which nodes run on. The workers have ended.
    pub fn tell_rest<E: Write>(
        &mut self,
        err: &mut E,
        notifications: &Receiver<Notification>,
        publisher: &mut Publisher<K, R>,
    )
        ensures calls { self.new.operator ≡ self.old.operator }
    {
        self.course.take_rest(notifications);
        self.show(err, publisher);
        let seat = self.operator.as_seat();
        self.course.tell(err, &mut self.versions, seat, true);
        let running = running(&mut self.versions, self.course.network, seat);
        let rt = self.course.setting.rt;
        self.course.teller.tell_end(err, rt, &running);
    }

    /// Watches the network until the run is to end. What is sent for error control is written to this outlet, and versions are shown
    /// by this publisher.
    pub fn watch<E: Write, W: Write + Drop>(
        &mut self,
        err: &mut E,
        notifications: &Receiver<Notification>,
        outlet: &mut CausedOutlet<W, B, ControlFrame>,
        publisher: &mut Publisher<K, R>,
    ) -> Ending
        ensures { result ≡ Ending.Asked → IsAskedToEnd B.format B.text B.typed (stand_of self.old) (stand_of self.new) }
    {
        for _ in self.course.setting.rt.forever() {
            match self.turn(err, notifications, outlet, publisher) {
                Ok(()) => {}
                Err(ending) => return ending,
            }
        }
        unreachable!()
    }
}
