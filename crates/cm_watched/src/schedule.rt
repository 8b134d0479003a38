ghost use Rattle.std.specs.Prelude.{◌≡◌, ◌<◌, ◌^◌, None, Some, if◌then◌else◌};
ghost use Rattle.cm_history.specs.History.{is_reset_value};
ghost use Rattle.cm_watched.specs.Schedules.{again_after, boot_up_due, cause_by, cause_by_call, count_now, counted, due_after};
ghost use Rattle.cm_watched.specs.Schedules.{is_due, is_own, is_quiet_for, lost_due, pause_of, paused, schedule_after, settle_of};
ghost use Rattle.cm_watched.specs.Schedules.{settling};

use crate::happening::{Happening, Moment, Step};
use crate::settings::Settings;
use cm_history::{ALL_NODES, Call, Orders, Reply};
use cm_netlist::Network;
use cm_nmt::NodeId;

/// How long nothing has to happen again until all is forgotten, in ms.
const CALM_MS: u64 = 600_000;

/// How often it is counted that something happens again.
const MOST_AGAIN: u8 = 7;

/// When a slave is to be booted.
#[derive(Clone, Copy)]
pub struct Due {
    /// Not before this time, in ms since the run began.
    pub earliest: u64,
    /// From this time on, whether its boot-up message comes before or not.
    pub latest: u64,
    /// Its boot-up message alone is the cause.
    pub is_own: bool,
}

/// How often a slave rebooted by itself or was lost.
#[derive(Clone, Copy)]
pub struct Again {
    /// How often, with less than ten minutes between; 7 for more too.
    pub count: u8,
    /// When it was the last time, in ms.
    pub last: Option<u64>,
}

/// What is kept of when a slave is to be booted.
#[derive(Clone, Copy)]
pub struct Schedule {
    /// When, if at all.
    pub due: Option<Due>,
    pub again: Again,
}

/// What changes the schedule of a slave.
#[derive(Clone, Copy)]
pub enum Cause {
    /// The network was started.
    Started,
    /// The slave was reset.
    Reset,
    /// Its boot-up message came.
    BootUp,
    /// Its loss was handled.
    Lost,
    /// It is wanted now: it was released, or the operator asks for it.
    Wanted,
    /// It is not to be booted: it is held, or its boot was given.
    Dropped,
    /// It is made to answer again.
    Woken,
}

/// The cause, where the condition holds.
fn only(cause: Cause, condition: bool) -> Option<Cause>
    ensures { result ≡ (if condition then Some cause else None) }
{
    if condition { Some(cause) } else { None }
}

/// Whether a value of a request resets.
pub(crate) fn is_reset(value: u8) -> bool
    ensures { result ≡ is_reset_value value }
{
    value == 6 || value == 7
}

/// What a call is for the schedule of the slave.
fn cause_by_call(call: &Call, reply: Reply, orders: &Orders, id: NodeId) -> Option<Cause>
    ensures { result ≡ cause_by_call call.now reply orders.now id }
{
    let is_granted = reply.is_granted();
    let is_handled = reply == Reply::Handled;
    match call {
        Call::StartNetwork => only(Cause::Started, is_granted),
        Call::Signal(node, _) => only(Cause::BootUp, reply == Reply::BootAgain && *node == id),
        Call::Lost(node) => {
            if is_handled && *node == id {
                Some(Cause::Lost)
            } else {
                only(Cause::Reset, is_handled && orders.is_reset_all())
            }
        }
        Call::Request(target, value) => {
            let is_target = *target == id.get() || *target == ALL_NODES;
            only(Cause::Reset, is_granted && is_reset(*value) && is_target)
        }
        Call::Hold(node) => only(Cause::Dropped, is_granted && *node == id),
        Call::Release(node) => only(Cause::Wanted, is_granted && *node == id),
        _ => None,
    }
}

/// What a moment is for the schedule of the slave.
pub(crate) fn cause_by(moment: &Moment, id: NodeId) -> Option<Cause>
    ensures { result ≡ cause_by moment.now id }
{
    match moment {
        Moment::Happened(Happening::Called(entry)) => {
            cause_by_call(&entry.call, entry.reply, &entry.orders, id)
        }
        Moment::Happened(Happening::Asked(node)) => only(Cause::Wanted, *node == id),
        Moment::Gave(Step::Boot(node)) => only(Cause::Dropped, *node == id),
        Moment::Gave(Step::Wake(node)) => only(Cause::Woken, *node == id),
        _ => None,
    }
}

/// Whether there was none, or it was so many ms ago or longer.
pub(crate) fn is_quiet_for(ms: u64, now: u64, last: Option<u64>) -> bool
    ensures { result ≡ is_quiet_for ms now last }
{
    match last {
        Some(then) => ms <= now.saturating_sub(then),
        None => true,
    }
}

/// How long a boot waits, in ms, where it happened so often before.
fn pause_of(count: u8) -> u64
    ensures { result ≡ pause_of count }
{
    match count {
        0 => 0,
        1 => 1000,
        2 => 2000,
        3 => 4000,
        4 => 8000,
        5 => 16_000,
        6 => 32_000,
        _ => 60_000,
    }
}

/// How long the slave settles behind a start of the network.
fn settle_of(network: &Network, settings: Settings, id: NodeId) -> u32
    ensures { result ≡ settle_of network.now settings id }
{
    if network.kept(id) {
        0
    } else {
        settings.settle_ms
    }
}

/// It settles for so many ms.
fn settling(now: u64, ms: u32) -> Due
    requires { now < 2 ^ 63 }
    ensures { result ≡ settling now ms }
{
    Due {
        earliest: now,
        latest: now + u64::from(ms),
        is_own: false,
    }
}

impl Again {
    /// How often it happened before, with no ten minutes of quiet between.
    fn count_now(self, now: u64) -> u8
        ensures { result ≡ count_now now self }
    {
        if is_quiet_for(CALM_MS, now, self.last) {
            0
        } else {
            self.count
        }
    }

    /// Once more.
    fn counted(self, now: u64) -> Again
        ensures { result ≡ counted now self }
    {
        Again {
            count: self.count_now(now).saturating_add(1).min(MOST_AGAIN),
            last: Some(now),
        }
    }

    /// How often it happened, behind a cause.
    fn after(self, now: u64, cause: Cause, due: Option<Due>) -> Again
        ensures { result ≡ again_after now cause due self }
    {
        match (cause, due) {
            (Cause::Started, _) => Again {
                count: 0,
                last: None,
            },
            (Cause::BootUp, None) | (Cause::Lost, _) => self.counted(now),
            _ => self,
        }
    }
}

/// Its boot-up message came.
fn boot_up_due(now: u64, due: Option<Due>, again: Again) -> Due
    requires { now < 2 ^ 63 }
    ensures { result ≡ boot_up_due now due again }
{
    match due {
        Some(due) => Due {
            earliest: due.earliest,
            latest: due.earliest.max(now),
            is_own: due.is_own,
        },
        None => {
            let time = now + pause_of(again.count_now(now));
            Due {
                earliest: time,
                latest: time,
                is_own: true,
            }
        }
    }
}

/// It is lost, and was reset.
fn lost_due(settings: Settings, now: u64, again: Again) -> Due
    requires { now < 2 ^ 63 }
    ensures { result ≡ lost_due settings now again }
{
    let pause = pause_of(again.count_now(now));
    Due {
        earliest: now + pause,
        latest: now + pause.max(u64::from(settings.settle_ms)),
        is_own: false,
    }
}

impl Schedule {
    /// When the slave is to be booted, behind a cause.
    fn due_after(
        self,
        network: &Network,
        settings: Settings,
        now: u64,
        id: NodeId,
        cause: Cause,
    ) -> Option<Due>
        requires { now < 2 ^ 63 }
        ensures { result ≡ due_after network.now settings now id cause self.due self.again }
    {
        match cause {
            Cause::Started => Some(settling(now, settle_of(network, settings, id))),
            Cause::Reset | Cause::Woken => Some(settling(now, settings.settle_ms)),
            Cause::BootUp => Some(boot_up_due(now, self.due, self.again)),
            Cause::Lost => Some(lost_due(settings, now, self.again)),
            Cause::Wanted => Some(settling(now, 0)),
            Cause::Dropped => None,
        }
    }

    /// The schedule of the slave after the moment.
    pub fn after(
        self,
        network: &Network,
        settings: Settings,
        now: u64,
        moment: &Moment,
        id: NodeId,
    ) -> Schedule
        requires { now < 2 ^ 63 }
        ensures { result
            ≡ schedule_after network.now settings now id (cause_by moment.now id) self }
    {
        match cause_by(moment, id) {
            Some(cause) => Schedule {
                due: self.due_after(network, settings, now, id, cause),
                again: self.again.after(now, cause, self.due),
            },
            None => self,
        }
    }

    /// Whether the time has come.
    pub fn is_due(self, now: u64) -> bool
        ensures { result ≡ is_due now self.due }
    {
        match self.due {
            Some(due) => due.latest <= now,
            None => false,
        }
    }

    /// Whether its boot-up message alone is the cause.
    pub fn is_own(self) -> bool
        ensures { result ≡ is_own self.due }
    {
        match self.due {
            Some(due) => due.is_own,
            None => false,
        }
    }
}
