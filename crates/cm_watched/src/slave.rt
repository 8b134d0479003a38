ghost use Rattle.std.specs.Prelude.{◌≡◌, ◌<◌, ◌^◌, is_some};
ghost use Rattle.cm_history.specs.History.{begins_by, boots_by, clears_by, holds_by, is_start_by};
ghost use Rattle.cm_watched.specs.KeptOfSlaves.{slave_after};
ghost use Rattle.cm_watched.specs.Slaves.{asked_by, booted_by, busy_by, heard_by, held_by, lost_by, tried_by};
ghost use Rattle.cm_watched.specs.Slaves.{is_free, is_overdue};
ghost use Rattle.cm_watched.specs.declared.happening.Happening.TheVariants.{Called};
ghost use Rattle.cm_watched.specs.declared.happening.Moment.TheVariants.{Happened};

use crate::guarding::{guard_by, toggle_by};
use crate::happening::{Happening, Moment, Step};
use crate::schedule::{Schedule, is_reset};
use crate::settings::Settings;
use crate::signals::{Budget, News};
use crate::waking::stands_by;
use cm_history::{ALL_NODES, Call, Entry, Orders, Reply};
use cm_netlist::Network;
use cm_nmt::NodeId;

/// What is kept of a slave.
#[derive(Clone, Copy)]
pub struct Slave {
    /// When an error control message of it came last, in ms since the run began.
    pub heard: Option<u64>,
    /// Since when it is booted, in ms.
    pub booted: Option<u64>,
    /// A worker has it.
    pub is_busy: bool,
    /// An operator holds it.
    pub is_held: bool,
    /// It was given as lost since it was booted last.
    pub is_lost: bool,
    /// A worker's attempts at it have ended since the network was started.
    pub is_tried: bool,
    /// The operator has asked for its boot, and none was given since.
    pub is_asked: bool,
    /// It stands stopped: the last NMT command that reached it was stop.
    pub is_stopped: bool,
    pub schedule: Schedule,
    pub news: News,
    pub budget: Budget,
    /// When it was asked for its state last, in ms.
    pub guarded: Option<u64>,
    /// The toggle bit of its next answer (CiA 301, node guarding).
    pub toggle: bool,
}

/// Whether the call begins a boot of the slave.
pub(crate) fn is_begin(call: &Call, reply: Reply, id: NodeId) -> bool
    ensures { result ≡ is_some (begins_by call.now reply id) }
{
    match (call, reply) {
        (Call::Begin(node), Reply::Begun(_)) => *node == id,
        _ => false,
    }
}

/// Whether the call is a report that boots the slave.
pub(crate) fn boots_by(call: &Call, reply: Reply, id: NodeId) -> bool
    ensures { result ≡ boots_by call.now reply id }
{
    match (call, reply) {
        (Call::Report(node, _, _), Reply::Reported(status)) => status.is_good() && *node == id,
        _ => false,
    }
}

/// Whether the slave isn't booted after the call.
fn clears_by(call: &Call, reply: Reply, orders: &Orders, id: NodeId) -> bool
    ensures { result ≡ clears_by call.now reply orders.now id }
{
    let is_granted = reply.is_granted();
    match call {
        Call::StartNetwork => is_granted,
        Call::Signal(node, _) => reply == Reply::BootAgain && *node == id,
        Call::Lost(node) => reply == Reply::Handled && (*node == id || orders.is_reset_all()),
        Call::Request(target, value) => {
            let is_target = *target == id.get() || *target == ALL_NODES;
            is_granted && is_reset(*value) && is_target
        }
        Call::Hold(node) => is_granted && *node == id,
        _ => false,
    }
}

/// Whether the slave is held after the call, where that decides it.
fn holds_by(call: &Call, reply: Reply, id: NodeId) -> Option<bool>
    ensures { result ≡ holds_by call.now reply id }
{
    let is_granted = reply.is_granted();
    match call {
        Call::Hold(node) if is_granted && *node == id => Some(true),
        Call::Release(node) if is_granted && *node == id => Some(false),
        _ => None,
    }
}

/// Whether the call is a granted start of the network.
pub fn is_start(call: &Call, reply: Reply) -> bool
    ensures { result ≡ is_start_by call.now reply }
{
    match call {
        Call::StartNetwork => reply.is_granted(),
        _ => false,
    }
}

fn heard_by(now: u64, moment: &Moment, id: NodeId) -> Option<u64>
    ensures { result ≡ heard_by now moment.now id }
{
    match moment {
        Moment::Happened(Happening::Heard(node, _)) if *node == id => Some(now),
        _ => None,
    }
}

/// Since when the slave is booted, where the entry decides it.
fn booted_by_entry(now: u64, entry: &Entry, id: NodeId) -> Option<Option<u64>>
    ensures { result ≡ booted_by now (Happened (Called entry.now)) id }
{
    if boots_by(&entry.call, entry.reply, id) {
        Some(Some(now))
    } else if clears_by(&entry.call, entry.reply, &entry.orders, id) {
        Some(None)
    } else {
        None
    }
}

fn booted_by(now: u64, moment: &Moment, id: NodeId) -> Option<Option<u64>>
    ensures { result ≡ booted_by now moment.now id }
{
    match moment {
        Moment::Happened(Happening::Called(entry)) => booted_by_entry(now, entry, id),
        _ => None,
    }
}

fn busy_by(moment: &Moment, id: NodeId) -> Option<bool>
    ensures { result ≡ busy_by moment.now id }
{
    match moment {
        Moment::Gave(Step::Boot(node)) if *node == id => Some(true),
        Moment::Happened(Happening::Ended(node)) if *node == id => Some(false),
        _ => None,
    }
}

fn held_by(moment: &Moment, id: NodeId) -> Option<bool>
    ensures { result ≡ held_by moment.now id }
{
    match moment {
        Moment::Happened(Happening::Called(entry)) => holds_by(&entry.call, entry.reply, id),
        _ => None,
    }
}

fn lost_by(moment: &Moment, id: NodeId) -> Option<bool>
    ensures { result ≡ lost_by moment.now id }
{
    match moment {
        Moment::Gave(Step::Lost(node)) if *node == id => Some(true),
        Moment::Happened(Happening::Called(entry)) if boots_by(&entry.call, entry.reply, id) => {
            Some(false)
        }
        _ => None,
    }
}

fn tried_by(moment: &Moment, id: NodeId) -> Option<bool>
    ensures { result ≡ tried_by moment.now id }
{
    match moment {
        Moment::Happened(Happening::Ended(node)) if *node == id => Some(true),
        Moment::Happened(Happening::Called(entry)) if is_start(&entry.call, entry.reply) => {
            Some(false)
        }
        _ => None,
    }
}

fn asked_by(moment: &Moment, id: NodeId) -> Option<bool>
    ensures { result ≡ asked_by moment.now id }
{
    match moment {
        Moment::Happened(Happening::Asked(node)) if *node == id => Some(true),
        Moment::Gave(Step::Boot(node)) if *node == id => Some(false),
        _ => None,
    }
}

/// Whether what was booted and heard then is late now.
pub fn is_overdue(most_ms: u32, now: u64, heard: Option<u64>, booted: Option<u64>) -> bool
    ensures { result ≡ is_overdue most_ms now heard booted }
{
    match booted {
        Some(since) => {
            let last = heard.unwrap_or(0).max(since);
            0 < most_ms && u64::from(most_ms) < now.saturating_sub(last)
        }
        None => false,
    }
}

impl Slave {
    /// What is kept of the slave after the moment.
    pub fn after(
        &self,
        network: &Network,
        settings: Settings,
        now: u64,
        moment: &Moment,
        id: NodeId,
    ) -> Slave
        requires { now < 2 ^ 63 }
        ensures { result ≡ slave_after network.now settings now moment.now id self.now }
    {
        Slave {
            heard: heard_by(now, moment, id).or(self.heard),
            booted: booted_by(now, moment, id).unwrap_or(self.booted),
            is_busy: busy_by(moment, id).unwrap_or(self.is_busy),
            is_held: held_by(moment, id).unwrap_or(self.is_held),
            is_lost: lost_by(moment, id).unwrap_or(self.is_lost),
            is_tried: tried_by(moment, id).unwrap_or(self.is_tried),
            is_asked: asked_by(moment, id).unwrap_or(self.is_asked),
            is_stopped: stands_by(network, moment, id).unwrap_or(self.is_stopped),
            schedule: self.schedule.after(network, settings, now, moment, id),
            news: self.news.after(moment, id),
            budget: self
                .budget
                .after(now, moment, self.news.rests, self.schedule, id),
            guarded: guard_by(now, moment, id).or(self.guarded),
            toggle: toggle_by(network, moment, id).unwrap_or(self.toggle),
        }
    }

    /// Whether nothing of the slave stands in the way of a boot.
    pub fn is_free(&self, now: u64) -> bool
        ensures { result
            ≡ is_free now self.now.schedule self.now.is_busy self.now.is_held self.now.budget }
    {
        self.schedule.is_due(now)
            && !self.is_busy
            && !self.is_held
            && (!self.schedule.is_own() || self.budget.is_allowed(now))
    }
}
