ghost use Rattle.std.specs.Prelude.{◌≡◌, ℕ, List, None, Some, if◌then◌else◌};
ghost use Rattle.cm_nmt.specs.Listing.{is_mandatory};
ghost use Rattle.cm_history.specs.History.{becomes_operational, decides_by, is_empty, is_fatal, own_by};
ghost use Rattle.cm_history.specs.Machine.{own_after, phase_after, phase_then};
ghost use Rattle.cm_netlist.specs.Network.{listing};
ghost use Rattle.cm_watch.specs.Course.{end_by, over_by, started_by, stopped_by, stopped_by_entry};
ghost use Rattle.cm_watch.specs.Kept.{course_after, own_behind, phase_behind};
ghost use Rattle.cm_watch.specs.Steps.{takes_boots};

use cm_history::{ALL_NODES, Call, Entry, Orders, Phase, Reply};
use cm_netlist::Network;
use cm_nmt::{Command, NmtState, NodeId, Status};
use cm_watched::{Happening, Moment, Step, beat_by, is_start};

/// What is kept of the network as a whole.
#[derive(Clone, Copy)]
pub struct Course {
    /// How far the manager has come.
    pub phase: Phase,
    /// The manager's own NMT state.
    pub own: NmtState,
    /// When the network was started, in ms since the run began.
    pub started: Option<u64>,
    /// All are stopped.
    pub is_stopped: bool,
    /// It was given, since the start, that the time for the boot of the mandatory slaves is over.
    pub is_over_given: bool,
    /// The time was given, since the start, at which the network was ready or all slaves were tried.
    pub is_end_given: bool,
    /// When the last heartbeat of the manager was given, in ms.
    pub beat: Option<u64>,
}

/// Whether the node is a mandatory slave.
pub(crate) fn is_mandatory(network: &Network, id: NodeId) -> bool
    ensures { result ≡ is_mandatory (listing network.now) id }
{
    match network.terms(id) {
        Some(terms) => terms.assignment.is_mandatory(),
        None => false,
    }
}

/// Whether the status halts the boot of the network.
fn is_fatal(network: &Network, id: NodeId, status: Status) -> bool
    ensures { result ≡ is_fatal (listing network.now) id status }
{
    is_mandatory(network, id) && !(status.is_good() || status.is_retried())
}

/// The phase where no slave is open.
fn ready_if(none_open: bool) -> Option<Phase>
    ensures { result ≡ (if none_open then Some Phase.Ready else None) }
{
    if none_open { Some(Phase::Ready) } else { None }
}

/// The phase that a call decides, where no slave is open after it, or one is.
fn decides_by(network: &Network, call: &Call, reply: Reply, none_open: bool) -> Option<Phase>
    ensures { (open_slaves : List ℕ) → none_open ≡ is_empty open_slaves
        → result ≡ decides_by (listing network.now) call.now reply open_slaves }
{
    match (call, reply) {
        (Call::Report(id, _, _), Reply::Reported(status)) => {
            if is_fatal(network, *id, status) {
                Some(Phase::Halted)
            } else {
                ready_if(none_open)
            }
        }
        (_, Reply::TimeUp) => Some(Phase::Halted),
        (_, Reply::InTime) => ready_if(none_open),
        _ => None,
    }
}

/// The phase behind what a call decides.
fn phase_then(phase: Phase, decided: Option<Phase>) -> Phase
    ensures { result ≡ phase_then phase decided }
{
    match (phase, decided) {
        (Phase::Booting, Some(decided)) => decided,
        _ => phase,
    }
}

/// The phase after a call.
fn phase_after(network: &Network, entry: &Entry, none_open: bool, phase: Phase) -> Phase
    ensures { (open_slaves : List ℕ) → none_open ≡ is_empty open_slaves
        → result ≡ phase_after (listing network.now) entry.now.call entry.now.reply open_slaves phase }
{
    if is_start(&entry.call, entry.reply) {
        Phase::Booting
    } else {
        let decided = decides_by(network, &entry.call, entry.reply, none_open);
        phase_then(phase, decided)
    }
}

fn started_by(now: u64, moment: &Moment) -> Option<u64>
    ensures { result ≡ started_by now moment.now }
{
    match moment {
        Moment::Happened(Happening::Called(entry)) if is_start(&entry.call, entry.reply) => {
            Some(now)
        }
        _ => None,
    }
}

fn stopped_by_entry(entry: &Entry) -> Option<bool>
    ensures { result ≡ stopped_by_entry entry.now }
{
    if is_start(&entry.call, entry.reply) {
        return Some(false);
    }
    match entry.orders.to_all() {
        Some(Command::Stop) => Some(true),
        Some(Command::Start) => Some(false),
        _ => None,
    }
}

fn stopped_by(moment: &Moment) -> Option<bool>
    ensures { result ≡ stopped_by moment.now }
{
    match moment {
        Moment::Happened(Happening::Called(entry)) => stopped_by_entry(entry),
        _ => None,
    }
}

fn over_by(moment: &Moment) -> Option<bool>
    ensures { result ≡ over_by moment.now }
{
    match moment {
        Moment::Gave(Step::TimeOver(_)) => Some(true),
        Moment::Happened(Happening::Called(entry)) if is_start(&entry.call, entry.reply) => {
            Some(false)
        }
        _ => None,
    }
}

fn end_by(moment: &Moment) -> Option<bool>
    ensures { result ≡ end_by moment.now }
{
    match moment {
        Moment::Gave(Step::AllTried(_)) => Some(true),
        Moment::Happened(Happening::Called(entry)) if is_start(&entry.call, entry.reply) => {
            Some(false)
        }
        _ => None,
    }
}

/// The state that a call gives the manager itself.
fn own_by(network: &Network, call: &Call, reply: Reply, orders: &Orders) -> Option<NmtState>
    ensures { result ≡ own_by (listing network.now) call.now reply orders.now }
{
    match call {
        Call::StartNetwork if reply.is_granted() => Some(NmtState::PreOperational),
        Call::Lost(_) if orders.is_stop_all() => Some(NmtState::Stopped),
        Call::Request(target, value) => {
            let is_to_own = *target == network.own_id().get() || *target == ALL_NODES;
            if reply.is_granted() && is_to_own {
                NmtState::from_code(*value)
            } else {
                None
            }
        }
        _ => None,
    }
}

/// The state that the manager takes by itself where the phase goes on so.
fn becomes_operational(network: &Network, before: Phase, after: Phase) -> Option<NmtState>
    ensures { result ≡ becomes_operational (listing network.now) before after }
{
    let is_left = network.startup().leaves_operational_to_application();
    if before.is_booting() && after.is_ready() && !is_left {
        Some(NmtState::Operational)
    } else {
        None
    }
}

/// The manager's own state after an entry, with the phases before and after it.
fn own_after(
    network: &Network,
    entry: &Entry,
    before: Phase,
    after: Phase,
    own: NmtState,
) -> NmtState
    ensures { result
        ≡ own_after (listing network.now) entry.now.call entry.now.reply entry.now.orders before after own }
{
    own_by(network, &entry.call, entry.reply, &entry.orders)
        .or(becomes_operational(network, before, after))
        .unwrap_or(own)
}

/// The manager's own state after the moment, with the phases before and after it.
fn own_behind(
    network: &Network,
    moment: &Moment,
    before: Phase,
    after: Phase,
    own: NmtState,
) -> NmtState
    ensures { result ≡ own_behind network.now moment.now before after own }
{
    match moment {
        Moment::Happened(Happening::Called(entry)) => {
            own_after(network, entry, before, after, own)
        }
        _ => own,
    }
}

/// The phase after the moment, where no slave is open then, or one is.
fn phase_behind(network: &Network, moment: &Moment, none_open: bool, phase: Phase) -> Phase
    ensures { (open_slaves : List ℕ) → none_open ≡ is_empty open_slaves
        → result ≡ phase_behind network.now moment.now open_slaves phase }
{
    match moment {
        Moment::Happened(Happening::Called(entry)) => {
            phase_after(network, entry, none_open, phase)
        }
        _ => phase,
    }
}

impl Course {
    /// What is kept of the network after the moment, where no slave is open then, or one is.
    pub(crate) fn after(
        self,
        network: &Network,
        now: u64,
        moment: &Moment,
        none_open: bool,
    ) -> Course
        ensures { (open_slaves : List ℕ) → none_open ≡ is_empty open_slaves
            → result ≡ course_after network.now now moment.now open_slaves self }
    {
        let phase = phase_behind(network, moment, none_open, self.phase);
        Course {
            phase,
            own: own_behind(network, moment, self.phase, phase, self.own),
            started: started_by(now, moment).or(self.started),
            is_stopped: stopped_by(moment).unwrap_or(self.is_stopped),
            is_over_given: over_by(moment).unwrap_or(self.is_over_given),
            is_end_given: end_by(moment).unwrap_or(self.is_end_given),
            beat: beat_by(now, moment).or(self.beat),
        }
    }

    /// Whether the manager takes boots.
    pub(crate) fn takes_boots(self) -> bool
        ensures { result ≡ takes_boots self.phase }
    {
        self.phase.is_booting() || self.phase.is_ready()
    }
}
