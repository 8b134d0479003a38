//! What is told of what a bus says, beside the answers and the states of slaves.

ghost use Rattle.std.specs.Prelude.{◌≡◌, ◌<◌, ◌+◌, ◌%◌, ℕ, false, true};
ghost use Rattle.cm_telling.specs.BusErrors.{behind_error, nothing_told};
ghost use Rattle.cm_telling.specs.Echoes.{behind_sent_all, count_at};
ghost use Rattle.cm_telling.specs.Limiting.{behind_message, behind_turn, is_told, none_told};
ghost use Rattle.cm_telling.specs.Notices.{boot_up_notice, bus_by, count_by, double_by, double_notice, error_told, if_place, is_stranger_told};
ghost use Rattle.cm_telling.specs.Notices.{left_out_by, left_out_notice, limit_at, limit_behind_error, limit_by, notice_by, own_out_by};
ghost use Rattle.cm_telling.specs.Notices.{own_out_behind, place_of_turn, stranger_by, strangers_by};

use crate::bus_told::{BusTold, ErrorNotice};
use crate::limit::Limit;
use crate::sent::Sent;
use cm_can::{BusState, CanError, Emergency, Remark};
use cm_netlist::Network;
use cm_nmt::{Frame, NodeId};

/// The place of the limit of messages of other masters; each node's is at the place of its node-ID.
const MASTERS: u8 = 0;
/// The place of the limit of what the interface says of the bus, behind those of the nodes.
const BUS: u8 = 128;
/// How many limits there are.
const LIMITS: u8 = 129;

/// What is told of what a bus says.
#[derive(Clone, Copy, Debug, PartialEq, Eq)]
pub enum Notice {
    /// The node sent this emergency message.
    Emergency(NodeId, Emergency),
    /// So many emergency messages of the node were left out.
    EmergenciesLeftOut(NodeId, u32),
    /// Another NMT master sent this message.
    Master(Frame),
    /// So many messages of other masters were left out.
    MastersLeftOut(u32),
    /// The node isn't listed, and has booted up. This is told once of each.
    Unlisted(NodeId),
    /// Another device with the manager's own node-ID, which is this, has booted up. This is told once.
    OwnNodeId(NodeId),
    /// The interface said this of the bus.
    Bus(ErrorNotice),
    /// So many changes of the bus were left out; this is the state of its controller now, if it was said.
    BusLeftOut(u32, Option<BusState>),
    /// Two answers to one question came from this node-ID, and they differ: two devices have it. This is told once of each.
    Doubled(NodeId),
}

/// What decides which of the remarks of a bus are told (own): of one node at most ten emergency messages in any second, and of
/// other masters as many messages; each error of the bus once until it changes, and of these changes as many; each node that
/// isn't listed once, or that two devices have its node-ID, and once another device with the manager's own node-ID.
#[derive(Clone, Copy)]
pub struct Notices {
    /// How often what is told: of other masters at first, then of each node, and at last of the bus.
    limits: [Limit; 129],
    /// The place of the limit that is looked at in the next turn, modulo 129.
    next: u8,
    sent: Sent,
    /// Our own boot-up message was sent, and hasn't come back.
    is_own_out: bool,
    /// Of each node, whether it was told that it isn't listed, or that another device has its node-ID, which may be ours.
    strangers: [bool; 128],
    bus: BusTold,
}

/// What is told of a count of what was left out, by the place of its limit. `state` is the controller's.
fn left_out_notice(place: u8, count: u32, state: Option<BusState>) -> Notice
    requires { place < 129 }
    ensures { result ≡ left_out_notice place count state }
{
    if place == BUS {
        return Notice::BusLeftOut(count, state);
    }
    match NodeId::new(place) {
        Some(id) => Notice::EmergenciesLeftOut(id, count),
        None => Notice::MastersLeftOut(count),
    }
}

impl Notices {
    /// Nothing was heard, sent or told.
    pub fn new() -> Notices
        ensures limits { (i : ℕ) → i < 129 → limit_at result i ≡ none_told }
        ensures next { result.next ≡ 0 }
        ensures sent { (k : ℕ) → k < 640 → count_at result.sent k ≡ 0 }
        ensures own { result.is_own_out ≡ false }
        ensures strangers { (i : ℕ) → i < 128 → is_stranger_told result i ≡ false }
        ensures bus { result.bus ≡ nothing_told }
    {
        Notices {
            limits: [Limit::new(); 129],
            next: 0,
            sent: Sent::new(),
            is_own_out: false,
            strangers: [false; 128],
            bus: BusTold::new(),
        }
    }

    /// A message of the limit at this place comes: whether it is told.
    fn take(&mut self, place: u8, now: u64) -> bool
        requires { place < 129 }
        ensures told { result ≡ is_told (limit_at self.old place) now }
        ensures limits { (i : ℕ) → i < 129
            → limit_at self.new i ≡ if_place place i (behind_message (limit_at self.old i) now) (limit_at self.old i) }
        ensures next { self.new.next ≡ self.old.next }
        ensures sent { self.new.sent ≡ self.old.sent }
        ensures own { self.new.is_own_out ≡ self.old.is_own_out }
        ensures strangers { self.new.strangers ≡ self.old.strangers }
        ensures bus { self.new.bus ≡ self.old.bus }
    {
        let mut limit = self.limits[usize::from(place)];
        let is_told = limit.take(now);
        self.limits[usize::from(place)] = limit;
        is_told
    }

    /// A node has booted up: what is told of it, if it isn't listed. Our own boot-up message, which comes back, isn't another's.
    fn meet(&mut self, network: &Network, id: NodeId) -> Option<Notice>
        ensures told { result ≡ boot_up_notice self.old network.now id }
        ensures strangers { (i : ℕ) → i < 128
            → is_stranger_told self.new i ≡ stranger_by self.old network.now id i (is_stranger_told self.old i) }
        ensures own { self.new.is_own_out ≡ own_out_behind network.now id self.old.is_own_out }
        ensures limits { self.new.limits ≡ self.old.limits }
        ensures next { self.new.next ≡ self.old.next }
        ensures sent { self.new.sent ≡ self.old.sent }
        ensures bus { self.new.bus ≡ self.old.bus }
    {
        let is_own = id == network.own_id();
        if is_own && self.is_own_out {
            self.is_own_out = false;
            return None;
        }
        let place = usize::from(id.get());
        if network.entry(id).is_some() || self.strangers[place] {
            return None;
        }
        self.strangers[place] = true;
        if is_own {
            Some(Notice::OwnNodeId(id))
        } else {
            Some(Notice::Unlisted(id))
        }
    }

    /// Two devices have this node-ID: what is told of it.
    fn meet_double(&mut self, id: NodeId) -> Option<Notice>
        ensures told { result ≡ double_notice self.old id }
        ensures strangers { (i : ℕ) → i < 128
            → is_stranger_told self.new i ≡ double_by id i (is_stranger_told self.old i) }
        ensures limits { self.new.limits ≡ self.old.limits }
        ensures next { self.new.next ≡ self.old.next }
        ensures sent { self.new.sent ≡ self.old.sent }
        ensures own { self.new.is_own_out ≡ self.old.is_own_out }
        ensures bus { self.new.bus ≡ self.old.bus }
    {
        let place = usize::from(id.get());
        if self.strangers[place] {
            return None;
        }
        self.strangers[place] = true;
        Some(Notice::Doubled(id))
    }

    /// The interface says this of the bus, at this time in ms: what is told of it.
    fn hear_error(&mut self, now: u64, error: &CanError) -> Option<ErrorNotice>
        ensures told { result ≡ error_told self.old now error.now }
        ensures limits { (i : ℕ) → i < 129
            → limit_at self.new i ≡ limit_behind_error self.old error.now now i (limit_at self.old i) }
        ensures bus { self.new.bus ≡ behind_error self.old.bus error.now }
        ensures next { self.new.next ≡ self.old.next }
        ensures sent { self.new.sent ≡ self.old.sent }
        ensures own { self.new.is_own_out ≡ self.old.is_own_out }
        ensures strangers { self.new.strangers ≡ self.old.strangers }
    {
        let notice = self.bus.take(error);
        if notice.is_some() && !self.take(BUS, now) {
            return None;
        }
        notice
    }

    /// We send our own boot-up message: it comes back at most once.
    pub fn boot_up(&mut self)
        ensures own { self.new.is_own_out ≡ true }
        ensures limits { self.new.limits ≡ self.old.limits }
        ensures next { self.new.next ≡ self.old.next }
        ensures sent { self.new.sent ≡ self.old.sent }
        ensures strangers { self.new.strangers ≡ self.old.strangers }
        ensures bus { self.new.bus ≡ self.old.bus }
    {
        self.is_own_out = true;
    }

    /// We send these NMT messages: each comes back at most once.
    pub fn send(&mut self, messages: &[Frame])
        ensures sent { (k : ℕ) → k < 640
            → count_at self.new.sent k ≡ behind_sent_all messages.now k (count_at self.old.sent k) }
        ensures limits { self.new.limits ≡ self.old.limits }
        ensures next { self.new.next ≡ self.old.next }
        ensures own { self.new.is_own_out ≡ self.old.is_own_out }
        ensures strangers { self.new.strangers ≡ self.old.strangers }
        ensures bus { self.new.bus ≡ self.old.bus }
    {
        let mut sent = self.sent;
        for message in messages {
            sent.send(*message);
        }
        self.sent = sent;
    }

    /// The bus says this, at this time in ms: what is told of it.
    pub fn hear(&mut self, network: &Network, now_ms: u64, remark: &Remark) -> Option<Notice>
        ensures told { result ≡ notice_by self.old network.now now_ms remark.now }
        ensures limits { (i : ℕ) → i < 129
            → limit_at self.new i ≡ limit_by self.old remark.now now_ms i (limit_at self.old i) }
        ensures sent { (k : ℕ) → k < 640
            → count_at self.new.sent k ≡ count_by remark.now k (count_at self.old.sent k) }
        ensures strangers { (i : ℕ) → i < 128
            → is_stranger_told self.new i ≡ strangers_by self.old network.now remark.now i (is_stranger_told self.old i) }
        ensures own { self.new.is_own_out ≡ own_out_by network.now remark.now self.old.is_own_out }
        ensures bus { self.new.bus ≡ bus_by remark.now self.old.bus }
        ensures next { self.new.next ≡ self.old.next }
    {
        match remark {
            Remark::Emergency(id, emergency) => {
                let is_told = self.take(id.get(), now_ms);
                is_told.then_some(Notice::Emergency(*id, *emergency))
            }
            Remark::BootUp(id) => self.meet(network, *id),
            Remark::Message(message) => {
                if self.sent.hear(*message) || !self.take(MASTERS, now_ms) {
                    None
                } else {
                    Some(Notice::Master(*message))
                }
            }
            Remark::Error(error) => match self.hear_error(now_ms, error) {
                Some(notice) => Some(Notice::Bus(notice)),
                None => None,
            },
            Remark::Doubled(id) => self.meet_double(*id),
        }
    }

    /// A turn, at this time in ms: the next limit is looked at, and what was left out of it is told, if it may be. So each is within
    /// 129 turns.
    pub fn turn(&mut self, now_ms: u64) -> Option<Notice>
        ensures told { result ≡ left_out_by self.old now_ms }
        ensures limits { (i : ℕ) → i < 129
            → limit_at self.new i ≡ if_place (place_of_turn self.old) i (behind_turn (limit_at self.old i) now_ms) (limit_at self.old i) }
        ensures next { self.new.next ≡ (place_of_turn self.old + 1) % 129 }
        ensures sent { self.new.sent ≡ self.old.sent }
        ensures own { self.new.is_own_out ≡ self.old.is_own_out }
        ensures strangers { self.new.strangers ≡ self.old.strangers }
        ensures bus { self.new.bus ≡ self.old.bus }
    {
        let place = self.next % LIMITS;
        self.next = (place + 1) % LIMITS;
        let mut limit = self.limits[usize::from(place)];
        let count = limit.turn(now_ms);
        self.limits[usize::from(place)] = limit;
        match count {
            Some(count) => Some(left_out_notice(place, count, self.bus.state())),
            None => None,
        }
    }
}
