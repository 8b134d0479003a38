ghost use Rattle.std.specs.Prelude.{◌≡◌};
ghost use Rattle.cm_watched.specs.KeptOfSlaves.{budget_after, news_after};
ghost use Rattle.cm_watched.specs.Signals.{boot_up_by, changes_by, entered, is_allowed, is_change, is_other, is_same};
ghost use Rattle.cm_watched.specs.Signals.{is_told_by_worker, is_urgent};
ghost use Rattle.cm_watched.specs.Signals.{left_now, news_of, pending_of, rests_by, rests_by_call, since_by, since_heard, spends, spent};
ghost use Rattle.cm_watched.specs.Signals.{state_heard_by, state_told_by, tells_boot_up};

use crate::happening::{Happening, Moment, Step};
use crate::schedule::{Schedule, is_quiet_for};
use crate::shown::{PRE_OPERATIONAL, Since, entered, shown_by, since_entry};
use crate::slave::{boots_by, is_begin};
use cm_history::{Call, Entry, Reply};
use cm_nmt::NodeId;

/// The seat of the operator, which makes the calls of steps.
const OPERATOR: u16 = 1;

/// How long a node that has had its first steps waits between two, in ms.
const PAUSE_MS: u64 = 10_000;

/// How long it has to be quiet to have its first steps again, in ms.
const CALM_MS: u64 = 600_000;

/// How many steps a node may cause at once.
pub const MOST_AT_ONCE: u8 = 64;

/// What was heard of a node, and what the manager was told of it.
#[derive(Clone, Copy)]
pub struct News {
    /// A boot-up message came that wasn't told yet.
    pub boot_up: bool,
    /// A boot was begun, or a report booted the node, and no boot-up message was told since.
    pub rests: bool,
    /// The state that was heard last, as the message has it.
    pub heard: Option<u8>,
    /// The state that was told last.
    pub told: Option<u8>,
    /// The state that the manager shows.
    pub shown: u8,
    /// What the manager did with the node since it was heard last.
    pub since: Since,
    /// How many changes of state were heard that weren't told.
    pub changes: u32,
}

/// How many steps a node may cause by itself.
#[derive(Clone, Copy)]
pub struct Budget {
    /// So many at once.
    pub left: u8,
    /// When it caused the last, in ms.
    pub last: Option<u64>,
}

fn state_heard_by(moment: &Moment, id: NodeId) -> Option<u8>
    ensures { result ≡ state_heard_by moment.now id }
{
    match moment {
        Moment::Happened(Happening::Heard(node, byte)) if *node == id => Some(*byte % 128),
        _ => None,
    }
}

fn state_told_by(moment: &Moment, id: NodeId) -> Option<u8>
    ensures { result ≡ state_told_by moment.now id }
{
    match moment {
        Moment::Happened(Happening::Called(entry)) if is_told_by_worker(entry, id) => {
            Some(PRE_OPERATIONAL)
        }
        Moment::Gave(Step::Signal(node, byte)) if *node == id => Some(entered(*byte % 128)),
        _ => None,
    }
}

/// Whether the call tells a boot-up message of the node.
fn tells_boot_up(call: &Call, reply: Reply, id: NodeId) -> bool
    ensures { result ≡ tells_boot_up call.now reply id }
{
    match call {
        Call::Signal(node, _) => reply == Reply::BootAgain && *node == id,
        _ => false,
    }
}

/// Whether a worker that heard a boot-up message of the node has told it.
fn is_told_by_worker(entry: &Entry, id: NodeId) -> bool
    ensures { result ≡ is_told_by_worker entry.now id }
{
    tells_boot_up(&entry.call, entry.reply, id) && entry.seat != OPERATOR
}

/// Whether something rests on it that the node hasn't booted up, where the entry decides it.
fn rests_by_entry(entry: &Entry, id: NodeId) -> Option<bool>
    ensures { result ≡ rests_by_call entry.now.call entry.now.reply id }
{
    if is_begin(&entry.call, entry.reply, id) || boots_by(&entry.call, entry.reply, id) {
        Some(true)
    } else if tells_boot_up(&entry.call, entry.reply, id) {
        Some(false)
    } else {
        None
    }
}

fn rests_by(moment: &Moment, id: NodeId) -> Option<bool>
    ensures { result ≡ rests_by moment.now id }
{
    match moment {
        Moment::Happened(Happening::Called(entry)) => rests_by_entry(entry, id),
        Moment::Gave(Step::Signal(node, byte)) if *node == id && *byte % 128 == 0 => Some(false),
        _ => None,
    }
}

fn boot_up_by(moment: &Moment, id: NodeId) -> Option<bool>
    ensures { result ≡ boot_up_by moment.now id }
{
    match moment {
        Moment::Happened(Happening::Heard(node, byte)) if *node == id && *byte % 128 == 0 => {
            Some(true)
        }
        Moment::Happened(Happening::Called(entry)) if is_told_by_worker(entry, id) => {
            Some(false)
        }
        Moment::Gave(Step::Signal(node, byte)) if *node == id && *byte % 128 == 0 => Some(false),
        _ => None,
    }
}

/// Whether it isn't the state that was heard.
fn is_other(heard: Option<u8>, state: u8) -> bool
    ensures { result ≡ is_other heard state }
{
    match heard {
        Some(before) => entered(before) != state,
        None => true,
    }
}

/// Whether it is another state than the one heard before, or a boot-up message.
fn is_change(heard: Option<u8>, state: u8) -> bool
    ensures { result ≡ is_change heard state }
{
    state == 0 || is_other(heard, state)
}

/// Whether the message tells the state in which the node was.
fn is_same(heard: Option<u8>, state: u8) -> bool
    ensures { result ≡ is_same heard state }
{
    state != 0 && entered(heard.unwrap_or(0)) == state
}

/// What the manager did since the node was heard last, where it is heard now.
fn since_heard(heard: Option<u8>, state: u8, since: Since) -> Since
    ensures { result ≡ since_heard heard state since }
{
    match since {
        Since::Commanded if is_same(heard, state) => Since::Set,
        _ => Since::Nothing,
    }
}

/// What the manager did with the node since it was heard last.
fn since_by(moment: &Moment, id: NodeId, heard: Option<u8>, since: Since) -> Since
    ensures { result ≡ since_by moment.now id heard since }
{
    match moment {
        Moment::Happened(Happening::Heard(node, byte)) if *node == id => {
            since_heard(heard, *byte % 128, since)
        }
        Moment::Happened(Happening::Called(entry)) => since_entry(entry, id, since),
        _ => since,
    }
}

/// How many changes were heard, where it was this state before the moment.
fn changes_by(moment: &Moment, id: NodeId, heard: Option<u8>, changes: u32) -> u32
    ensures { result ≡ changes_by moment.now id heard changes }
{
    match moment {
        Moment::Happened(Happening::Heard(node, byte))
            if *node == id && is_change(heard, *byte % 128) => { changes.saturating_add(1) }
        Moment::Happened(Happening::Called(entry)) if is_told_by_worker(entry, id) => {
            u32::from(is_other(heard, PRE_OPERATIONAL))
        }
        Moment::Gave(Step::Signal(node, byte)) if *node == id => {
            u32::from(is_other(heard, entered(*byte % 128)))
        }
        _ => changes,
    }
}

impl News {
    /// What was heard and told of the node after the moment.
    pub fn after(self, moment: &Moment, id: NodeId) -> News
        ensures { result ≡ news_after moment.now id self }
    {
        News {
            boot_up: boot_up_by(moment, id).unwrap_or(self.boot_up),
            rests: rests_by(moment, id).unwrap_or(self.rests),
            heard: state_heard_by(moment, id).or(self.heard),
            told: state_told_by(moment, id).or(self.told),
            shown: shown_by(moment, id, self.shown),
            since: since_by(moment, id, self.heard, self.since),
            changes: changes_by(moment, id, self.heard, self.changes),
        }
    }

    /// How many changes of state are told now, or next.
    pub fn pending(self) -> u32
        ensures { result ≡ pending_of self }
    {
        if self.boot_up && is_other(self.heard, PRE_OPERATIONAL) {
            2
        } else {
            1
        }
    }

    /// What is to be told: a boot-up message, else the state heard last, where the manager has given the node none since, and it
    /// isn't the one that was told last or the manager shows another.
    pub fn to_tell(self) -> Option<u8>
        ensures { result ≡ news_of self }
    {
        if self.boot_up {
            return Some(0);
        }
        match (self.since, self.heard) {
            (Since::Nothing, Some(state)) => {
                let is_known = !is_other(self.told, state) && self.shown == state;
                if state == 0 || is_known {
                    None
                } else {
                    Some(state)
                }
            }
            _ => None,
        }
    }

    /// Whether it is told at once, however much was told before: a boot-up message on which something rests.
    pub fn is_urgent(self) -> bool
        ensures { result ≡ is_urgent self }
    {
        self.boot_up && self.rests
    }
}

/// Whether the step is one that the node causes by itself.
fn spends(moment: &Moment, rests: bool, schedule: Schedule, id: NodeId) -> bool
    ensures { result ≡ spends moment.now rests schedule id }
{
    match moment {
        Moment::Gave(Step::Signal(node, byte)) => *node == id && !(rests && *byte % 128 == 0),
        Moment::Gave(Step::Boot(node)) => *node == id && schedule.is_own(),
        _ => false,
    }
}

impl Budget {
    /// How many steps may be given at once now.
    fn left_now(self, now: u64) -> u8
        ensures { result ≡ left_now now self }
    {
        if is_quiet_for(CALM_MS, now, self.last) {
            MOST_AT_ONCE
        } else {
            self.left
        }
    }

    /// What is left of it after the moment.
    pub fn after(
        self,
        now: u64,
        moment: &Moment,
        rests: bool,
        schedule: Schedule,
        id: NodeId,
    ) -> Budget
        ensures { result ≡ budget_after now moment.now id rests schedule self }
    {
        if spends(moment, rests, schedule, id) {
            Budget {
                left: self.left_now(now).saturating_sub(1),
                last: Some(now),
            }
        } else {
            self
        }
    }

    /// Whether another step may be given now.
    pub fn is_allowed(self, now: u64) -> bool
        ensures { result ≡ is_allowed now self }
    {
        0 < self.left || is_quiet_for(PAUSE_MS, now, self.last)
    }
}
