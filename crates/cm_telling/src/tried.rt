//! What came of the boots of the slaves.

ghost use Rattle.std.specs.Prelude.{◌≡◌, ℕ, ◌<◌, ◌≤◌, ◌==◌, if◌then◌else◌, [], ◌∷◌};
ghost use Rattle.cm_netlist.specs.Network.{Network as NetworkList};
ghost use Rattle.cm_watched.specs.Pasts.{Past};
ghost use Rattle.cm_nmt.specs.Codes.{signal_of};
ghost use Rattle.cm_telling.specs.Tried.{Tries, attempts_in, boots_at, is_operational, running_node, status_in, unbooted_by};
ghost use Rattle.cm_watch.specs.Watches.{Watches};
ghost use Rattle.cm_watched.specs.declared.happening.Happening.TheVariants.{Called};
ghost use Rattle.cm_watched.specs.declared.happening.Moment.TheVariants.{Gave, Happened};
ghost use Rattle.cm_watched.specs.declared.settings.Settings.{Settings as WatchSettings};

use cm_history::{Call, Entry, Reply};
use cm_nmt::{NmtState, NodeId, Signal, Status};
use cm_watch::Watch;
use cm_watched::Step;

/// What came of the boots of a slave.
#[derive(Clone, Copy)]
struct Boots {
    /// How many were begun since it was last handed to its worker, at most 255.
    attempts: u8,
    /// The status of the last.
    status: Option<Status>,
}

/// What came of the boots of all slaves (own).
#[derive(Clone, Copy)]
pub struct Tried {
    /// Of each node, that of node i at place i.
    boots: [Boots; 128],
}

/// Whether an error control message with this byte says that its node is operational (CiA 301, heartbeat).
fn is_operational(byte: u8) -> bool
    ensures { result ≡ is_operational (signal_of byte) }
{
    matches!(
        Signal::read(byte),
        Some(Signal::State(NmtState::Operational))
    )
}

/// The node that runs by this call alone: a request of the value 5 to it was carried out (CiA 302-2, request NMT), or its error control
/// message, which was noted, says so.
fn running_node(call: &Call, reply: Reply) -> Option<NodeId>
    ensures { result ≡ running_node call.now reply }
{
    match (call, reply) {
        (Call::Request(target, 5), Reply::Done) => NodeId::new(*target),
        (Call::Signal(id, byte), Reply::Noted) if is_operational(*byte) => Some(*id),
        _ => None,
    }
}

impl Tried {
    /// None was booted.
    pub fn new() -> Tried
        ensures { Tries result [] }
    {
        let none = Boots {
            attempts: 0,
            status: None,
        };
        Tried { boots: [none; 128] }
    }

    /// What came of the boots of a node.
    fn boots(&self, id: NodeId) -> Boots
        ensures { result ≡ boots_at self.now id }
    {
        self.boots[usize::from(id.get())]
    }

    /// This came of the boots of the node; of the others what did before.
    fn set(&mut self, id: NodeId, boots: Boots)
        ensures { (i : ℕ) → i < 128
            → boots_at self.new i ≡ (if id == i then boots else boots_at self.old i) }
    {
        self.boots[usize::from(id.get())] = boots;
    }

    /// How many boots of the node were begun since it was last handed to its worker, at most 255.
    pub fn attempts(&self, id: NodeId) -> u8
        ensures { (past : Past) → Tries self.now past → result ≡ attempts_in past id }
    {
        self.boots(id).attempts
    }

    /// The status of the last report on the node.
    pub fn status(&self, id: NodeId) -> Option<Status>
        ensures { (past : Past) → Tries self.now past → result ≡ status_in past id }
    {
        self.boots(id).status
    }

    /// Counts the boots of a slave anew, where the step hands it to its worker.
    pub fn give(&mut self, step: &Step)
        ensures { (now : ℕ) (past : Past) → Tries self.old past
            → Tries self.new ((now, Gave step.now) ∷ past) }
    {
        if let Step::Boot(id) = step {
            let status = self.boots(*id).status;
            self.set(
                *id,
                Boots {
                    attempts: 0,
                    status,
                },
            );
        }
    }

    /// Counts the boots in an entry.
    pub fn count(&mut self, entry: &Entry)
        ensures { (now : ℕ) (past : Past) → Tries self.old past
            → Tries self.new ((now, Happened (Called entry.now)) ∷ past) }
    {
        match (&entry.call, entry.reply) {
            (Call::Begin(id), Reply::Begun(_)) => {
                let boots = self.boots(*id);
                self.set(
                    *id,
                    Boots {
                        attempts: boots.attempts.saturating_add(1),
                        status: boots.status,
                    },
                );
            }
            (Call::Report(id, _, _), Reply::Reported(status)) => {
                let attempts = self.boots(*id).attempts;
                self.set(
                    *id,
                    Boots {
                        attempts,
                        status: Some(status),
                    },
                );
            }
            _ => {}
        }
    }

    /// Where a slave runs by the entry that the watch doesn't have as booted: the status of the last report on it, if there was one.
    pub fn unbooted(&self, entry: &Entry, watch: &Watch) -> Option<Option<Status>>
        ensures { (net : NetworkList) (s : WatchSettings) (past : Past) → Tries self.now past
            → Watches watch.now net s past → result ≡ unbooted_by past entry.now }
    {
        let id = running_node(&entry.call, entry.reply)?;
        if watch.is_booted(id) {
            None
        } else {
            Some(self.status(id))
        }
    }
}
