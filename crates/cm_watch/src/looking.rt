//! What a watch says of what it was told.

ghost use Rattle.std.specs.Prelude.{◌≡◌, is_some};
ghost use Rattle.cm_netlist.specs.Network.{Network as NetworkList};
ghost use Rattle.cm_watch.specs.Course.{is_stopped_in, phase_in};
ghost use Rattle.cm_watched.specs.Pasts.{Past};
ghost use Rattle.cm_watched.specs.Signals.{state_heard};
ghost use Rattle.cm_watched.specs.Slaves.{booted_since, heard_last, is_held_in};
ghost use Rattle.cm_watch.specs.Watches.{Watches};
ghost use Rattle.cm_watched.specs.declared.settings.Settings.{Settings as WatchSettings};

use crate::watch::Watch;
use cm_history::Phase;
use cm_nmt::NodeId;

impl Watch {
    /// How far the manager has come.
    pub fn phase(&self) -> Phase
        ensures { (net : NetworkList) (s : WatchSettings) (past : Past) → Watches self.now net s past
            → result ≡ phase_in net past }
    {
        self.course.phase
    }

    /// Whether all nodes are stopped.
    pub fn is_stopped(&self) -> bool
        ensures { (net : NetworkList) (s : WatchSettings) (past : Past) → Watches self.now net s past
            → result ≡ is_stopped_in past }
    {
        self.course.is_stopped
    }

    /// Whether the slave is booted.
    pub fn is_booted(&self, id: NodeId) -> bool
        ensures { (net : NetworkList) (s : WatchSettings) (past : Past) → Watches self.now net s past
            → result ≡ is_some (booted_since past id) }
    {
        self.slave(id).booted.is_some()
    }

    /// Whether an operator holds the slave.
    pub fn is_held(&self, id: NodeId) -> bool
        ensures { (net : NetworkList) (s : WatchSettings) (past : Past) → Watches self.now net s past
            → result ≡ is_held_in past id }
    {
        self.slave(id).is_held
    }

    /// When an error control message of the node came last.
    pub fn heard(&self, id: NodeId) -> Option<u64>
        ensures { (net : NetworkList) (s : WatchSettings) (past : Past) → Watches self.now net s past
            → result ≡ heard_last past id }
    {
        self.slave(id).heard
    }

    /// The state in it, without the toggle bit.
    pub fn state_heard(&self, id: NodeId) -> Option<u8>
        ensures { (net : NetworkList) (s : WatchSettings) (past : Past) → Watches self.now net s past
            → result ≡ state_heard past id }
    {
        self.slave(id).news.heard
    }
}
