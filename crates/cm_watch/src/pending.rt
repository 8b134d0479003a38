//! What of the boot of a network is still to come.

ghost use Rattle.std.specs.Prelude.{◌≡◌, ◌&&◌, filter};
ghost use Rattle.cm_history.specs.History.{is_empty};
ghost use Rattle.cm_history.specs.Phases.{is_booting};
ghost use Rattle.cm_nmt.specs.Listing.{node_ids};
ghost use Rattle.cm_watch.specs.Watches.{elapsed_by, is_end_by, is_pending_by, is_time_over_by};

use crate::course::is_mandatory;
use crate::watch::{Pending, Watch};
use cm_netlist::Network;
use cm_nmt::NodeId;

impl Watch {
    /// Whether the node is a slave that is this still.
    fn is_pending(&self, network: &Network, pending: Pending, id: NodeId) -> bool
        ensures { result ≡ is_pending_by self.now.slaves network.now pending id }
    {
        let slave = self.slave(id);
        match pending {
            Pending::Open => is_mandatory(network, id) && slave.booted.is_none(),
            Pending::Untried => network.listed(id) && !slave.is_tried,
        }
    }

    /// Whether no slave is this any more.
    pub(crate) fn none_pending(&self, network: &Network, pending: Pending) -> bool
        ensures { result
            ≡ is_empty (filter (is_pending_by self.now.slaves network.now pending) node_ids) }
    {
        for number in 1..128u8 {
            if let Some(id) = NodeId::new(number) {
                if self.is_pending(network, pending, id) {
                    return false;
                }
            }
        }
        true
    }

    /// Whether the mandatory slaves are being booted, and none is open any more: in another phase it doesn't matter.
    pub(crate) fn is_none_open(&self, network: &Network) -> bool
        ensures { result ≡ (is_booting self.now.course.phase
            && is_empty (filter (is_pending_by self.now.slaves network.now Pending.Open) node_ids)) }
    {
        self.course.phase.is_booting() && self.none_pending(network, Pending::Open)
    }

    /// The ms since the network was started.
    pub(crate) fn elapsed(&self, now: u64) -> u32
        ensures { result ≡ elapsed_by self.now now }
    {
        let started = self.course.started.unwrap_or(0);
        now.saturating_sub(started).min(0xFFFF_FFFF) as u32
    }

    /// Whether the time for the boot of the mandatory slaves is over now.
    pub(crate) fn is_time_over(&self, network: &Network, now: u64) -> bool
        ensures { result ≡ is_time_over_by self.now network.now now }
    {
        let most = network.boot_time();
        let started = self.course.started.unwrap_or(0);
        self.course.phase.is_booting()
            && !self.course.is_over_given
            && 0 < most
            && u64::from(most) < now.saturating_sub(started)
    }

    /// Whether the network is ready, or all slaves were tried, and that wasn't given yet.
    pub(crate) fn is_end(&self, network: &Network) -> bool
        ensures { result ≡ is_end_by self.now network.now }
    {
        self.course.takes_boots()
            && !self.course.is_end_given
            && (self.course.phase.is_ready() || self.none_pending(network, Pending::Untried))
    }
}
