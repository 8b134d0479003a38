ghost use Rattle.std.specs.Prelude.{◌≡◌, ◌≢◌, ◌≤◌, IfErr, IfSome, OnErr, OnOk, option_copied};
ghost use Rattle.std.specs.FinMap as map;
ghost use Rattle.cm_netlist.specs.Network.{IsNetwork, entry, expected, is_kept, is_listed, is_mandatory, listed_ids, terms, with_entry};
ghost use Rattle.cm_netlist.specs.Add.{add_fault};

use crate::{NetFault, SlaveEntry};
use arrayvec::ArrayVec;
use cm_nmt::{NodeId, Startup, Terms};
use std::alloc::Global;
use std::collections::BTreeMap;
use std::marker::Model;

/// The network list: the manager's own node-ID, 1F80h, 1F89h, and what is listed of each slave.
/// Contracts see these four, the slaves as a finite map from node-ID to entry.
#[derive(Drop)]
pub struct Network {
    own: NodeId,
    startup: Startup,
    boot_time: u32,
    slaves: BTreeMap<u8, SlaveEntry>,
}

impl Model for Network {
    ghost use Rattle.cm_netlist.specs.Network.{Network as Listing, network_code};
    ghost use Rattle.cm_netlist.specs.NetworkView.{IsKept, view_of};
    ghost use Rattle.cm_netlist.specs.contracts.entry.SlaveEntry as slave;

    ghost Value = { Listing };

    ghost coded = { network_code slave.the_row.coded };

    ghost view = { view_of };

    ghost invariant = { IsKept };
}

impl Network {
    /// A list with no slave. `boot_time` is 1F89h, in milliseconds; 0 means no limit.
    pub fn new(alloc: Global, own: NodeId, startup: Startup, boot_time: u32) -> Network
        ensures own { result.own ≡ own }
        ensures startup { result.startup ≡ startup.0 }
        ensures boot_time { result.boot_time ≡ boot_time }
        ensures slaves { result.slaves ≡ map.empty }
    {
        let _in_range = own.get();
        Network {
            own,
            startup,
            boot_time,
            slaves: BTreeMap::new(alloc),
        }
    }

    /// Adds a slave. The faults are tested in the order double slave, own id, bit 0 clear, value
    /// too wide; memory is asked for after them. A refusal leaves the list as it was.
    pub fn add(&mut self, id: NodeId, entry: SlaveEntry) -> Result<(), NetFault>
        ensures ok { OnOk result (self.new ≡ with_entry self.old id entry) }
        ensures none { OnOk result (add_fault self.old id entry ≡ None) }

        ensures fault { IfErr result
            (λ f. f ≢ NetFault.OutOfMemory → add_fault self.old id entry ≡ Some f) }
        ensures memory { result ≡ Err NetFault.OutOfMemory → add_fault self.old id entry ≡ None }
        ensures err { OnErr result (self.new ≡ self.old) }
    {
        if let Some(fault) = self.refusal(id, &entry) {
            return Err(fault);
        }
        let Ok(_) = self.slaves.insert(id.get(), entry) else {
            return Err(NetFault::OutOfMemory);
        };
        Ok(())
    }

    /// The first fault that the entry would be refused for, want of memory aside.
    fn refusal(&self, id: NodeId, entry: &SlaveEntry) -> Option<NetFault>
        ensures { result ≡ add_fault self.now id entry.now }
    {
        if self.listed(id) {
            Some(NetFault::DoubleSlave)
        } else if self.own == id {
            Some(NetFault::OwnListed)
        } else if !entry.assignment.is_listed() {
            Some(NetFault::NotListedBit)
        } else if !entry.writes_fit() {
            Some(NetFault::ValueTooWide)
        } else {
            None
        }
    }

    /// The manager's own node-ID.
    pub fn own_id(&self) -> NodeId
        ensures value { result ≡ self.now.own }
        ensures kept { IsNetwork self.now }
    {
        self.own
    }

    /// 1F80h, NMT startup.
    pub fn startup(&self) -> Startup
        ensures { result.0 ≡ self.now.startup }
    {
        self.startup
    }

    /// 1F89h, the time in milliseconds in which the mandatory slaves have to be booted; 0 means no
    /// limit.
    pub fn boot_time(&self) -> u32
        ensures { result ≡ self.now.boot_time }
    {
        self.boot_time
    }

    /// What is listed of the node; `None` where it isn't listed.
    pub fn entry(&self, id: NodeId) -> Option<&SlaveEntry>
        ensures value { option_copied result ≡ entry self.now id }
        ensures kept { IsNetwork self.now }
    {
        self.slaves.get(&id.get())
    }

    /// What is listed of the node, with the number of its writes in place of their list.
    pub fn terms(&self, id: NodeId) -> Option<Terms>
        ensures value { result ≡ terms self.now id }
        ensures few { IfSome result (λ t. t.writes ≤ 32) }
    {
        match self.entry(id) {
            Some(entry) => Some(entry.terms()),
            None => None,
        }
    }

    /// The values that are expected of the node, 1F84h to 1F88h in order: device type, vendor-ID,
    /// product code, revision number, serial number. `None` where the node isn't listed.
    pub fn expected(&self, id: NodeId) -> Option<[u32; 5]>
        ensures { result ≡ expected self.now id }
    {
        match self.entry(id) {
            Some(entry) => Some([
                entry.device_type,
                entry.vendor,
                entry.product,
                entry.revision,
                entry.serial,
            ]),
            None => None,
        }
    }

    /// Whether the node is listed.
    pub fn listed(&self, id: NodeId) -> bool
        ensures { result ≡ is_listed self.now id }
    {
        self.slaves.contains_key(&id.get())
    }

    /// Whether the node is a mandatory slave: 1F81h bit 3, false for a node that isn't listed.
    pub fn mandatory(&self, id: NodeId) -> bool
        ensures { result ≡ is_mandatory self.now id }
    {
        match self.entry(id) {
            Some(entry) => entry.assignment.is_mandatory(),
            None => false,
        }
    }

    /// Whether the node is a slave that is kept alive: 1F81h bit 4, false for a node that isn't
    /// listed.
    pub fn kept(&self, id: NodeId) -> bool
        ensures { result ≡ is_kept self.now id }
    {
        match self.entry(id) {
            Some(entry) => entry.assignment.is_kept_alive(),
            None => false,
        }
    }

    /// The listed nodes, in rising order.
    pub fn listed_ids(&self) -> ArrayVec<NodeId, 127>
        ensures { result.items ≡ listed_ids self.now }
    {
        let mut ids = ArrayVec::new();
        for id in 1..128u8 {
            if let Some(node) = NodeId::new(id) {
                if self.listed(node) {
                    ids.push(node);
                }
            }
        }
        ids
    }
}
