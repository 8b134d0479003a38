//! Network lists and a journal.

use crate::memory::saying::{done, refused, refused_at, surely};
use arrayvec::ArrayVec;
use cm_format::FaultKind;
use cm_journal::journal_read;
use cm_netlist::{NetFault, Network, SlaveEntry};
use cm_nmt::{Assignment, NodeId, Startup, Terms};

const LIST: &str =
    "own = 1\nstartup = 1\n[[slave]]\nid = 2\nassignment = 13\nwrites = [[0x6200, 1, 1, 255]]\n[[slave]]\nid = 3\nassignment = 5\n";

const JOURNAL: &[u8] = b"canboot journal 2\n\
    network own 1 startup 00000001 boottime 0 seats 1 limit 16\n\
    slave 2 assign 0000000D type 00020192 vendor 00000000 product 00000000 revision 00000000 serial 00000000 \
    heartbeat 0 date 00000000 time 00000000 writes 0\n\
    entry 1 start = started / reset-unkept\n\
    entry 1 begin 2 = begun 1 / none\n\
    entry 1 read 2 = state 0 / none\n\
    entry 1 read 2 = state 0 / none\n\
    entry 1 read 2 = state 0 / none\n\
    end 5\n";

/// A mandatory slave of which no value is expected.
pub(crate) fn slave() -> SlaveEntry {
    let terms = Terms {
        assignment: Assignment(0x0D),
        device_type: 0,
        vendor: 0,
        product: 0,
        revision: 0,
        serial: 0,
        heartbeat_ms: 0,
        date: 0,
        time: 0,
        writes: 0,
    };
    SlaveEntry::from_terms(terms, ArrayVec::new())
}

/// Adds a slave; a list that was refused memory has the slaves that it had.
fn add_one<R: Print>(rt: &R, network: &mut Network, id: NodeId) -> Option<()> {
    let before = network.listed_ids();
    match network.add(id, slave()) {
        Ok(()) => Some(()),
        Err(NetFault::OutOfMemory) => {
            refused_at(rt, "add", u32::from(id.get()))?;
            surely(network.listed_ids().as_slice() == before.as_slice())?;
            network.add(id, slave()).ok()
        }
        Err(_) => None,
    }
}

/// A list with this many slaves, from node 2 on.
pub(crate) fn listed<R: Print + AllocGlobal>(rt: &R, count: u8) -> Option<Network> {
    let mut network = Network::new(rt.alloc(), NodeId::new(1)?, Startup(1), 0);
    for place in 0..count {
        let id = NodeId::new(place.checked_add(2)?)?;
        add_one(rt, &mut network, id)?;
    }
    Some(network)
}

/// A network list slave by slave.
pub(crate) fn add<R: Print + AllocGlobal>(rt: &R) -> Option<()> {
    let network = listed(rt, 20)?;
    done(rt, "add", network.listed_ids().len())
}

/// A network list in TOML.
pub(crate) fn read_list<R: Print + AllocGlobal>(rt: &R) -> Option<()> {
    let network = match Network::from_toml(rt.alloc(), LIST) {
        Ok(network) => network,
        Err(NetFault::OutOfMemory) => {
            refused(rt, "list")?;
            Network::from_toml(rt.alloc(), LIST).ok()?
        }
        Err(_) => return None,
    };
    done(rt, "list", network.listed_ids().len())
}

/// A journal.
pub(crate) fn read_journal<R: Print + AllocGlobal>(rt: &R) -> Option<()> {
    let journal = match journal_read(rt.alloc(), JOURNAL) {
        Ok(journal) => journal,
        Err(fault) => {
            surely(fault.kind == FaultKind::OutOfMemory)?;
            refused(rt, "journal")?;
            journal_read(rt.alloc(), JOURNAL).ok()?
        }
    };
    done(rt, "journal", journal.entries.len())
}
