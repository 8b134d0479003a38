//! A network of fully configured slaves, and what they answer in a boot.

use arrayvec::ArrayVec;
use cm_netlist::{Network, SlaveEntry};
use cm_nmt::{Answers, Assignment, Got, Heard, NmtState, NodeId, Startup, Terms, Write};
use std::alloc::Global;

/// How many slaves the network has.
pub const SLAVES: u8 = 126;

/// The slave at this place of the list.
#[inline(always)]
pub fn id_at(place: usize) -> Option<NodeId> {
    let number = u8::try_from(place).ok()?;
    NodeId::new(number.saturating_add(1))
}

/// A slave with every expected value, and 32 writes.
fn full_entry(number: u8) -> SlaveEntry {
    let n = u32::from(number);
    let mut writes = ArrayVec::new();
    for sub in 0..32u8 {
        if !writes.is_full() {
            writes.push(Write {
                index: 0x1400,
                sub,
                size: 4,
                value: n,
            });
        }
    }
    SlaveEntry {
        assignment: Assignment(if number % 4 == 0 { 0x1D } else { 0x0D }),
        device_type: 0x0002_0192,
        vendor: 0x100 + n,
        product: 0x200 + n,
        revision: 0x300 + n,
        serial: 0x400 + n,
        heartbeat_ms: 500,
        date: 0x1000 + n,
        time: 1 + n,
        writes,
    }
}

/// All slaves, fully configured and mandatory, every fourth kept alive.
pub fn full_network(alloc: Global) -> Option<Network> {
    let mut net = Network::new(alloc, NodeId::new(127)?, Startup(1), 60_000);
    for number in 0..SLAVES {
        let number = number.saturating_add(1);
        net.add(NodeId::new(number)?, full_entry(number)).ok()?;
    }
    Some(net)
}

/// The answers of a boot that ends with Ok: identity and date agree, the time doesn't.
#[inline(always)]
pub fn agreeing(terms: &Terms) -> Answers {
    let heard = if terms.assignment.is_kept_alive() {
        Heard::State(NmtState::PreOperational)
    } else {
        Heard::NotAsked
    };
    Answers {
        device: Got::Value(terms.device_type),
        ids: [
            Got::Value(terms.vendor),
            Got::Value(terms.product),
            Got::Value(terms.revision),
            Got::Value(terms.serial),
        ],
        heard,
        date: Got::Value(terms.date),
        time: Got::Value(terms.time ^ 1),
        acked: terms.writes,
        refused: Got::NotAsked,
        beat: Heard::State(NmtState::PreOperational),
    }
}

/// What is listed of each slave, in order.
pub fn listed_terms(alloc: Global, net: &Network) -> Option<Vec<Terms>> {
    let ids = net.listed_ids();
    let mut terms = Vec::with_capacity(alloc, ids.len()).ok()?;
    for id in ids.iter() {
        terms.push(net.terms(*id)?).ok()?;
    }
    Some(terms)
}
