//! What `canboot run` says of a network that was halted.

use cm_history::{Call, Entry, Reply};
use cm_netlist::Network;
use cm_nmt::{NodeId, Status};
use cm_sequential::Manager;
use std::io::{self, Write};

/// The mandatory slave whose boot came to a status with which the network is halted, if the entry reports one, and that status (CiA 302-2,
/// boot NMT slave).
fn halted_by(network: &Network, entry: &Entry) -> Option<(NodeId, Status)> {
    match (&entry.call, entry.reply) {
        (Call::Report(id, _, _), Reply::Reported(status)) => match status {
            Status::Ok | Status::L | Status::B => None,
            _ if network.mandatory(*id) => Some((*id, status)),
            _ => None,
        },
        _ => None,
    }
}

/// Whether the entry begins a boot of the slave.
fn begins(id: NodeId, entry: &Entry) -> bool {
    match (&entry.call, entry.reply) {
        (Call::Begin(other), Reply::Begun(_)) => *other == id,
        _ => false,
    }
}

/// Writes which slaves had no boot, if there are any.
fn put_unbegun<E: Write>(network: &Network, entries: &[Entry], err: &mut E) -> io::Result<()> {
    let mut front = "; no boot was begun of ";
    for id in network.listed_ids().as_slice() {
        if !entries.iter().any(|entry| begins(*id, entry)) {
            write!(err, "{front}{}", id.get())?;
            front = ", ";
        }
    }
    writeln!(err)
}

/// Writes by which slave the network was halted.
fn put_halt<E: Write>(
    network: &Network,
    entries: &[Entry],
    id: NodeId,
    status: Status,
    err: &mut E,
) -> io::Result<()> {
    let (number, letter) = (id.get(), status.letter());
    write!(
        err,
        "canboot: network halted: node {number} has status {letter}"
    )?;
    put_unbegun(network, entries, err)
}

/// Tells, where the network was halted, by which slave and its status, and of which slaves no boot was begun.
pub(crate) fn tell_halt<E: Write>(
    network: &Network,
    manager: &Manager,
    entries: &[Entry],
    err: &mut E,
) {
    if !manager.phase().is_halted() {
        return;
    }
    for entry in entries {
        if let Some((id, status)) = halted_by(network, entry) {
            let _ = put_halt(network, entries, id, status, err);
            return;
        }
    }
}
