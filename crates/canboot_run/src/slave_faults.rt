//! What simulated slaves do that slaves which agree with a network list don't.

ghost use Rattle.std.specs.Prelude.{◌≡◌, ◌<◌, slice_set};
ghost use Rattle.canboot_run.specs.SlaveFaults.{aborting, aborting_by, aborting_reads, aborting_writes};
ghost use Rattle.canboot_run.specs.SlaveFaults.{first_write, with_value, wrong_by, wrong_with};

use cm_history::NodeSet;
use cm_netlist::Network;
use cm_nmt::{Got, NodeId, Write};
use cm_run::SimSlave;
use std::alloc::Global;

/// SDO abort code of CiA 301: the object doesn't exist.
const NO_OBJECT: u32 = 0x0602_0000;

/// A value of a slave that its boot reads, by its key in a network list.
#[derive(Clone, Copy)]
pub enum SlaveValue {
    /// 1000h.
    DeviceType,
    /// 1018h sub 1.
    Vendor,
    /// 1018h sub 2.
    Product,
    /// 1018h sub 3.
    Revision,
    /// 1018h sub 4.
    Serial,
    /// 1020h sub 1.
    Date,
    /// 1020h sub 2.
    Time,
}

/// A value that a slave gives, in the place of the one that is expected.
#[derive(Clone, Copy)]
pub struct WrongValue {
    pub id: NodeId,
    pub object: SlaveValue,
    pub value: u32,
}

/// An object of which a slave aborts each read and write, as one that it doesn't have.
#[derive(Clone, Copy)]
pub struct AbortedObject {
    pub id: NodeId,
    pub index: u16,
}

/// What slaves do that those which agree don't. Where a node has several of these, silence counts before aborts, aborts before
/// wrong values, and of two wrong values of one object the later one.
#[derive(Drop)]
pub struct SlaveFaults {
    /// Those that give no answer.
    pub silent: NodeSet,
    /// Those that are lost once they are booted.
    pub dying: NodeSet,
    pub wrong: Vec<WrongValue>,
    pub aborted: Vec<AbortedObject>,
}

/// The slave, with another answer to the read of a part of 1018h.
fn with_identity(slave: SimSlave, place: usize, answer: Got) -> SimSlave
    requires { place < 4 }
    ensures { result ≡ record slave { ids = slice_set slave.ids place answer } }
{
    let mut ids = slave.ids;
    ids[place] = answer;
    SimSlave { ids, ..slave }
}

/// The slave, with another value.
fn with_value(object: SlaveValue, value: u32, slave: SimSlave) -> SimSlave
    ensures { result ≡ with_value object value slave }
{
    let answer = Got::Value(value);
    match object {
        SlaveValue::DeviceType => SimSlave {
            device: answer,
            ..slave
        },
        SlaveValue::Vendor => with_identity(slave, 0, answer),
        SlaveValue::Product => with_identity(slave, 1, answer),
        SlaveValue::Revision => with_identity(slave, 2, answer),
        SlaveValue::Serial => with_identity(slave, 3, answer),
        SlaveValue::Date => SimSlave {
            date: answer,
            ..slave
        },
        SlaveValue::Time => SimSlave {
            time: answer,
            ..slave
        },
    }
}

/// The slave of this node, with the wrong value, if that is its own.
fn wrong_by(one: &WrongValue, id: NodeId, slave: SimSlave) -> SimSlave
    ensures { result ≡ wrong_by one.now id slave }
{
    if one.id == id {
        with_value(one.object, one.value, slave)
    } else {
        slave
    }
}

/// The slave of this node, with each wrong value that it is to give.
fn wrong_with(wrong: &[WrongValue], id: NodeId, mut slave: SimSlave) -> SimSlave
    ensures { result ≡ wrong_with wrong.now id slave }
{
    for one in wrong {
        slave = wrong_by(one, id, slave);
    }
    slave
}

/// The slave, which aborts each read of the object.
fn aborting_reads(index: u16, slave: SimSlave) -> SimSlave
    ensures { result ≡ aborting_reads index slave }
{
    let abort = Got::Abort(NO_OBJECT);
    match index {
        0x1000 => SimSlave {
            device: abort,
            ..slave
        },
        0x1018 => SimSlave {
            ids: [abort; 4],
            ..slave
        },
        0x1020 => SimSlave {
            date: abort,
            time: abort,
            ..slave
        },
        _ => slave,
    }
}

/// The place of the first write of the object.
fn first_write(index: u16, writes: &[Write]) -> Option<usize>
    ensures value { result ≡ first_write index writes.now }
{
    writes.iter().position(|write| write.index == index)
}

/// The slave, which acknowledges the writes before the first one of the object, and aborts that.
fn aborting_writes(index: u16, writes: &[Write], slave: SimSlave) -> SimSlave
    ensures { result ≡ aborting_writes index writes.now slave }
{
    match first_write(index, writes) {
        Some(place) => SimSlave {
            write_limit: place.min(usize::from(slave.write_limit)) as u8,
            write_fault: Got::Abort(NO_OBJECT),
            ..slave
        },
        None => slave,
    }
}

/// The slave of this node, which aborts each read and write of the object, if that is its own.
fn aborting_by(one: &AbortedObject, id: NodeId, writes: &[Write], slave: SimSlave) -> SimSlave
    ensures { result ≡ aborting_by one.now id writes.now slave }
{
    if one.id == id {
        aborting_writes(one.index, writes, aborting_reads(one.index, slave))
    } else {
        slave
    }
}

/// The slave of this node, which aborts each read and write of these objects.
fn aborting(
    aborted: &[AbortedObject],
    id: NodeId,
    writes: &[Write],
    mut slave: SimSlave,
) -> SimSlave
    ensures { result ≡ aborting aborted.now id writes.now slave }
{
    for one in aborted {
        slave = aborting_by(one, id, writes, slave);
    }
    slave
}

impl SlaveFaults {
    ghost use Rattle.std.specs.Prelude.{◌==◌, ℕ, [], IfNone, IfSome, false, true};
    ghost use Rattle.std.specs.List.{list_any};
    ghost use Rattle.cm_nmt.specs.NodeId.{IsNodeId};
    ghost use Rattle.cm_history.specs.NodeSets.{has};
    ghost use Rattle.canboot_run.specs.SlaveFaults.{AreListed, IsFirstUnlisted, is_unlisted, names, slave_given};

    /// All slaves agree.
    pub fn none(alloc: Global) -> SlaveFaults
        ensures silent { (i : ℕ) → has result.silent i ≡ false }
        ensures dying { (i : ℕ) → has result.dying i ≡ false }
        ensures wrong { result.wrong.items ≡ [] }
        ensures aborted { result.aborted.items ≡ [] }
    {
        SlaveFaults {
            silent: NodeSet::empty(),
            dying: NodeSet::empty(),
            wrong: Vec::new(alloc),
            aborted: Vec::new(alloc),
        }
    }

    /// The slave of this node; none where the node is silent or isn't listed.
    pub fn slave_of(&self, network: &Network, id: NodeId) -> Option<SimSlave>
        ensures { result ≡ slave_given network.now self.now id }
    {
        if self.silent.contains(id) {
            return None;
        }
        let entry = network.entry(id)?;
        let agreeing = SimSlave::agreeing(network, id)?;
        let slave = wrong_with(self.wrong.as_slice(), id, agreeing);
        Some(aborting(self.aborted.as_slice(), id, entry.writes.as_slice(), slave))
    }

    /// Whether the node has a wrong value.
    fn is_wrong(&self, id: NodeId) -> bool
        ensures { result ≡ list_any (λ w. w.id == id) self.now.wrong.items }
    {
        self.wrong.as_slice().iter().any(|one| one.id == id)
    }

    /// Whether the node aborts an object.
    fn aborts(&self, id: NodeId) -> bool
        ensures { result ≡ list_any (λ a. a.id == id) self.now.aborted.items }
    {
        self.aborted.as_slice().iter().any(|one| one.id == id)
    }

    /// Whether it is said of the node that it dies, is wrong or aborts.
    fn names(&self, id: NodeId) -> bool
        ensures { result ≡ names self.now id }
    {
        self.dying.contains(id) || self.is_wrong(id) || self.aborts(id)
    }

    /// The node of this number, if it dies, is wrong or aborts, and isn't listed.
    fn unlisted_at(&self, network: &Network, number: u8) -> Option<NodeId>
        requires { IsNodeId number }
        ensures none { IfNone result (is_unlisted network.now self.now number ≡ false) }
        ensures some { IfSome result
            (λ id. (id ≡ number) × (is_unlisted network.now self.now number ≡ true)) }
    {
        let id = NodeId::new(number)?;
        if self.names(id) && !network.listed(id) {
            Some(id)
        } else {
            None
        }
    }

    /// The first node that dies, is wrong or aborts, and isn't listed. One that is silent needn't be listed: it gives no answer.
    pub fn unlisted(&self, network: &Network) -> Option<NodeId>
        ensures none { IfNone result (AreListed network.now self.now) }
        ensures first { IfSome result (IsFirstUnlisted network.now self.now) }
    {
        for number in 1..128u8 {
            if let Some(id) = self.unlisted_at(network, number) {
                return Some(id);
            }
        }
        None
    }
}
