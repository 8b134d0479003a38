//! A mix of calls of operators and boots, drawn from one seed.

use crate::bench::network::{SLAVES, agreeing, id_at};
use cm_history::{Call, Phase};
use cm_netlist::Network;
use cm_nmt::{Answers, Got, NodeId};
use cm_sequential::Manager;

/// Numbers drawn by xorshift, from one seed.
#[derive(Drop)]
pub struct Random(u64);

impl Random {
    pub fn new() -> Random {
        Random(0x9E37_79B9_7F4A_7C15)
    }

    /// A number below `limit`, which is above 0.
    fn below(&mut self, limit: u32) -> u32 {
        let mut x = self.0;
        x ^= x << 13;
        x ^= x >> 7;
        x ^= x << 17;
        self.0 = x;
        let high = (x >> 32).wrapping_mul(u64::from(limit)) >> 32;
        u32::try_from(high).unwrap_or(0)
    }

    fn node(&mut self) -> Option<NodeId> {
        id_at(self.below(u32::from(SLAVES)) as usize)
    }
}

/// What a boot reports: agreement, or now and then silence.
fn answers(net: &Network, id: NodeId, silent: bool) -> Option<Answers> {
    if silent {
        return Some(Answers {
            device: Got::Silent,
            ..Answers::new()
        });
    }
    Some(agreeing(&net.terms(id)?))
}

fn signal(random: &mut Random, id: NodeId) -> Call {
    match random.below(3) {
        0 => Call::Signal(id, 5),
        1 => Call::Signal(id, 127),
        _ => Call::Signal(id, 4),
    }
}

fn request(random: &mut Random, id: NodeId) -> Call {
    match random.below(3) {
        0 => Call::Request(id.get(), 4),
        1 => Call::Request(id.get(), 5),
        _ => Call::Request(id.get(), 127),
    }
}

/// A call that brings the boot of this slave on.
fn boot(net: &Network, manager: &Manager, random: &mut Random, id: NodeId) -> Option<Call> {
    if let Some(number) = manager.session(id) {
        let silent = manager.phase() == Phase::Ready && random.below(50) == 0;
        return Some(Call::Report(id, number, answers(net, id, silent)?));
    }
    if !manager.booted(id) {
        return Some(Call::Begin(id));
    }
    if manager.phase() == Phase::Booting {
        return Some(Call::Read(id.get()));
    }
    Some(match random.below(4) {
        0 => Call::Lost(id),
        1 => Call::Request(id.get(), 6),
        _ => Call::Signal(id, 0),
    })
}

/// The next call of operators and boots, for this manager.
pub fn next_call(net: &Network, manager: &Manager, random: &mut Random) -> Option<Call> {
    if matches!(manager.phase(), Phase::Idle | Phase::Halted) {
        return Some(Call::StartNetwork);
    }
    let id = random.node()?;
    match random.below(100) {
        0..15 => Some(signal(random, id)),
        15..30 => Some(Call::Read(id.get())),
        30..32 => Some(Call::Elapsed(random.below(60_000))),
        32..38 => Some(request(random, id)),
        38..40 => Some(Call::Begin(id)),
        _ => boot(net, manager, random, id),
    }
}
