//! What a watch sends for error control, and which error control messages count (CiA 301).

ghost use Rattle.std.specs.Prelude.{◌≡◌, ◌<◌, ◌^◌, ◌++◌, ℕ, IfOk, OnErr};
ghost use Rattle.cm_watch.specs.ErrorControl.{error_control_at};
ghost use Rattle.cm_watched.specs.Guarding.{heard_at};
ghost use Rattle.cm_watch.specs.Limits.{AreLimited};
ghost use Rattle.cm_watched.specs.Pasts.{Past};
ghost use Rattle.cm_watch.specs.Steps.{given};
ghost use Rattle.cm_watch.specs.Watches.{Watches, counts_by, error_control_by, is_guard_due_by};
ghost use Rattle.cm_watched.specs.declared.settings.Settings.{Settings as WatchSettings};

use crate::watch::{Kind, Watch};
use cm_netlist::Network;
use cm_nmt::NodeId;
use cm_watched::{
    Happening, Moment, Step, beat_byte, counts_for, guard_of, is_asked_again, is_beat_due,
};
use std::alloc::{AllocError, Global};

impl Watch {
    /// Whether an error control message of the node with this byte counts.
    fn counts(&self, network: &Network, id: NodeId, byte: u8) -> bool
        ensures { result ≡ counts_by self.now network.now id byte }
    {
        let slave = self.slave(id);
        counts_for(guard_of(network, id), slave.booted, slave.toggle, byte)
    }

    /// An error control message of the node came then, with this byte. It counts as heard, but where the node is a booted slave
    /// that is guarded, and the message is an answer whose toggle bit isn't the next one (CiA 301, node guarding): then nothing
    /// was heard.
    pub fn hear(&mut self, network: &Network, now_ms: u64, id: NodeId, byte: u8)
        requires { now_ms < 2 ^ 63 }
        ensures { (s : WatchSettings) (past : Past) → Watches self.old network.now s past
            → Watches self.new network.now s (heard_at network.now past now_ms id byte ++ past) }
    {
        let _in_range = id.get();
        if self.counts(network, id, byte) {
            let heard = Moment::Happened(Happening::Heard(id, byte));
            self.note(network, now_ms, &heard);
        }
    }

    /// Whether the slave is to be asked for its state now.
    pub(crate) fn is_guard_due(&self, network: &Network, now: u64, id: NodeId) -> bool
        ensures { result ≡ is_guard_due_by self.now network.now now id }
    {
        let slave = self.slave(id);
        is_asked_again(guard_of(network, id), now, slave.guarded, slave.booted)
    }

    /// What is to be sent now.
    fn sendings(&self, alloc: Global, network: &Network, now: u64) -> Result<Vec<Step>, AllocError>
        ensures { IfOk result (λ steps. steps.items ≡ error_control_by self.now network.now now) }
    {
        let mut steps = Vec::new(alloc);
        let last = self.course.beat;
        if is_beat_due(self.settings.heartbeat_ms, now, last) {
            steps.push(Step::Beat(beat_byte(last, self.course.own)))?;
        }
        self.add_steps(network, now, Kind::Guard, &mut steps)?;
        Ok(steps)
    }

    /// The steps by which error control is to be sent now: the heartbeat of the manager itself, and the requests for the states
    /// of slaves. They count as given. They don't wait until the input was read, as those of [`Watch::turn`] do. Where
    /// memory is refused nothing is given.
    pub fn error_control(
        &mut self,
        alloc: Global,
        network: &Network,
        now_ms: u64,
    ) -> Result<Vec<Step>, AllocError>
        requires { now_ms < 2 ^ 63 }
        ensures steps { (s : WatchSettings) (past : Past) → Watches self.old network.now s past
            → IfOk result (λ steps. steps.items ≡ error_control_at network.now s past now_ms) }
        ensures given { (s : WatchSettings) (past : Past) → Watches self.old network.now s past
            → IfOk result (λ steps. Watches self.new network.now s (given now_ms steps.items past)) }
        ensures limited { (s : WatchSettings) (past : Past) (i : ℕ) → Watches self.old network.now s past
            → AreLimited network.now s past i
            → IfOk result (λ steps. AreLimited network.now s (given now_ms steps.items past) i) }
        ensures refused { OnErr result (self.new ≡ self.old) }
    {
        let steps = self.sendings(alloc, network, now_ms)?;
        self.give(network, now_ms, steps.as_slice());
        Ok(steps)
    }
}
