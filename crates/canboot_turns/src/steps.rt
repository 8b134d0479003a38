//! What making a step needs.

ghost use Rattle.std.specs.Prelude.{◌≡◌, IfNone, IfSome, None, length, slice_index_or};
ghost use Rattle.cm_netlist.specs.Workers.{worker_of};
ghost use Rattle.canboot_turns.specs.Steps.{call_for};
ghost use Rattle.cm_crew.specs.Typing.{IsUntyped};

use cm_history::Call;
use cm_netlist::worker_of;
use cm_nmt::NodeId;
use cm_watched::Step;
use crossbeam_channel::Sender;

/// The value of a request that asks a node to enter pre-operational (CiA 302-2, request NMT).
const PRE_OPERATIONAL: u8 = 127;

/// The call that a step is, if it is one: a slave that is woken is asked to enter pre-operational; a boot is handed to a worker, what
/// was left out is told, what is sent for error control is a frame, and the run ends.
pub(crate) fn call_of(step: &Step) -> Option<Call>
    ensures call { result ≡ call_for step.now }
    ensures untyped { IfSome result IsUntyped }
{
    match step {
        Step::Lost(id) => {
            let _in_range = id.get();
            Some(Call::Lost(*id))
        }
        Step::Signal(id, byte) => {
            let _in_range = id.get();
            Some(Call::Signal(*id, *byte))
        }
        Step::Wake(id) => {
            let target = id.get();
            Some(Call::Request(target, PRE_OPERATIONAL))
        }
        Step::TimeOver(ms) | Step::AllTried(ms) => Some(Call::Elapsed(*ms)),
        Step::Boot(_) | Step::LeftOut(_, _) | Step::Beat(_) | Step::Guard(_) | Step::End => None,
    }
}

/// What the worker that boots the slave is told its slaves by.
pub(crate) fn jobs_of<'j>(
    listed: &[NodeId],
    jobs: &'j [Sender<NodeId>],
    id: NodeId,
) -> Option<&'j Sender<NodeId>>
    ensures some { IfSome result (λ j. (d : _) → IfSome (worker_of listed.now (length jobs.now) id)
        (λ worker. j.now ≡ slice_index_or jobs.now worker d)) }
    ensures none { IfNone result (worker_of listed.now (length jobs.now) id ≡ None) }
{
    let worker = worker_of(listed, jobs.len(), id)?;
    Some(&jobs[worker])
}
