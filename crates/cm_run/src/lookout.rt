ghost use Rattle.std.specs.Prelude.{ℕ, Bool};

use cm_boot::Bus;
use cm_nmt::NodeId;

/// Who says, behind the questions of a boot, whether it is reported: where the run ends meanwhile, or the slave has booted up
/// since, no report is made, so that no slave is started by it.
pub trait Lookout<B: Bus> {
    /// What is said over this bus: the bus before, the node-ID, whether the boot is reported, the bus after.
    ghost looks: { B → ℕ → Bool → B → Type 0 };

    /// Whether the boot of this node is reported, once its questions were asked.
    fn is_reported(&mut self, bus: &mut B, id: NodeId) -> bool
        ensures { looks bus.old id result bus.new };
}

/// Every boot is reported.
#[derive(Clone, Copy, Debug, PartialEq, Eq)]
pub struct ReportsAll;

impl<B: Bus> Lookout<B> for ReportsAll {
    ghost use Rattle.cm_run.specs.Rounds.{AllReported};

    ghost looks = { AllReported };

    fn is_reported(&mut self, _bus: &mut B, _id: NodeId) -> bool {
        true
    }
}
