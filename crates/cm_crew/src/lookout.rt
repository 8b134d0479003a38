//! Whether the boots of a live run are reported.
use cm_bus::{LiveBus, Port};
use cm_nmt::NodeId;
use cm_receiving::BusName;
use cm_run::Lookout;
use std::sync::atomic::{AtomicBool, Ordering};

/// A boot is reported unless its slave has booted up since it began, as another device may have taken its place, and until the run
/// is over, so that no slave is started behind its end.
#[derive(Drop)]
pub struct UntilOver<'o> {
    over: &'o AtomicBool,
}

impl<'o> UntilOver<'o> {
    /// The run is over once this is set.
    pub fn new(over: &'o AtomicBool) -> UntilOver<'o> {
        UntilOver { over }
    }
}

impl<'o, 'n, B: BusName, P: Port<B>> Lookout<LiveBus<'n, B, P>> for UntilOver<'o> {
    ghost use Rattle.cm_bus.specs.Receiving.{EndsBoot};

    ghost looks = { λ b i x c. EndsBoot b c };

    fn is_reported(&mut self, bus: &mut LiveBus<'n, B, P>, id: NodeId) -> bool {
        let has_booted_up = bus.has_booted_up(id);
        bus.end_boot();
        !has_booted_up && !self.over.load(Ordering::SeqCst)
    }
}
