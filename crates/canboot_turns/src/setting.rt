//! What a live run is set up with.

use cm_bus::{LiveOptions, Setting};

/// What all threads of a live run share, and how it boots and watches its network.
#[derive(Drop)]
pub struct LiveSetting<'a, 'n, R> {
    /// What threads share that use its bus.
    pub bus: Setting<'a, 'n, R>,
    /// How it goes.
    pub options: LiveOptions,
}
