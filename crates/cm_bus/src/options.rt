//! How a bus is talked over, and how a network is booted and watched over it.

use cm_can::Format;

/// How a bus is talked over.
#[derive(Clone, Copy)]
pub struct BusOptions {
    /// How many workers ask over it, 1 to 16.
    pub workers: u8,
    /// How long an SDO answer or a guard answer is waited for, in ms.
    pub answer_ms: u32,
    /// In what lines frames come and go.
    pub format: Format,
}

/// How `canboot live` boots and watches a network.
#[derive(Clone, Copy)]
pub struct LiveOptions {
    /// How the bus is talked over; its workers boot slaves.
    pub bus: BusOptions,
    /// How often a slave is tried at most, 1 to 10.
    pub attempts: u8,
    /// How long boot-up messages are waited for behind a reset, in ms.
    pub settle_ms: u32,
    /// How often the manager sends its own heartbeat, in ms, 10 or more; 0: it sends none (CiA 301, 1017h).
    pub heartbeat_ms: u16,
    /// How long the run goes on behind the end of what the operator types, in seconds; none: until it ends otherwise.
    pub seconds: Option<u32>,
}
