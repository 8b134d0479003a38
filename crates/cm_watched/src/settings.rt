/// What a watch goes by beside the network list.
#[derive(Clone, Copy)]
pub struct Settings {
    /// How long the boot-up message of a slave is waited for behind a reset, in ms.
    pub settle_ms: u32,
    /// How often the manager sends its own heartbeat, in ms; 0: it sends none (CiA 301, 1017h).
    pub heartbeat_ms: u16,
}
