use crate::Assignment;

/// What is listed of one slave, with the number of its writes in place of their list: all that
/// the outcome of a boot depends on, in a value that is copied.
#[derive(Clone, Copy, Debug, PartialEq, Eq)]
pub struct Terms {
    /// 1F81h, slave assignment.
    pub assignment: Assignment,
    /// 1F84h, the expected device type.
    pub device_type: u32,
    /// 1F85h, the expected vendor-ID.
    pub vendor: u32,
    /// 1F86h, the expected product code.
    pub product: u32,
    /// 1F87h, the expected revision number.
    pub revision: u32,
    /// 1F88h, the expected serial number.
    pub serial: u32,
    /// The time in milliseconds in which a heartbeat has to come.
    pub heartbeat_ms: u16,
    /// 1F26h, the expected configuration date.
    pub date: u32,
    /// 1F27h, the expected configuration time.
    pub time: u32,
    /// The number of writes.
    pub writes: u8,
}
