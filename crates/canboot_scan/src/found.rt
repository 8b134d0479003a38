//! Devices that were found on a bus.

use cm_nmt::NodeId;

/// A device that was found. A value that it didn't give is 0, by which nothing is compared.
#[derive(Clone, Copy)]
pub struct Found {
    pub id: NodeId,
    /// 1000h.
    pub device_type: u32,
    /// 1018h sub 1.
    pub vendor: u32,
    /// 1018h sub 2.
    pub product: u32,
    /// 1018h sub 3.
    pub revision: u32,
    /// 1018h sub 4.
    pub serial: u32,
}
