//! How the devices on a bus differ from those that a network list has.

use crate::found::Found;
use cm_nmt::NodeId;
use cm_telling::Compared;
use std::fmt;

/// How what was found differs from what is listed.
#[derive(Clone, Copy)]
pub enum Difference {
    /// The slave is listed, and no device was found at its node.
    Missing(NodeId),
    /// A device was found at a node that isn't listed.
    Unknown(Found),
    /// The slave that was found has another value than the expected one.
    Other {
        id: NodeId,
        value: Compared,
        expected: u32,
        found: u32,
    },
}

impl fmt::Display for Difference {
    fn fmt<W: fmt::Write>(&self, f: &mut fmt::Formatter<W>) -> fmt::Result {
        match self {
            Difference::Missing(id) => {
                let node = id.get();
                write!(f, "node {node}: missing")
            }
            Difference::Unknown(found) => {
                let (node, device_type) = (found.id.get(), found.device_type);
                let (vendor, product) = (found.vendor, found.product);
                write!(
                    f,
                    "node {node}: unknown (device type {device_type:08X}, vendor-ID {vendor:08X}, product code {product:08X})"
                )
            }
            Difference::Other {
                id,
                value,
                expected,
                found,
            } => {
                let (node, words) = (id.get(), value.name());
                write!(
                    f,
                    "node {node}: {words} {found:08X}, expected {expected:08X}"
                )
            }
        }
    }
}
