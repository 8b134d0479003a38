//! What a scan gives, or why it gives nothing.

ghost use Rattle.std.specs.Prelude.{All, IfOk};
ghost use Rattle.canboot_scan.specs.Scanning.{IsHeardDevice};

use crate::device::HeardDevice;
use crate::doubles::Double;
use crate::found::Found;
use cm_bus::NoThread;
use cm_can::BusState;
use cm_receiving::BusName;
use std::alloc::{AllocError, Global};

/// What was told of the bus while its nodes were asked.
#[derive(Clone, Copy)]
pub(crate) struct BusSaid {
    /// Nothing is received any more.
    pub(crate) is_over: bool,
    /// 16 lines were received, and none of them is a frame.
    pub(crate) are_strange: bool,
    /// The interface has said that no other node acknowledges what is sent.
    pub(crate) is_unacknowledged: bool,
    /// The state of the controller that the interface has said last, if it said one.
    pub(crate) state: Option<BusState>,
}

impl BusSaid {
    /// The state of the controller, where it isn't well.
    pub(crate) fn trouble(self) -> Option<BusState> {
        match self.state {
            Some(BusState::Active | BusState::Restarted) => None,
            state => state,
        }
    }
}

/// The devices that were found, in rising order of their node-IDs.
#[derive(Drop)]
pub(crate) struct Scanned {
    pub(crate) found: Vec<Found>,
    /// What each of them is called, no bytes where that isn't known.
    pub(crate) names: Vec<Vec<u8>>,
    /// Two answers of nodes at which two devices answer.
    pub(crate) doubles: Vec<Double>,
    /// What was told of the bus.
    pub(crate) said: BusSaid,
}

/// Why a scan gives nothing.
#[derive(Clone, Copy)]
pub(crate) enum NoScan {
    /// Memory was refused.
    OutOfMemory,
    /// A thread was refused.
    NoWorker,
    /// Nothing could be received any more, before all nodes were asked.
    NotHeard,
    /// A frame couldn't be sent.
    NotWritten,
    /// The controller takes no part in the bus any more.
    BusOff,
}

impl From<AllocError> for NoScan {
    fn from(_error: AllocError) -> NoScan {
        NoScan::OutOfMemory
    }
}

impl From<NoThread> for NoScan {
    fn from(none: NoThread) -> NoScan {
        match none {
            NoThread::OutOfMemory => NoScan::OutOfMemory,
            NoThread::Refused => NoScan::NoWorker,
        }
    }
}

/// Two answers of each node at which two devices answer.
fn doubles_of<B: BusName>(
    alloc: Global,
    devices: &[HeardDevice<B>],
) -> Result<Vec<Double>, AllocError> {
    let mut doubles = Vec::new(alloc);
    for device in devices {
        if let Some(double) = device.double() {
            doubles.push(double)?;
        }
    }
    Ok(doubles)
}

/// These devices in rising order of their node-IDs.
pub(crate) fn in_order<B: BusName>(
    alloc: Global,
    devices: Vec<HeardDevice<B>>,
    said: BusSaid,
) -> Result<Scanned, AllocError>
    ensures { IfOk result (λ s. All (IsHeardDevice B.format B.text) s.found.items) }
{
    let mut devices = devices;
    devices.sort_by_key(|device| device.node())?;
    let mut found = Vec::new(alloc);
    let mut names = Vec::new(alloc);
    for device in devices.as_slice() {
        found.push(device.found())?;
        names.push(Vec::from_slice(alloc, device.name())?)?;
    }
    let doubles = doubles_of(alloc, devices.as_slice())?;
    Ok(Scanned {
        found,
        names,
        doubles,
        said,
    })
}
