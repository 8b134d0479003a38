//! A device that was heard on a bus.

ghost use Rattle.std.specs.Prelude.{◌≡◌, IfSome};
ghost use Rattle.canboot_scan.specs.Scanning.{IsHeardDevice, found_of};

use crate::device_name::{DeviceName, NameTalk};
use crate::doubles::{Double, DoubleTalk};
use crate::found::Found;
use cm_bus::{Identity, LiveBus, Port, identify};
use cm_nmt::NodeId;
use cm_receiving::BusName;
use std::marker::{Model, PhantomData};

/// A device each of whose values was heard among the frames that were received on the bus that `B` names, in their order. Contracts
/// see what was found, but for its name.
#[derive(Drop)]
pub(crate) struct HeardDevice<B: BusName> {
    found: Found,
    /// No bytes where it isn't known.
    name: DeviceName,
    /// Two answers to one question, where another device answers at its node-ID too.
    double: Option<Double>,
    of: PhantomData<B>,
}

impl<B: BusName> Model for HeardDevice<B> {
    ghost use Rattle.canboot_scan.specs.Scanning.{IsHeardDevice};
    ghost use Rattle.canboot_scan.specs.declared.found.Found.{Found as FoundDevice};

    ghost Value = { FoundDevice };

    ghost view = { λ d. d.found };

    ghost invariant = { λ d. IsHeardDevice B.format B.text d.found };
}

/// A device of this identity.
fn found_as(id: NodeId, identity: &Identity) -> Found
    ensures { result ≡ found_of id identity.now }
{
    Found {
        id,
        device_type: identity.device_type,
        vendor: identity.vendor,
        product: identity.product,
        revision: identity.revision,
        serial: identity.serial,
    }
}

impl<B: BusName> HeardDevice<B> {
    /// A device of which that is known.
    fn of(found: Found, name: DeviceName, double: Option<Double>) -> HeardDevice<B>
        requires { IsHeardDevice B.format B.text found }
        ensures { result ≡ found }
    {
        HeardDevice {
            found,
            name,
            double,
            of: PhantomData,
        }
    }

    /// What was found.
    pub(crate) fn found(&self) -> Found
        ensures same { result ≡ self.now }
        ensures heard { IsHeardDevice B.format B.text result }
    {
        self.found
    }

    /// Its name up to the first zero, no bytes where it isn't known.
    pub(crate) fn name(&self) -> &[u8] {
        let name = self.name.as_slice();
        match name.iter().position(|byte| *byte == 0) {
            Some(end) => &name[..end],
            None => name,
        }
    }

    /// Two answers to one question, where another device answers at its node-ID too.
    pub(crate) fn double(&self) -> Option<Double> {
        self.double
    }

    /// Its node-ID as a number.
    pub(crate) fn node(&self) -> u8 {
        self.found.id.get()
    }
}

/// Asks a node what it is, its name, and whether another device answers there too; `None` where it gives no device type.
pub(crate) fn hear_device<'n, B: BusName, P: Port<B>>(
    bus: &mut LiveBus<'n, B, P>,
    id: NodeId,
) -> Option<HeardDevice<B>>
    ensures { IfSome result (λ d. d.id ≡ id) }
{
    bus.end_boot();
    let identity = identify(bus, id)?;
    let mut talk = NameTalk {
        node: id,
        name: DeviceName::new(),
    };
    bus.talk(&mut talk);
    let mut again = DoubleTalk {
        node: id,
        double: None,
    };
    bus.talk(&mut again);
    Some(HeardDevice::of(found_as(id, &identity), talk.name, again.double))
}
