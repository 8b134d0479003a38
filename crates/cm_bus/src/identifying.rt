//! What a device says that it is, asked over any bus.
ghost use Rattle.std.specs.Prelude.{◌≡◌, IfNone, IfSome};
ghost use Rattle.cm_bus.specs.Identifying.{Identifies, IsNobody, Reads, value_in};

use cm_boot::{Answer, Bus, Question};
use cm_nmt::NodeId;

/// What a device says that it is (CiA 301). A value of 1018h that it doesn't give is 0.
#[derive(Clone, Copy, Debug, PartialEq, Eq)]
pub struct Identity {
    /// 1000h, device type.
    pub device_type: u32,
    /// 1018h sub 1, vendor-ID.
    pub vendor: u32,
    /// 1018h sub 2, product code.
    pub product: u32,
    /// 1018h sub 3, revision number.
    pub revision: u32,
    /// 1018h sub 4, serial number.
    pub serial: u32,
}

/// The value of an answer, 0 where it has none.
fn value_in(answer: Answer) -> u32
    ensures { result ≡ value_in answer }
{
    match answer {
        Answer::Value(value) => value,
        _ => 0,
    }
}

/// The value of an object, 0 where none is answered.
fn read<B: Bus>(bus: &mut B, id: NodeId, index: u16, sub: u8) -> u32
    ensures { Reads (λ b q x c. B.step b id q x c) bus.old index sub result bus.new }
{
    value_in(bus.ask(id, Question::Read(index, sub)))
}

/// Asks a device what it is: its device type, and where that is answered each value of its identity. `None` where no value of 1000h
/// is the answer. At most five questions are asked; nothing is written to the device.
pub fn identify<B: Bus>(bus: &mut B, id: NodeId) -> Option<Identity>
    ensures some { IfSome result (λ i. Identifies (λ b q x c. B.step b id q x c) bus.old i bus.new) }
    ensures none { IfNone result (IsNobody (λ b q x c. B.step b id q x c) bus.old bus.new) }
{
    let Answer::Value(device_type) = bus.ask(id, Question::Read(0x1000, 0)) else {
        return None;
    };
    let vendor = read(bus, id, 0x1018, 1);
    let product = read(bus, id, 0x1018, 2);
    let revision = read(bus, id, 0x1018, 3);
    let serial = read(bus, id, 0x1018, 4);
    Some(Identity {
        device_type,
        vendor,
        product,
        revision,
        serial,
    })
}
