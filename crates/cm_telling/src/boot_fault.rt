//! The value by which the boot of a slave came to its status.

ghost use Rattle.std.specs.Prelude.{◌≡◌, slice_get};
ghost use Rattle.cm_telling.specs.BootFaults.{boot_fault, object_name};

use cm_netlist::SlaveEntry;
use cm_nmt::{Answers, Got, Status, Write};

/// What a boot compares with the list (CiA 302-2, 1F84h to 1F88h).
#[derive(Clone, Copy, Debug, PartialEq, Eq)]
pub enum Compared {
    /// Object 1000h, with 1F84h.
    DeviceType,
    /// Object 1018h sub 1, with 1F85h.
    VendorId,
    /// Object 1018h sub 2, with 1F86h.
    ProductCode,
    /// Object 1018h sub 3, with 1F87h.
    RevisionNumber,
    /// Object 1018h sub 4, with 1F88h.
    SerialNumber,
}

impl Compared {
    /// The name of the object.
    pub fn name(self) -> &'static str
        ensures { result.now ≡ object_name self }
    {
        match self {
            Compared::DeviceType => "device type",
            Compared::VendorId => "vendor-ID",
            Compared::ProductCode => "product code",
            Compared::RevisionNumber => "revision number",
            Compared::SerialNumber => "serial number",
        }
    }
}

/// The value by which the boot of a slave came to its status.
#[derive(Clone, Copy, Debug, PartialEq, Eq)]
pub enum BootFault {
    /// An object with another value than the listed one.
    Differs {
        /// Which one.
        object: Compared,
        /// What was found.
        found: Got,
        /// What is listed.
        expected: u32,
    },
    /// A write that failed.
    Write {
        /// The write, if the slave has one at that place.
        write: Option<Write>,
        /// What it got.
        found: Got,
    },
}

/// The write that failed.
fn failed_write(answers: &Answers, entry: &SlaveEntry) -> Option<Write>
    ensures { result ≡ slice_get entry.now.writes.items answers.now.acked }
{
    let place = usize::from(answers.acked);
    entry.writes.as_slice().get(place).copied()
}

impl BootFault {
    /// That by which a boot with these answers came to the status, of a slave of which this is listed.
    #[tactic(auto, unfolding(cm_nmt::specs::Answers::id_of))]
    pub fn of(status: Status, answers: &Answers, entry: &SlaveEntry) -> Option<BootFault>
        ensures { result ≡ boot_fault status answers.now entry.now }
    {
        let ids = &answers.ids;
        let (object, found, expected) = match status {
            Status::C => (Compared::DeviceType, answers.device, entry.device_type),
            Status::D => (Compared::VendorId, ids[0], entry.vendor),
            Status::J => {
                return Some(BootFault::Write {
                    write: failed_write(answers, entry),
                    found: answers.refused,
                });
            }
            Status::M => (Compared::ProductCode, ids[1], entry.product),
            Status::N => (Compared::RevisionNumber, ids[2], entry.revision),
            Status::O => (Compared::SerialNumber, ids[3], entry.serial),
            _ => return None,
        };
        Some(BootFault::Differs {
            object,
            found,
            expected,
        })
    }
}
