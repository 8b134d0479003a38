//! What an object of the object dictionary is to the writes that set a device: whether it is set, and in which order (CiA 301).

ghost use Rattle.std.specs.Prelude.{◌≡◌};
ghost use Rattle.cm_device.specs.FileValues.{is_cob_id, is_count};

use crate::device_file::is_same;

/// What an object is to a PDO.
#[derive(Clone, Copy)]
enum Part {
    None,
    /// A communication parameter.
    Communication,
    /// A mapping parameter.
    Mapping,
}

/// What the object of this index is to a PDO: 1400h to 15FFh and 1800h to 19FFh are communication parameters, 1600h to 17FFh
/// and 1A00h to 1BFFh mapping parameters (CiA 301).
fn part_of(index: u16) -> Part {
    match index / 0x0200 {
        0x0A | 0x0C => Part::Communication,
        0x0B | 0x0D => Part::Mapping,
        _ => Part::None,
    }
}

/// Whether the object is the COB-ID of a PDO.
pub(crate) fn is_cob_id(index: u16, sub: u8) -> bool
    ensures { result ≡ is_cob_id index sub }
{
    (index / 512 == 10 || index / 512 == 12) && sub == 1
}

/// Whether the object is the number of objects that are mapped to a PDO.
pub(crate) fn is_count(index: u16, sub: u8) -> bool
    ensures { result ≡ is_count index sub }
{
    (index / 512 == 11 || index / 512 == 13) && sub == 0
}

/// Whether the object of this index is a mapping of a PDO.
pub(crate) fn is_mapping(index: u16) -> bool {
    matches!(part_of(index), Part::Mapping)
}

/// Whether the object is one that is compared by a boot, or that stores and restores parameters.
pub(crate) fn is_left_out(index: u16) -> bool {
    matches!(index, 0x1000 | 0x1010 | 0x1011 | 0x1018 | 0x1020)
}

/// Whether a value of this access type can be written.
pub(crate) fn is_writable(access: &[u8]) -> bool {
    is_same(access, b"rw")
        || is_same(access, b"wo")
        || is_same(access, b"rww")
        || is_same(access, b"rwr")
}

/// The step of a write of a PDO: its COB-ID off, its mapping cleared, its entries, how many they are, its other
/// parameters, its COB-ID.
pub(crate) fn step_of(index: u16, sub: u8) -> u8 {
    match (part_of(index), sub) {
        (Part::Mapping, 0) => 3,
        (Part::Mapping, _) => 2,
        (Part::Communication, 1) => 5,
        _ => 4,
    }
}

/// The PDO that the object of this index is a parameter of, by the index of its communication parameters.
pub(crate) fn pdo_of(index: u16) -> Option<u16> {
    match part_of(index) {
        Part::None => None,
        Part::Communication | Part::Mapping => Some(index & !0x0200),
    }
}

/// The place of a write among all: PDOs behind other objects, and heartbeats last.
pub(crate) fn rank(index: u16, sub: u8, step: u8) -> u64 {
    let (stage, object) = match (index, pdo_of(index)) {
        (0x1016 | 0x1017, _) => (2, index),
        (_, Some(pdo)) => (1, pdo),
        (_, None) => (0, index),
    };
    ((stage * 0x1_0000 + u64::from(object)) * 0x100 + u64::from(step)) * 0x100 + u64::from(sub)
}
