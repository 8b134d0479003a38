//! How the devices on a bus differ from a network list, as lines and as a JSON object.

use crate::difference::Difference;
use crate::found::Found;
use cm_telling::Compared;
use std::io::{self, Write};

/// Writes a line for each difference, or one that says how many slaves are listed, where there is none.
pub(crate) fn put_lines<O: Write>(
    differences: &[Difference],
    slaves: usize,
    out: &mut O,
) -> io::Result<()> {
    if differences.is_empty() {
        writeln!(out, "ok slaves {slaves}")?;
    }
    for difference in differences {
        writeln!(out, "{difference}")?;
    }
    out.flush()
}

/// Writes the object of a device that isn't listed.
fn put_unknown<O: Write>(found: &Found, out: &mut O) -> io::Result<()> {
    let (node, device_type) = (found.id.get(), found.device_type);
    let (vendor, product) = (found.vendor, found.product);
    let (revision, serial) = (found.revision, found.serial);
    write!(
        out,
        r#"{{"node":{node},"is":"unknown","device_type":"{device_type:08X}","#
    )?;
    write!(out, r#""vendor":"{vendor:08X}","product":"{product:08X}","#)?;
    write!(
        out,
        r#""revision":"{revision:08X}","serial":"{serial:08X}"}}"#
    )
}

/// The key of the network list under which a value stands.
fn key_of(value: Compared) -> &'static str {
    match value {
        Compared::DeviceType => "device_type",
        Compared::VendorId => "vendor",
        Compared::ProductCode => "product",
        Compared::RevisionNumber => "revision",
        Compared::SerialNumber => "serial",
    }
}

/// Writes the object of a value that isn't the expected one.
fn put_other<O: Write>(
    node: u8,
    value: Compared,
    expected: u32,
    found: u32,
    out: &mut O,
) -> io::Result<()> {
    let key = key_of(value);
    write!(
        out,
        r#"{{"node":{node},"is":"other","key":"{key}","expected":"{expected:08X}","found":"{found:08X}"}}"#
    )
}

/// Writes the object of a difference.
fn put_difference<O: Write>(difference: &Difference, out: &mut O) -> io::Result<()> {
    match difference {
        Difference::Missing(id) => {
            let node = id.get();
            write!(out, r#"{{"node":{node},"is":"missing"}}"#)
        }
        Difference::Unknown(found) => put_unknown(found, out),
        Difference::Other {
            id,
            value,
            expected,
            found,
        } => put_other(id.get(), *value, *expected, *found, out),
    }
}

/// Writes the differences as one JSON object on a line.
pub(crate) fn put_object<O: Write>(
    differences: &[Difference],
    slaves: usize,
    out: &mut O,
) -> io::Result<()> {
    write!(out, r#"{{"slaves":{slaves},"differences":["#)?;
    for (place, difference) in differences.iter().enumerate() {
        if place > 0 {
            out.write_all(b",")?;
        }
        put_difference(difference, out)?;
    }
    out.write_all(b"]}\n")?;
    out.flush()
}
