//! The devices that were found on a bus as a network list in TOML.

use crate::found::Found;
use crate::profile::profile_words;
use cm_netlist::{put_comment, put_identity, put_key};
use cm_nmt::NodeId;
use std::io::{self, Write};

/// Writes the device type, and in a comment what its profile is about, where that is wanted and known.
fn put_device_type<W: Write>(device_type: u32, with_profiles: bool, out: &mut W) -> io::Result<()> {
    if !with_profiles || device_type == 0 {
        return put_key("device_type", device_type, out);
    }
    match profile_words(device_type) {
        Some((number, words)) => writeln!(
            out,
            "device_type = 0x{device_type:08X}  # CiA {number}, {words}"
        ),
        None => put_key("device_type", device_type, out),
    }
}

/// Writes a device as a slave that is booted, with its values as the expected ones; its name stands in a comment.
fn put_device<W: Write>(
    found: &Found,
    name: &[u8],
    with_profiles: bool,
    out: &mut W,
) -> io::Result<()> {
    out.write_all(b"\n[[slave]]")?;
    put_comment(name, out)?;
    writeln!(out, "id = {}\nassignment = 0x00000005", found.id.get())?;
    put_device_type(found.device_type, with_profiles, out)?;
    put_identity(found.vendor, found.product, found.revision, out)?;
    put_key("serial", found.serial, out)
}

/// Writes the network list of these devices, with what is known of their names.
pub(crate) fn put_found<W: Write>(
    own: NodeId,
    all: &[Found],
    names: &[Vec<u8>],
    with_profiles: bool,
    out: &mut W,
) -> io::Result<()> {
    writeln!(out, "own = {}\nstartup = 0x00000001", own.get())?;
    for (place, found) in all.iter().enumerate() {
        let name = match names.get(place) {
            Some(name) => name.as_slice(),
            None => b"",
        };
        put_device(found, name, with_profiles, out)?;
    }
    Ok(())
}
