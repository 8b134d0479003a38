//! The files of a bus.

ghost use Rattle.std.specs.Prelude.{◌≡◌, IfOk, vec_len};
ghost use Rattle.cm_bus.specs.Opening.{channel_closing, channel_opening, format_of};

use crate::bus_paths::BusPaths;
use cm_can::Format;
use std::alloc::Global;
use std::fs::{self, File, OpenOptions};
use std::io::{self, BufWriter, ErrorKind};
use std::rt::Files;

/// In what lines the frames of a bus come and go.
pub fn format_of(bus: &BusPaths<'_>) -> Format
    ensures { result ≡ format_of bus.now }
{
    match bus {
        BusPaths::CanUtils { .. } => Format::CanUtils,
        BusPaths::Adapter { .. } => Format::Adapter,
    }
}

/// Why a bus can't be opened.
#[derive(Clone, Copy)]
pub struct Unopened<'a> {
    /// The path of the file that can't be opened.
    pub path: &'a str,
    /// Why it can't.
    pub kind: ErrorKind,
}

/// Opens where frames are read, and where they are written.
fn open_both<'a, R: Files<File = File>>(
    rt: &R,
    receive: &'a str,
    send: &'a str,
) -> Result<(File, File), Unopened<'a>> {
    let received = match fs::open(rt, receive) {
        Ok(file) => file,
        Err(error) => {
            return Err(Unopened {
                path: receive,
                kind: error.kind(),
            });
        }
    };
    match OpenOptions::new().write(true).open(rt, send) {
        Ok(sent) => Ok((received, sent)),
        Err(error) => Err(Unopened {
            path: send,
            kind: error.kind(),
        }),
    }
}

/// Opens a serial adapter.
fn open_adapter<R: Files<File = File>>(rt: &R, device: &str) -> io::Result<(File, File)> {
    let sent = OpenOptions::new().read(true).write(true).open(rt, device)?;
    let received = sent.try_clone()?;
    Ok((received, sent))
}

/// Opens a bus: where frames are read, and where they are written. The answer is else which of its files can't be opened, and why.
pub fn open_bus<'a, R: Files<File = File>>(
    rt: &R,
    bus: &BusPaths<'a>,
) -> Result<(File, File), Unopened<'a>> {
    match bus {
        BusPaths::CanUtils { receive, send } => open_both(rt, *receive, *send),
        BusPaths::Adapter { device } => match open_adapter(rt, *device) {
            Ok(opened) => Ok(opened),
            Err(error) => Err(Unopened {
                path: *device,
                kind: error.kind(),
            }),
        },
    }
}

/// What opens the channel of a serial adapter, whose bit rate was set before; nothing else has one. What it answers is no frame.
pub fn channel_opening(format: Format) -> &'static [u8]
    ensures { result.now ≡ channel_opening format }
{
    match format {
        Format::CanUtils => b"",
        Format::Adapter => b"O\r",
    }
}

/// What closes it.
pub fn channel_closing(format: Format) -> &'static [u8]
    ensures { result.now ≡ channel_closing format }
{
    match format {
        Format::CanUtils => b"",
        Format::Adapter => b"C\r",
    }
}

/// Writers to one file, this many.
pub fn writers_to(alloc: Global, file: &File, count: u8) -> io::Result<Vec<BufWriter<File>>>
    ensures { IfOk result (λ writers. vec_len writers ≡ count) }
{
    let mut writers = Vec::new(alloc);
    for _writer in 0..count {
        writers.push(BufWriter::new(alloc, file.try_clone()?)?)?;
    }
    Ok(writers)
}
