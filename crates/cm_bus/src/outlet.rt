ghost use Rattle.std.specs.Prelude.{◌≡◌, ◌+◌, ◌≤◌, ◌++◌, false, IsFalse, IsTrue, length};
ghost use Rattle.arrayvec.specs.ArrayVec.{array_vec_len};
ghost use Rattle.cm_bus.specs.Outlets.{IsLine, Writes, WritesFront, adapter_line, log_line};

use arrayvec::ArrayVec;
use cm_can::{CanFrame, Format, adapter_text, frame_text};
use cm_text::put_front;
use std::io::Write;

/// Where frames are written, each in a line of its own, by one write, and at once. Once a write has failed, nothing
/// more is written: the first bytes of that frame's line are the last.
#[derive(Drop)]
pub struct Outlet<W: Write + Drop> {
    writer: W,
    format: Format,
    failed: bool,
}

/// Puts bytes behind those of a line.
fn add(line: &mut ArrayVec<u8, 64>, bytes: &[u8])
    requires { array_vec_len line.old + length bytes.now ≤ 64 }
    ensures items { line.new.items ≡ line.old.items ++ bytes.now }
    ensures len { array_vec_len line.new ≡ array_vec_len line.old + length bytes.now }
{
    let _ = line.try_extend_from_slice(bytes);
}

/// A line of can-utils.
fn log_line_of(text: &[u8]) -> ArrayVec<u8, 64>
    requires { length text.now ≤ 32 }
    ensures { result.items ≡ log_line text.now }
{
    let mut line = ArrayVec::new();
    add(&mut line, b"(0000000000.000000) can0 ");
    add(&mut line, text);
    line.push(b'\n');
    line
}

/// A line of a serial adapter.
fn adapter_line_of(text: &[u8]) -> ArrayVec<u8, 64>
    requires { length text.now ≤ 32 }
    ensures { result.items ≡ adapter_line text.now }
{
    let mut line = ArrayVec::new();
    add(&mut line, text);
    line.push(b'\r');
    line
}

/// The line of a frame.
fn line_of(format: Format, frame: &CanFrame) -> ArrayVec<u8, 64>
    ensures { IsLine format frame.now result.items }
{
    match format {
        Format::CanUtils => log_line_of(frame_text(frame).as_slice()),
        Format::Adapter => adapter_line_of(adapter_text(frame).as_slice()),
    }
}

impl<W: Write + Drop> Outlet<W> {
    /// An outlet to this writer, to which nothing was written by it.
    pub fn new(writer: W, format: Format) -> Outlet<W>
        ensures { result ≡ record { writer = writer; format = format; failed = false } }
    {
        Outlet {
            writer,
            format,
            failed: false,
        }
    }

    /// Writes a frame, in its line. Where that fails, the first bytes of the line were written, and nothing else.
    pub(crate) fn send(&mut self, frame: &CanFrame)
        ensures written { IsFalse self.new.failed
            → Writes self.old.format frame.now (W.contents self.old.writer) (W.contents self.new.writer) }
        ensures front { IsFalse self.old.failed
            → WritesFront self.old.format frame.now (W.contents self.old.writer) (W.contents self.new.writer) }
        ensures stopped { IsTrue self.old.failed → self.new ≡ self.old }
        ensures format { self.new.format ≡ self.old.format }
    {
        if self.failed {
            return;
        }
        let line = line_of(self.format, frame);
        if !put_front(&mut self.writer, line.as_slice()) {
            self.failed = true;
        }
    }

    /// Whether a write has failed.
    pub fn has_failed(&self) -> bool
        ensures { result ≡ self.now.failed }
    {
        self.failed
    }
}
