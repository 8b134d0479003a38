//! What is received of a bus.
ghost use Rattle.std.specs.Prelude.{◌≡◌, ◌+◌, ◌<◌, ◌^◌, ◌∷◌, [], IfNone, IfSome, length};
ghost use Rattle.cm_can.specs.declared.frame.CanFrame.{CanFrame as Frame};
ghost use Rattle.cm_can.specs.Frames.{data_of};
ghost use Rattle.cm_can.specs.Lines.{AreBytes};
ghost use Rattle.cm_can.specs.declared.can_error.CanError.{CanError as Error};
ghost use Rattle.cm_receiving.specs.Places.{IsErrorIn, IsFrameLine};
ghost use Rattle.cm_receiving.specs.Cutting.{ComeNext, IsLeft};

use crate::boot_ups::BootUps;
use crate::bus_name::BusName;
use crate::heard_remark::HeardRemark;
use crate::line_counter::LineCounter;
use crate::notification::Notification;
use crate::received::Received;
use crate::routes::Routes;
use crate::strangers::Strangers;
use cm_can::{CanError, CanFrame, Format, read_adapter_line, read_error_line, read_log_line};
use std::io::Read;
use std::marker::{Model, PhantomData};
use std::sync::Wait;
use std::time::Clock;

/// How many reads there are at most: no input has so many.
pub const MOST_READS: u64 = 1 << 50;

/// Reads a line as a frame.
fn read_line(format: Format, line: &[u8]) -> Option<CanFrame>
    ensures some { IfSome result (IsFrameLine format line.now) }
    ensures none { IfNone result ((f : Frame) → AreBytes (data_of f) → IsFrameLine format line.now f → ⊥) }
{
    match format {
        Format::CanUtils => read_log_line(line),
        Format::Adapter => read_adapter_line(line),
    }
}

/// Reads a line as an error frame. A serial adapter writes none.
fn read_error(format: Format, line: &[u8]) -> Option<CanError>
    ensures some { IfSome result (IsErrorIn format line.now) }
    ensures none { IfNone result ((e : Error) → IsErrorIn format line.now e → ⊥) }
{
    match format {
        Format::CanUtils => read_error_line(line),
        Format::Adapter => None,
    }
}

/// What the end of a line brings.
#[derive(Drop)]
pub enum ReceivedLine<B: BusName> {
    /// A frame, with its place.
    Frame(Received<B>),
    /// What the interface says of the bus.
    Error(HeardRemark<B>),
}

/// Cuts what is received into frames, each with its place and the last from which on another device may be its node. Contracts
/// see how many bytes it has taken.
#[derive(Drop)]
pub struct FrameCutter<B: BusName> {
    lines: LineCounter,
    boot_ups: BootUps<B>,
    format: Format,
    of: PhantomData<B>,
}

impl<B: BusName> Model for FrameCutter<B> {
    ghost use Rattle.std.specs.Prelude.{◌≡◌, ℕ, List, Some};
    ghost use Rattle.cm_receiving.specs.Cutting.{IsCounting};

    ghost Value = { ℕ };

    ghost view = { λ c. c.lines.taken };

    ghost invariant = { λ c. (c.format ≡ B.format)
        × (c.boot_ups ≡ c.lines.taken)
        × ((t : List ℕ) → B.text ≡ Some t → IsCounting t c.lines) };
}

impl<B: BusName> FrameCutter<B> {
    /// Nothing was received yet.
    pub fn new(format: Format) -> FrameCutter<B>
        requires { format ≡ B.format }
        ensures { result ≡ 0 }
    {
        FrameCutter {
            lines: LineCounter::new(),
            boot_ups: BootUps::new(),
            format,
            of: PhantomData,
        }
    }

    /// Takes the next byte, and gives the frame whose line it ends, or what the interface says in that line.
    pub fn take(&mut self, byte: u8) -> Option<ReceivedLine<B>>
        requires room { self.old < 2 ^ 63 }
        requires next { ComeNext B.text self.old (byte ∷ []) }
        ensures { self.new ≡ self.old + 1 }
    {
        let Some(place) = self.lines.take(byte) else {
            self.boot_ups.pass();
            return None;
        };
        let Some(frame) = read_line(self.format, self.lines.line()) else {
            self.boot_ups.pass();
            let error = read_error(self.format, self.lines.line())?;
            return Some(ReceivedLine::Error(HeardRemark::error(place, error)));
        };
        self.boot_ups.hear(&frame);
        let since = self.boot_ups.since(&frame);
        Some(ReceivedLine::Frame(Received::new(place, frame, since)))
    }
}

/// Gives what was heard to all that it is for.
fn give<B: BusName, R: Wait + Clock>(rt: &R, heard: ReceivedLine<B>, routes: &Routes<B>) {
    match heard {
        ReceivedLine::Frame(received) => routes.take(rt, received),
        ReceivedLine::Error(error) => routes.say(rt, Some(error)),
    }
}

/// Takes the frames of these bytes, which come next. Where 16 lines were read, and no frame, that is told.
fn take_bytes<B: BusName, R: Wait + Clock>(
    rt: &R,
    bytes: &[u8],
    cutter: &mut FrameCutter<B>,
    strangers: &mut Strangers,
    routes: &Routes<B>,
)
    requires room { cutter.old + length bytes.now < 2 ^ 63 }
    requires next { ComeNext B.text cutter.old bytes.now }
    ensures { cutter.new ≡ cutter.old + length bytes.now }
{
    for byte in bytes {
        let heard = cutter.take(*byte);
        if strangers.take(*byte, heard.is_some()) {
            let _ = routes.notifications.send(rt, Notification::NoFrames);
        }
        if let Some(heard) = heard {
            give(rt, heard, routes);
        }
    }
}

/// Reads lines of frames to the end of the input, and gives each frame to all that it is for. How many bytes were
/// read is noted before any frame of them is given.
fn receive_from<B: BusName, R: Wait + Clock, I: Read>(
    rt: &R,
    input: &mut I,
    cutter: &mut FrameCutter<B>,
    routes: &Routes<B>,
)
    requires first { cutter.old ≡ 0 }
    requires left { IsLeft B.text cutter.old (I.remaining input.old) }
    ensures { IsLeft B.text cutter.new (I.remaining input.new) }
{
    let mut block = [0u8; 4096];
    let mut read = 0u64;
    let mut strangers = Strangers::new();
    for _turn in 0..MOST_READS {
        let count = match input.read(&mut block) {
            Ok(0) | Err(_) => return,
            Ok(count) => count,
        };
        read += count as u64;
        routes.listening.note_received(read);
        take_bytes(rt, &block[..count], cutter, &mut strangers, routes);
    }
}

/// Where the frames of a bus are received: a reader that holds what the bus's name says.
#[derive(Drop)]
pub struct Source<B: BusName, I: Read + Drop> {
    input: I,
    format: Format,
    of: PhantomData<B>,
}

impl<B: BusName, I: Read + Drop> Model for Source<B, I> {
    ghost use Rattle.std.specs.Prelude.{◌≡◌};
    ghost use Rattle.cm_can.specs.declared.format.Format.{Format as Lines};

    ghost Value = { Lines };

    ghost view = { λ s. s.format };

    ghost invariant = { λ s. (s.format ≡ B.format) × (I.remaining s.input ≡ B.text) };
}

impl<B: BusName, I: Read + Drop> Source<B, I> {
    /// The reader of the bus that `B` names.
    pub fn new(input: I, format: Format) -> Source<B, I>
        requires format { format ≡ B.format }
        requires text { I.remaining input ≡ B.text }
        ensures { result ≡ format }
    {
        Source {
            input,
            format,
            of: PhantomData,
        }
    }

    /// Reads lines of frames to the end of the input, and gives each frame to all that it is for. Lines of no
    /// frame are passed over; behind 16 of them, with no frame before, that is told.
    pub fn receive<R: Wait + Clock>(self, rt: &R, routes: &Routes<B>) {
        let Source {
            mut input,
            format,
            of: _,
        } = self;
        let mut cutter = FrameCutter::<B>::new(format);
        receive_from(rt, &mut input, &mut cutter, routes);
        let _ = routes.notifications.send(rt, Notification::NoMoreHeard);
    }
}
