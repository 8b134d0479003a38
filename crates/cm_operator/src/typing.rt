//! What an operator types, and whom it is told.
ghost use Rattle.std.specs.Prelude.{◌≡◌, ◌+◌, ◌<◌, ◌^◌, ◌∷◌, [], length};
ghost use Rattle.cm_receiving.specs.Cutting.{ComeNext, IsLeft};

use crate::typed_line::TypedLine;
use cm_receiving::{BusName, LineCounter, MOST_READS, Notification};
use crossbeam_channel::Sender;
use std::io::Read;
use std::marker::{Model, PhantomData};
use std::sync::Wait;

/// Cuts what is typed into lines, each with its place. Contracts see how many bytes it has taken.
#[derive(Drop)]
pub struct TypedCutter<B: BusName> {
    lines: LineCounter,
    of: PhantomData<B>,
}

impl<B: BusName> Model for TypedCutter<B> {
    ghost use Rattle.std.specs.Prelude.{◌≡◌, ℕ, List, Some};
    ghost use Rattle.cm_receiving.specs.Cutting.{IsCounting};

    ghost Value = { ℕ };

    ghost view = { λ c. c.lines.taken };

    ghost invariant = { λ c. (t : List ℕ) → B.typed ≡ Some t → IsCounting t c.lines };
}

impl<B: BusName> TypedCutter<B> {
    /// Nothing was typed yet.
    pub fn new() -> TypedCutter<B>
        ensures { result ≡ 0 }
    {
        TypedCutter {
            lines: LineCounter::new(),
            of: PhantomData,
        }
    }

    /// Takes the next byte, and gives the line that it ends.
    pub fn take(&mut self, byte: u8) -> Option<TypedLine<B>>
        requires room { self.old < 2 ^ 63 }
        requires next { ComeNext B.typed self.old (byte ∷ []) }
        ensures { self.new ≡ self.old + 1 }
    {
        let place = self.lines.take(byte)?;
        TypedLine::new(place, self.lines.line())
    }
}

/// Whom each line is told that is typed: it is sent first, and then it is told that it was.
#[derive(Drop)]
pub struct TypedRoute<B: BusName> {
    pub lines: Sender<TypedLine<B>>,
    pub notifications: Sender<Notification>,
}

impl<B: BusName> TypedRoute<B> {
    /// Tells a line.
    fn tell<R: Wait>(&self, rt: &R, line: TypedLine<B>) {
        if self.lines.send(rt, line).is_ok() {
            let _ = self.notifications.send(rt, Notification::Typed);
        }
    }
}

/// Tells the lines of these bytes, which come next.
fn tell_bytes<B: BusName, R: Wait>(
    rt: &R,
    bytes: &[u8],
    cutter: &mut TypedCutter<B>,
    route: &TypedRoute<B>,
)
    requires room { cutter.old + length bytes.now < 2 ^ 63 }
    requires next { ComeNext B.typed cutter.old bytes.now }
    ensures { cutter.new ≡ cutter.old + length bytes.now }
{
    for byte in bytes {
        if let Some(line) = cutter.take(*byte) {
            route.tell(rt, line);
        }
    }
}

/// Reads lines to the end of the input, and tells each.
fn tell_from<B: BusName, R: Wait, T: Read>(
    rt: &R,
    input: &mut T,
    cutter: &mut TypedCutter<B>,
    route: &TypedRoute<B>,
)
    requires first { cutter.old ≡ 0 }
    requires left { IsLeft B.typed cutter.old (T.remaining input.old) }
    ensures { IsLeft B.typed cutter.new (T.remaining input.new) }
{
    let mut block = [0u8; 256];
    for _turn in 0..MOST_READS {
        let count = match input.read(&mut block) {
            Ok(0) | Err(_) => return,
            Ok(count) => count,
        };
        tell_bytes(rt, &block[..count], cutter, route);
    }
}

/// Where lines are typed: a reader that holds what the bus's name says. Contracts see what it holds.
#[derive(Drop)]
pub struct TypedSource<B: BusName, T: Read + Drop> {
    input: T,
    of: PhantomData<B>,
}

impl<B: BusName, T: Read + Drop> Model for TypedSource<B, T> {
    ghost use Rattle.std.specs.Prelude.{◌≡◌, ℕ, List, Option};

    ghost Value = { Option (List ℕ) };

    ghost view = { λ s. T.remaining s.input };

    ghost invariant = { λ s. T.remaining s.input ≡ B.typed };
}

impl<B: BusName, T: Read + Drop> TypedSource<B, T> {
    /// The reader of typed lines of the bus that `B` names.
    pub fn new(input: T) -> TypedSource<B, T>
        requires { T.remaining input ≡ B.typed }
        ensures { result ≡ B.typed }
    {
        TypedSource {
            input,
            of: PhantomData,
        }
    }

    /// Reads lines to the end of the input, and tells each; at last, that no more are typed.
    pub fn tell<R: Wait>(self, rt: &R, route: &TypedRoute<B>) {
        let TypedSource { mut input, of: _ } = self;
        let mut cutter = TypedCutter::<B>::new();
        tell_from(rt, &mut input, &mut cutter, route);
        let _ = route.notifications.send(rt, Notification::NoMoreTyped);
    }
}
