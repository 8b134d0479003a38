//! Error frames in lines of can-utils: `candump -L` writes one for each that it asks the interface for.

ghost use Rattle.std.specs.Prelude.{◌≡◌, ℕ, List, IfNone, IfSome};
ghost use Rattle.cm_can.specs.ErrorLines.{IsErrorFrame, IsErrorLine, IsErrorText};
ghost use Rattle.cm_can.specs.Frames.{data_of};
ghost use Rattle.cm_can.specs.Lines.{AreBytes};
ghost use Rattle.cm_can.specs.declared.can_error.CanError.{CanError as Error};

use crate::can_error::{CanError, ControllerError, ErrorClass};
use crate::frame::{CanFrame, Kind};
use crate::lines::{log_text, read_frame};

/// The error that a frame says, which has its class as identifier. `None` exactly where it says none.
fn error_of(frame: &CanFrame) -> Option<CanError>
    ensures some { IfSome result (IsErrorFrame frame.now) }
    ensures none { IfNone result ((e : Error) → IsErrorFrame frame.now e → ⊥) }
    ensures bytes { AreBytes (data_of frame.now) }
{
    let data = frame.data();
    if frame.kind != Kind::Data {
        return None;
    }
    let [_, controller, _, _, _, _, _, _] = data else {
        return None;
    };
    Some(CanError {
        class: ErrorClass(frame.id.number),
        controller: ControllerError(*controller),
    })
}

/// Reads an error frame as can-utils writes it: eight digits, `#`, and eight bytes. `None` exactly where the text is that of none.
pub fn read_error(text: &[u8]) -> Option<CanError>
    ensures some { IfSome result (IsErrorText text.now) }
    ensures none { IfNone result ((e : Error) → IsErrorText text.now e → ⊥) }
{
    let Some(rest) = text.strip_prefix(b"20000") else {
        return None;
    };
    let Some(frame) = read_frame(rest) else {
        return None;
    };
    let Some(error) = error_of(&frame) else {
        return None;
    };
    Some(error)
}

/// Reads a line of `candump -L`, which ends before its line feed, of an error frame: a time in parentheses, an interface, and the
/// error frame. `None` exactly where it is no such line.
pub fn read_error_line(line: &[u8]) -> Option<CanError>
    ensures some { IfSome result (IsErrorLine line.now) }
    ensures none { IfNone result ((e : Error) → IsErrorLine line.now e → ⊥) }
{
    let Some(text) = log_text(line) else {
        return None;
    };
    let Some(error) = read_error(text) else {
        return None;
    };
    Some(error)
}
