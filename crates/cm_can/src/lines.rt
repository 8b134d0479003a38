//! Frames in lines of can-utils: `candump -L` writes one for each frame that is heard, `canplayer` sends one for
//! each that it reads.

ghost use Rattle.std.specs.Prelude.{◌≡◌, ◌≢◌, ◌↔◌, ◌<◌, ◌≤◌, ◌++◌, ◌∷◌, ℕ, List, All, IfNone, IfSome, IsFalse, IsTrue, length};
ghost use Rattle.cm_can.specs.Frames.{IsData, data_of};
ghost use Rattle.cm_can.specs.Lines.{AreBytes, HasNoSpace, IsFrameText, IsLog, IsLogLine, IsRemoteTail, IsSameFrame, IsTime, byte_digits};

use crate::frame::{CanFrame, CanId, Kind};
use crate::text::{id_text, push_bytes, read_bytes, read_id};
use arrayvec::ArrayVec;

/// The data frame whose bytes a text spells; `None` exactly where it spells no bytes, or more than eight.
fn data_frame(id: CanId, text: &[u8]) -> Option<CanFrame>
    ensures some { IfSome result
        (λ f. (bytes : _) × IsData f id.number bytes × (text.now ≡ byte_digits bytes)) }
    ensures none { IfNone result ((bytes : _) → length bytes ≤ 8 → All (λ b. b < 256) bytes
        → text.now ≢ byte_digits bytes) }
{
    let Some(bytes) = read_bytes(text) else {
        return None;
    };
    Some(CanFrame::with(id, bytes.as_slice()))
}

/// Whether this is what stands behind the `#` of a remote frame.
fn is_remote(tail: &[u8]) -> bool
    ensures yes { IsTrue result → IsRemoteTail tail.now }
    ensures no { IsFalse result → IsRemoteTail tail.now → ⊥ }
{
    let [letter, count @ ..] = tail else {
        return false;
    };
    if *letter != b'R' {
        return false;
    }
    match count {
        [] => true,
        [count] => {
            if *count < b'0' || *count > b'8' {
                return false;
            }
            true
        }
        _ => false,
    }
}

/// Reads a frame as can-utils writes it: three digits, `#`, and the bytes, or `R`. `None` exactly where the text
/// is that of no frame with an identifier of 11 bits; a wider one, a frame of CAN FD and an error frame are none.
pub fn read_frame(text: &[u8]) -> Option<CanFrame>
    ensures some { IfSome result (IsFrameText text.now) }
    ensures none { IfNone result ((f : CanFrame) → AreBytes (data_of f)
        → IsFrameText text.now f → ⊥) }
{
    let [a, b, c, b'#', rest @ ..] = text else {
        return None;
    };
    let Some(id) = read_id(*a, *b, *c) else {
        return None;
    };
    if is_remote(rest) {
        return Some(CanFrame::remote(id));
    }
    let Some(frame) = data_frame(id, rest) else {
        return None;
    };
    Some(frame)
}

/// The bytes before the first space, and those behind it.
fn cut(text: &[u8]) -> Option<(&[u8], &[u8])>
    ensures some { IfSome result (λ p. HasNoSpace p.0.now × (text.now ≡ p.0.now ++ 32 ∷ p.1.now)) }
    ensures none { IfNone result (HasNoSpace text.now) }
{
    let place = text.iter().position(|byte| *byte == b' ')?;
    Some((&text[..place], &text[place + 1..]))
}

/// Whether this is a time in parentheses.
fn is_time(text: &[u8]) -> bool
    ensures { IsTrue result ↔ IsTime text.now }
{
    text.len() >= 2 && text[0] == b'(' && text[text.len() - 1] == b')'
}

/// What stands for the frame in a line of `candump -L`: a time in parentheses, an interface, and that. `None` exactly where it is no
/// such line.
pub(crate) fn log_text(line: &[u8]) -> Option<&[u8]>
    ensures some { IfSome result (λ text. IsLog line.now text.now) }
    ensures none { IfNone result ((text : List ℕ) → IsLog line.now text → ⊥) }
    ensures only { IfSome result (λ text. (other : List ℕ) → IsLog line.now other → other ≡ text.now) }
{
    let Some((time, rest)) = cut(line) else {
        return None;
    };
    let Some((_, text)) = cut(rest) else {
        return None;
    };
    if !is_time(time) {
        return None;
    }
    Some(text)
}

/// Reads a line of `candump -L`, which ends before its line feed: a time in parentheses, an interface, and a frame.
/// `None` exactly where it is no such line, or one of a frame that [`read_frame`] doesn't read.
pub fn read_log_line(line: &[u8]) -> Option<CanFrame>
    ensures some { IfSome result (IsLogLine line.now) }
    ensures none { IfNone result ((f : CanFrame) → AreBytes (data_of f)
        → IsLogLine line.now f → ⊥) }
{
    let Some(text) = log_text(line) else {
        return None;
    };
    let Some(frame) = read_frame(text) else {
        return None;
    };
    Some(frame)
}

/// The text of a frame, as can-utils reads it and writes it.
pub fn frame_text(frame: &CanFrame) -> ArrayVec<u8, 32>
    ensures { IsFrameText result.items frame.now }
{
    let mut text = ArrayVec::new();
    let [a, b, c] = id_text(frame.id);
    text.push(a);
    text.push(b);
    text.push(c);
    text.push(b'#');
    match frame.kind {
        Kind::Data => push_bytes(&mut text, frame.data()),
        Kind::Remote => text.push(b'R'),
    }
    text
}

/// Two frames of one text are the same: so a frame that was written is read back as it was.
pub fn one_frame()
    ensures { (text : List ℕ) (f g : CanFrame) → AreBytes (data_of f) → AreBytes (data_of g)
        → IsFrameText text f → IsFrameText text g → IsSameFrame f g }
{}
