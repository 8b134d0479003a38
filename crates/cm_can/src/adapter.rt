//! Frames in the lines of a serial adapter (SLCAN), each of which ends before its carriage return.

ghost use Rattle.std.specs.Prelude.{◌≡◌, ◌≢◌, ◌+◌, ◌<◌, ◌≤◌, ℕ, IfNone, IfSome, MatchOption, length};
ghost use Rattle.cm_can.specs.Frames.{IsData, data_of};
ghost use Rattle.cm_can.specs.Lines.{AreBytes, IsAdapterText, byte_digits};

use crate::frame::{CanFrame, CanId, Kind};
use crate::text::{id_text, push_bytes, read_bytes, read_id};
use arrayvec::ArrayVec;

/// The number that a digit from 0 to 8 spells; `None` exactly where the byte is none.
fn count_of(digit: u8) -> Option<u8>
    ensures { MatchOption result ((n : ℕ) → n ≤ 8 → digit ≢ 48 + n)
        (λ n. (n ≤ 8) × (digit ≡ 48 + n)) }
{
    match digit {
        b'0'..=b'8' => Some(digit - b'0'),
        _ => None,
    }
}

/// The data frame of this many bytes that a text spells.
fn data_frame(id: CanId, count: u8, text: &[u8]) -> Option<CanFrame>
    ensures some { IfSome result (λ f. (bytes : _) × IsData f id.number bytes
        × (text.now ≡ byte_digits bytes) × (length bytes ≡ count)) }
    ensures none { IfNone result ((bytes : _) → length bytes ≤ 8 → AreBytes bytes
        → text.now ≡ byte_digits bytes → length bytes ≢ count) }
{
    let Some(bytes) = read_bytes(text) else {
        return None;
    };
    if bytes.len() != usize::from(count) {
        return None;
    }
    Some(CanFrame::with(id, bytes.as_slice()))
}

/// Reads a line of a serial adapter: `t` or `r`, three digits, the number of bytes, and the bytes. `None` exactly
/// where it is that of no frame with an identifier of 11 bits, as its answers to commands are.
pub fn read_adapter_line(text: &[u8]) -> Option<CanFrame>
    ensures some { IfSome result (IsAdapterText text.now) }
    ensures none { IfNone result ((f : CanFrame) → AreBytes (data_of f)
        → IsAdapterText text.now f → ⊥) }
{
    let [letter, a, b, c, digit, rest @ ..] = text else {
        return None;
    };
    let Some(id) = read_id(*a, *b, *c) else {
        return None;
    };
    let Some(count) = count_of(*digit) else {
        return None;
    };
    if *letter == b't' {
        let Some(frame) = data_frame(id, count, rest) else {
            return None;
        };
        return Some(frame);
    }
    if *letter != b'r' || !rest.is_empty() {
        return None;
    }
    Some(CanFrame::remote(id))
}

/// The line of a frame for a serial adapter, without its carriage return.
pub fn adapter_text(frame: &CanFrame) -> ArrayVec<u8, 32>
    ensures { IsAdapterText result.items frame.now }
{
    let mut text = ArrayVec::new();
    let [a, b, c] = id_text(frame.id);
    let data = frame.data();
    match frame.kind {
        Kind::Data => {
            text.push(b't');
            text.push(a);
            text.push(b);
            text.push(c);
            text.push(b'0' + data.len() as u8);
            push_bytes(&mut text, data);
        }
        Kind::Remote => {
            text.push(b'r');
            text.push(a);
            text.push(b);
            text.push(c);
            text.push(b'0');
        }
    }
    text
}
