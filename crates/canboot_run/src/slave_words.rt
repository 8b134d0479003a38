//! How the words of a command line spell what slaves do.

ghost use Rattle.std.specs.Prelude.{◌≡◌, None, Some};
ghost use Rattle.cm_typed.specs.NodeLists.{index_in, node_in, pair_in, value_in};
ghost use Rattle.canboot_run.specs.SlaveWords.{aborted_in, value_named, wrong_in};

use crate::slave_faults::{AbortedObject, SlaveValue, WrongValue};
use cm_text::is_word;
use cm_typed::{index_in, node_in, pair_in, value_in};

/// The value that has this key in a network list.
fn value_named(word: &[u8]) -> Option<SlaveValue>
    ensures { result ≡ value_named word.now }
{
    if is_word(word, b"device_type") {
        return Some(SlaveValue::DeviceType);
    }
    if is_word(word, b"vendor") {
        return Some(SlaveValue::Vendor);
    }
    if is_word(word, b"product") {
        return Some(SlaveValue::Product);
    }
    if is_word(word, b"revision") {
        return Some(SlaveValue::Revision);
    }
    if is_word(word, b"serial") {
        return Some(SlaveValue::Serial);
    }
    if is_word(word, b"date") {
        return Some(SlaveValue::Date);
    }
    if is_word(word, b"time") {
        return Some(SlaveValue::Time);
    }
    None
}

/// A value that a slave is to give, as `3=product:0x999`.
pub(crate) fn wrong_in(text: &[u8]) -> Option<WrongValue>
    ensures { result ≡ wrong_in text.now }
{
    let (node, rest) = pair_in(text, b'=')?;
    let id = node_in(node)?;
    let (object, value) = pair_in(rest, b':')?;
    let object = value_named(object)?;
    let value = value_in(value)?;
    Some(WrongValue { id, object, value })
}

/// An object that a slave is to abort, as `3=1018`.
pub(crate) fn aborted_in(text: &[u8]) -> Option<AbortedObject>
    ensures { result ≡ aborted_in text.now }
{
    let (node, index) = pair_in(text, b'=')?;
    let id = node_in(node)?;
    let index = index_in(index)?;
    Some(AbortedObject { id, index })
}
