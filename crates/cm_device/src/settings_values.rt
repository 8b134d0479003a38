//! Which values a device file gives the objects of a device, and which of them may be written (CiA 301, CiA 306).

ghost use Rattle.std.specs.Prelude.{◌≡◌, ◌≤◌, ◌||◌, IfOk, IfSome, IsTrue};
ghost use Rattle.cm_nmt.specs.Size.{is_size};
ghost use Rattle.cm_device.specs.DeviceFiles.{AreSame, IsObject, IsPlain};
ghost use Rattle.cm_device.specs.FileValues.{IsTyped, is_cob_id, is_count};
ghost use Rattle.cm_device.specs.FileLines.{AreOf};
ghost use Rattle.cm_device.specs.SettingsMade.{Gives, IsOf, IsTypeOf, IsValueSection};

use crate::device_file::{Item, given_item, is_same, value_beside};
use crate::device_number::{NumberFault, index_of, object_of, plain_number, size_of, typed_number};
use crate::object::{is_cob_id, is_count, is_left_out, is_writable};
use cm_nmt::NodeId;

/// Why a value that a file gives is no write.
#[derive(Clone, Copy)]
pub enum Reason {
    /// The data type has no size of 1, 2 or 4 bytes, or isn't given.
    Size,
    /// The value is none of its data type.
    Number(NumberFault),
    /// It is of the mapping of a PDO, of which the file gives no COB-ID, or not how many objects are mapped, that can be written.
    Mapping,
    /// It is one of an object's values in a section of their own, and the object hasn't such a sub-index.
    Compact,
    /// It stands behind the writes that the slave has.
    Behind,
}

/// A value of an object.
#[derive(Clone, Copy)]
pub struct Value<'a> {
    /// Its index and sub-index.
    pub object: (u16, u8),
    /// The key that gives it.
    pub item: Item<'a>,
    /// A key of the section that describes it.
    pub described: Item<'a>,
}

/// The data type that is given in an item's section.
fn type_beside(items: &[Item<'_>], item: &Item<'_>) -> Option<u32>
    ensures { (file : _) → AreOf file items.now
        → IfSome result (IsTypeOf file item.now.section.now) }
{
    plain_number(value_beside(items, item, "DataType")?)
}

/// The size and the number of a value.
pub(crate) fn valued(
    items: &[Item<'_>],
    value: &Value<'_>,
    node: NodeId,
) -> Result<(u8, u32), Reason>
    ensures typed { (file : _) → AreOf file items.now
        → IfOk result (λ v. IsTyped file value.now.described.section.now node value.now.item.value.now v.0 v.1) }
    ensures size { IfOk result (λ v. IsTrue (is_size v.0)) }
{
    let Some(data_type) = type_beside(items, &value.described) else {
        return Err(Reason::Size);
    };
    let Some(size) = size_of(data_type) else {
        return Err(Reason::Size);
    };
    if is_cob_id(value.object.0, value.object.1) && size != 4 {
        return Err(Reason::Size);
    }
    match typed_number(data_type, size, value.item.value, node) {
        Ok(number) => Ok((size, number)),
        Err(fault) => Err(Reason::Number(fault)),
    }
}

/// The value of an object that an item is in the object's own section.
fn own_value<'a>(item: &Item<'a>) -> Option<Value<'a>>
    ensures { (file : _) → IsOf file item.now → IfSome result (λ v. (v.item ≡ item.now) × Gives file v) }
{
    if !is_same(item.key, b"ParameterValue") {
        return None;
    }
    Some(Value {
        object: object_of(item.section)?,
        item: *item,
        described: *item,
    })
}

/// The index of the object whose section of values this one is: `XXXXValue`.
pub(crate) fn compact_index(section: &[u8]) -> Option<u16>
    ensures { IfSome result (IsValueSection section.now) }
{
    if section.len() != 9 {
        return None;
    }
    let (digits, word) = section.split_at(4);
    if !is_same(word, b"Value") {
        return None;
    }
    index_of(digits)
}

/// The sub-index that a key of values without sections of their own names, up to as many as there are.
fn compact_sub(key: &[u8], count: u32) -> Option<u8>
    ensures { IfSome result (λ s. IsPlain key.now s × ((1 ≤ s) × (s ≤ count))) }
{
    let sub = plain_number(key)?;
    if sub == 0 || count < sub {
        return None;
    }
    u8::try_from(sub).ok()
}

/// The value of an object that an item is in the section of the object's values.
fn compact_value<'a>(items: &[Item<'a>], item: &Item<'a>) -> Option<Value<'a>>
    ensures { (file : _) → AreOf file items.now → IsOf file item.now
        → IfSome result (λ v. (v.item ≡ item.now) × Gives file v) }
{
    let index = compact_index(item.section)?;
    let described = given_item(items, &item.section[..4], b"CompactSubObj")?;
    let sub = compact_sub(item.key, plain_number(described.value)?)?;
    Some(Value {
        object: (index, sub),
        item: *item,
        described: *described,
    })
}

/// The value of an object that an item is, if it is one.
pub(crate) fn value_at<'a>(items: &[Item<'a>], item: &Item<'a>) -> Option<Value<'a>>
    ensures { (file : _) → AreOf file items.now → IsOf file item.now
        → IfSome result (λ v. (v.item ≡ item.now) × Gives file v) }
{
    match own_value(item) {
        Some(value) => Some(value),
        None => compact_value(items, item),
    }
}

/// Whether the default of an object counts where the file gives no other value: of a COB-ID, and of the number of mapped objects.
fn has_default(object: (u16, u8)) -> bool
    ensures { result ≡ (is_cob_id object.0 object.1 || is_count object.0 object.1) }
{
    is_cob_id(object.0, object.1) || is_count(object.0, object.1)
}

/// The value that an object of a PDO has by default.
pub(crate) fn default_of<'a>(items: &[Item<'a>], object: (u16, u8)) -> Option<Value<'a>>
    ensures { (file : _) → AreOf file items.now → IfSome result (Gives file) }
{
    if !has_default(object) {
        return None;
    }
    let item = *item_of_object(items, object, "DefaultValue")?;
    Some(Value {
        object,
        item,
        described: item,
    })
}

/// Whether the file gives an object of a PDO a value that can be written, its own or the one that it has by default.
fn is_given(items: &[Item<'_>], object: (u16, u8), node: NodeId) -> bool {
    let value = match item_of_object(items, object, "ParameterValue") {
        Some(item) => own_value(item),
        None => default_of(items, object),
    };
    match value {
        Some(value) => is_set(items, &value) && valued(items, &value, node).is_ok(),
        None => false,
    }
}

/// The index of the communication parameters of the PDO of this mapping.
pub(crate) fn cob_id_of(mapping: u16) -> u16 {
    mapping & !0x0200
}

/// Whether the file gives the PDO of this mapping a COB-ID, and a number of mapped objects, that can be written.
pub(crate) fn is_mapped(items: &[Item<'_>], mapping: u16, node: NodeId) -> bool {
    is_given(items, (cob_id_of(mapping), 1), node) && is_given(items, (mapping, 0), node)
}

/// Whether no value of the same object that may be written stands before this one in the file.
pub(crate) fn is_first(items: &[Item<'_>], value: &Value<'_>) -> bool {
    for item in items {
        if item.line == value.item.line {
            return true;
        }
        if !item.value.is_empty()
            && let Some(other) = value_at(items, item)
            && other.object.0 == value.object.0
            && is_set(items, &other)
        {
            return false;
        }
    }
    true
}

/// Whether the section is named for this object.
fn is_object(section: &[u8], object: (u16, u8)) -> bool
    ensures { IsTrue result → IsObject section.now object }
{
    match object_of(section) {
        Some(found) => found.0 == object.0 && found.1 == object.1,
        None => false,
    }
}

/// The name of the object of an item's section.
pub(crate) fn name_of<'a>(items: &[Item<'a>], item: &Item<'a>) -> &'a [u8] {
    value_beside(items, item, "ParameterName").unwrap_or(b"")
}

/// Whether a value may be written to its object.
pub(crate) fn is_set(items: &[Item<'_>], value: &Value<'_>) -> bool {
    if is_left_out(value.object.0) {
        return false;
    }
    match value_beside(items, &value.described, "AccessType") {
        Some(access) => is_writable(access),
        None => false,
    }
}

/// The item of this key in the section of an object, with a value that isn't empty.
pub(crate) fn item_of_object<'s, 'a>(
    items: &'s [Item<'a>],
    object: (u16, u8),
    key: &str,
) -> Option<&'s Item<'a>>
    ensures { (file : _) → AreOf file items.now → IfSome result (λ i. IsOf file i.now
        × (IsObject i.now.section.now object × AreSame i.now.key.now key.now)) }
{
    for item in items {
        if !item.value.is_empty()
            && is_same(item.key, key.as_bytes())
            && is_object(item.section, object)
        {
            return Some(item);
        }
    }
    None
}
