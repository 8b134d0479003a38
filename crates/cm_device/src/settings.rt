//! What a device file sets in a device, as writes in an order that devices accept (CiA 301, CiA 306).

ghost use Rattle.std.specs.Prelude.{◌≡◌, ◌≤◌, [], IfOk, IsTrue, OnOk, length, vec_len};
ghost use Rattle.cm_nmt.specs.Size.{is_size};
ghost use Rattle.cm_nmt.specs.Write.{write_with};
ghost use Rattle.cm_device.specs.FileValues.{IsSetting, is_cob_id, is_count};
ghost use Rattle.cm_device.specs.FileLines.{AreOf};
ghost use Rattle.cm_device.specs.SettingsMade.{AllWrites, Gives, HasAdded, IsOf, MaySet};

use crate::device_file::{Item, is_same};
use crate::object::{is_cob_id, is_count, is_mapping, pdo_of, rank, step_of};
use crate::settings_values::{
    Reason, Value, cob_id_of, compact_index, default_of, is_first, is_mapped, is_set,
    item_of_object, name_of, value_at, valued,
};
use cm_nmt::{NodeId, Write};
use std::alloc::{AllocError, Global};

/// A write, with its place among the others and the name of its object.
#[derive(Clone, Copy)]
pub struct Setting<'a> {
    /// Its place: writes are made in rising order of it.
    pub rank: u64,
    /// The write.
    pub write: Write,
    /// The name of its object, empty where the file gives none.
    pub name: &'a [u8],
}

/// A value that is no write.
#[derive(Clone, Copy)]
pub struct Unwritten<'a> {
    /// Its object: index and sub-index.
    pub object: (u16, u8),
    /// The name of its object, empty where the file gives none.
    pub name: &'a [u8],
    /// Why it is none.
    pub reason: Reason,
}

/// The writes of a file, and what is none.
#[derive(Drop)]
pub struct Settings<'a> {
    /// The writes.
    pub settings: Vec<Setting<'a>>,
    /// The values that are none.
    pub unwritten: Vec<Unwritten<'a>>,
    /// How many writes stand behind those that the slave has.
    pub behind: usize,
}

/// Bit 31 of a COB-ID: the PDO doesn't exist (CiA 301).
const OFF: u32 = 0x8000_0000;

impl<'a> Settings<'a> {
    /// No write.
    fn new(alloc: Global) -> Settings<'a>
        ensures { result.settings.items ≡ [] }
    {
        Settings {
            settings: Vec::new(alloc),
            unwritten: Vec::new(alloc),
            behind: 0,
        }
    }

    /// Adds a write.
    fn add(
        &mut self,
        object: (u16, u8),
        step: u8,
        value: (u8, u32),
        name: &'a [u8],
    ) -> Result<(), AllocError>
        requires { IsTrue (is_size value.0) }
        ensures { OnOk result (HasAdded self.old self.new (write_with object.0 object.1 value.0 value.1)) }
    {
        self.settings.push(Setting {
            rank: rank(object.0, object.1, step),
            write: Write::new(object.0, object.1, value.0, value.1),
            name,
        })?;
        Ok(())
    }

    /// Adds what is written before a PDO is set: its COB-ID off, or no object mapped.
    fn add_before(
        &mut self,
        object: (u16, u8),
        value: (u8, u32),
        name: &'a [u8],
    ) -> Result<(), AllocError>
        requires { IsTrue (is_size value.0) }
        ensures { (file : _) (node : _) → MaySet file node object value
            → AllWrites (IsSetting file node) self.old
            → OnOk result (AllWrites (IsSetting file node) self.new) }
    {
        if is_cob_id(object.0, object.1) {
            return self.add(object, 0, (value.0, value.1 | OFF), name);
        }
        if is_count(object.0, object.1) {
            return self.add(object, 1, (value.0, 0), name);
        }
        Ok(())
    }

    /// Adds the writes of a value.
    fn add_value(
        &mut self,
        object: (u16, u8),
        value: (u8, u32),
        name: &'a [u8],
    ) -> Result<(), AllocError>
        requires { IsTrue (is_size value.0) }
        ensures { (file : _) (node : _) → MaySet file node object value
            → AllWrites (IsSetting file node) self.old
            → OnOk result (AllWrites (IsSetting file node) self.new) }
    {
        self.add_before(object, value, name)?;
        self.add(object, step_of(object.0, object.1), value, name)
    }

    /// Adds what a value sets.
    fn add_given(
        &mut self,
        items: &[Item<'a>],
        value: &Value<'a>,
        node: NodeId,
    ) -> Result<(), AllocError>
        ensures { (file : _) → AreOf file items.now → Gives file value.now
            → AllWrites (IsSetting file node) self.old
            → OnOk result (AllWrites (IsSetting file node) self.new) }
    {
        let name = name_of(items, &value.described);
        match valued(items, value, node) {
            Ok(number) => self.add_value(value.object, number, name),
            Err(reason) => self.leave(value.object, name, reason),
        }
    }

    /// Leaves a value out.
    fn leave(&mut self, object: (u16, u8), name: &'a [u8], reason: Reason) -> Result<(), AllocError>
        ensures { OnOk result (self.new.settings.items ≡ self.old.settings.items) }
    {
        self.unwritten.push(Unwritten {
            object,
            name,
            reason,
        })?;
        Ok(())
    }

    /// Adds the value that an object of a PDO has by default, where the file gives no other.
    fn add_default(
        &mut self,
        items: &[Item<'a>],
        object: (u16, u8),
        node: NodeId,
    ) -> Result<(), AllocError>
        ensures { (file : _) → AreOf file items.now → AllWrites (IsSetting file node) self.old
            → OnOk result (AllWrites (IsSetting file node) self.new) }
    {
        if item_of_object(items, object, "ParameterValue").is_some() {
            return Ok(());
        }
        match default_of(items, object) {
            Some(value) => self.add_given(items, &value, node),
            None => Ok(()),
        }
    }

    /// Adds a value of the mapping of a PDO, and with the first one what the PDO has by default, where the file gives no other.
    fn add_mapped(
        &mut self,
        items: &[Item<'a>],
        value: &Value<'a>,
        node: NodeId,
    ) -> Result<(), AllocError>
        ensures { (file : _) → AreOf file items.now → Gives file value.now
            → AllWrites (IsSetting file node) self.old
            → OnOk result (AllWrites (IsSetting file node) self.new) }
    {
        let mapping = value.object.0;
        if !is_mapped(items, mapping, node) {
            return self.leave(
                value.object,
                name_of(items, &value.described),
                Reason::Mapping,
            );
        }
        self.add_given(items, value, node)?;
        if !is_first(items, value) {
            return Ok(());
        }
        self.add_default(items, (cob_id_of(mapping), 1), node)?;
        self.add_default(items, (mapping, 0), node)
    }

    /// Tells of an item that is none of the values of its object's sub-indexes, if it stands among them.
    fn leave_compact(&mut self, item: &Item<'a>) -> Result<(), AllocError>
        ensures { OnOk result (self.new.settings.items ≡ self.old.settings.items) }
    {
        match compact_index(item.section) {
            Some(index) if !is_same(item.key, b"NrOfEntries") => {
                self.leave((index, 0), item.key, Reason::Compact)
            }
            _ => Ok(()),
        }
    }

    /// Adds what an item sets, where it is a value that may be written.
    fn take_item(
        &mut self,
        items: &[Item<'a>],
        item: &Item<'a>,
        node: NodeId,
    ) -> Result<(), AllocError>
        ensures { (file : _) → AreOf file items.now → IsOf file item.now
            → AllWrites (IsSetting file node) self.old
            → OnOk result (AllWrites (IsSetting file node) self.new) }
    {
        if item.value.is_empty() {
            return Ok(());
        }
        let Some(value) = value_at(items, item) else {
            return self.leave_compact(item);
        };
        if !is_set(items, &value) {
            return Ok(());
        }
        if is_mapping(value.object.0) {
            self.add_mapped(items, &value, node)
        } else {
            self.add_given(items, &value, node)
        }
    }
}

/// What the items of a file set in the device of this node, in the order of the file.
fn collect<'a>(alloc: Global, items: &[Item<'a>], node: NodeId) -> Result<Settings<'a>, AllocError>
    ensures { (file : _) → AreOf file items.now → IfOk result (AllWrites (IsSetting file node)) }
{
    let mut all = Settings::new(alloc);
    for item in items {
        all.take_item(items, item, node)?;
    }
    Ok(all)
}

/// The most writes that a slave of a network list has.
pub const MOST_WRITES: u8 = 32;

/// Whether both writes are of one PDO.
fn is_one_pdo(one: &Setting<'_>, other: &Setting<'_>) -> bool {
    match (pdo_of(one.write.index), pdo_of(other.write.index)) {
        (Some(one), Some(other)) => one == other,
        _ => false,
    }
}

/// How many of the first writes the slave has, `most` at most: of each PDO all of its writes, or none.
fn first_whole(settings: &[Setting<'_>], most: u8) -> usize
    ensures few { result ≤ most }
    ensures within { result ≤ length settings.now }
{
    let mut count = usize::from(most);
    if settings.len() <= count {
        return settings.len();
    }
    while 0 < count && is_one_pdo(&settings[count - 1], &settings[count]) {
        count -= 1;
    }
    count
}

/// Leaves out the writes behind those that the slave has.
fn leave_behind<'a>(
    settings: &[Setting<'a>],
    count: usize,
    unwritten: &mut Vec<Unwritten<'a>>,
) -> Result<(), AllocError> {
    for setting in settings.get(count..).unwrap_or(&[]) {
        unwritten.push(Unwritten {
            object: (setting.write.index, setting.write.sub),
            name: setting.name,
            reason: Reason::Behind,
        })?;
    }
    Ok(())
}

/// The writes of a file for the device of this node, in the order in which they are made, `most` at most.
pub fn settings_of<'a>(
    alloc: Global,
    items: &[Item<'a>],
    node: NodeId,
    most: u8,
) -> Result<Settings<'a>, AllocError>
    ensures all { (file : _) → AreOf file items.now → IfOk result (AllWrites (IsSetting file node)) }
    ensures few { IfOk result (λ s. vec_len s.settings ≤ most) }
{
    let Settings {
        mut settings,
        mut unwritten,
        behind: _,
    } = collect(alloc, items, node)?;
    settings.sort_by_key(|setting| setting.rank)?;
    let count = first_whole(settings.as_slice(), most);
    let behind = settings.len() - count;
    leave_behind(settings.as_slice(), count, &mut unwritten)?;
    settings.truncate(count);
    Ok(Settings {
        settings,
        unwritten,
        behind,
    })
}
