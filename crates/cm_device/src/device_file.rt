//! The lines of a device file, an electronic data sheet or a device configuration file (CiA 306): keys with values, in
//! sections.

ghost use Rattle.std.specs.Prelude.{◌≡◌, [], ◌∷◌, ◌++◌, IfNone, IfOk, IfSome, IsTrue, Some, false, get_or};
ghost use Rattle.std.specs.Char.{to_ascii_lowercase};
ghost use Rattle.cm_text.specs.Words.{split};
ghost use Rattle.cm_device.specs.DeviceFiles.{AreSame, BeginsSection, Has, IsEntry, behind_mark};
ghost use Rattle.cm_device.specs.FileValues.{Stands, StandsNone};
ghost use Rattle.cm_device.specs.FileLines.{AreAllOf, AreOf, BeginsNone, HasKey, IsOther, IsRead, IsTaken, IsValueIn, item_of};

use cm_text::{Fields, is_word};
use std::alloc::Global;
use thiserror::Error;

/// Why a file is no device file.
#[derive(Clone, Copy, Debug, Error)]
pub enum LineFault {
    /// The line is no section, no key with a value, no comment, and isn't empty.
    #[error("neither a section nor a key with a value")]
    Unknown,
    /// A key stands before the first section.
    #[error("a key outside of a section")]
    NoSection,
}

/// Why the lines of a file aren't read.
#[derive(Clone, Copy)]
pub enum FileFault {
    /// A line is wrong: the first such line, counted from 1.
    Line(usize, LineFault),
    /// Memory was refused.
    OutOfMemory,
}

/// A key with its value.
#[derive(Clone, Copy)]
pub struct Entry<'a> {
    pub key: &'a [u8],
    pub value: &'a [u8],
}

/// A key with its value, in a section.
#[derive(Clone, Copy)]
pub struct Item<'a> {
    pub section: &'a [u8],
    pub key: &'a [u8],
    pub value: &'a [u8],
    /// The place of the first item of its section.
    pub first: usize,
    /// Its line, counted from 1.
    pub line: usize,
}

/// A section that was begun.
#[derive(Clone, Copy)]
struct Begun<'a> {
    name: &'a [u8],
    /// The place of its first item.
    first: usize,
}

/// What a line is.
enum Line<'a> {
    /// It is empty but for a comment.
    Nothing,
    /// The begin of a section.
    Section(&'a [u8]),
    Entry(Entry<'a>),
    /// None of these.
    Unknown,
}

/// The small letter of a capital one (ASCII).
fn small(byte: u8) -> u8
    ensures { result ≡ to_ascii_lowercase byte }
{
    if byte.is_ascii_uppercase() {
        byte + 32
    } else {
        byte
    }
}

/// Whether the texts are the same but for capital and small letters (ASCII).
pub(crate) fn is_same(one: &[u8], other: &[u8]) -> bool
    ensures same { IsTrue result → AreSame one.now other.now }
    ensures other { result ≡ false → AreSame one.now other.now → ⊥ }
{
    if one.len() != other.len() {
        return false;
    }
    for at in 0..one.len() {
        if small(one[at]) != small(other[at]) {
            return false;
        }
    }
    true
}

/// The key and the value of a line, if it has them.
fn entry_of(text: &[u8]) -> Option<Entry<'_>>
    ensures { IfSome result (λ e. IsEntry text.now e.key.now e.value.now) }
{
    let mut parts = Fields::new(text, b'=');
    let key = parts.next_field()?;
    let value = parts.next_field()?;
    Some(Entry {
        key: key.trim_ascii(),
        value: value.trim_ascii(),
    })
}

/// The name of the section that a line begins, if it begins one.
fn section_name(text: &[u8]) -> Option<&[u8]>
    ensures begins { IfSome result (λ n. BeginsSection text.now n.now) }
    ensures none { IfNone result (BeginsNone text.now) }
{
    if text.len() < 2 {
        return None;
    }
    let last = text.len() - 1;
    if text[0] != b'[' {
        return None;
    }
    if text[last] != b']' {
        return None;
    }
    Some(text[1..last].trim_ascii())
}

/// A line without a comment, which begins with a semicolon.
fn before_comment(line: &[u8]) -> &[u8]
    ensures { result.now ≡ get_or (split 59 line.now) 0 [] }
{
    let mut parts = Fields::new(line, b';');
    match parts.next_field() {
        Some(front) => front,
        None => b"",
    }
}

/// What a line is, without a comment and white space at its ends.
fn line_of(text: &[u8]) -> Line<'_>
    ensures { IsRead text.now result }
{
    if text.is_empty() {
        return Line::Nothing;
    }
    if let Some(name) = section_name(text) {
        return Line::Section(name);
    }
    match entry_of(text) {
        Some(entry) => Line::Entry(entry),
        None => Line::Unknown,
    }
}

/// Why a line isn't taken.
enum Untaken {
    Line(LineFault),
    OutOfMemory,
}

/// Takes a line, with its number, and gives the section that is begun behind it.
fn take_line<'a>(
    items: &mut Vec<Item<'a>>,
    begun: Option<Begun<'a>>,
    text: &'a [u8],
    number: usize,
) -> Result<Option<Begun<'a>>, Untaken>
    ensures { IfOk result (λ now. IsTaken text.now items.old.items items.new.items begun.entry now) }
{
    let first = items.len();
    match line_of(text) {
        Line::Nothing => Ok(begun),
        Line::Section(name) => Ok(Some(Begun { name, first })),
        Line::Entry(entry) => match begun {
            Some(begun) => take_entry(items, begun, entry, number),
            None => Err(Untaken::Line(LineFault::NoSection)),
        },
        Line::Unknown => Err(Untaken::Line(LineFault::Unknown)),
    }
}

/// Takes a key with its value, in the section that is begun.
fn take_entry<'a>(
    items: &mut Vec<Item<'a>>,
    begun: Begun<'a>,
    entry: Entry<'a>,
    line: usize,
) -> Result<Option<Begun<'a>>, Untaken>
    ensures { IfOk result (λ now. (now ≡ Some begun.entry)
        × (items.new.items ≡ items.old.items ++ item_of begun.entry entry.entry line ∷ [])) }
{
    let item = Item {
        section: begun.name,
        key: entry.key,
        value: entry.value,
        first: begun.first,
        line,
    };
    match items.push(item) {
        Ok(()) => Ok(Some(begun)),
        Err(_) => Err(Untaken::OutOfMemory),
    }
}

/// The bytes without a byte order mark in front of them.
fn behind_mark(file: &[u8]) -> &[u8]
    ensures { result.now ≡ behind_mark file.now }
{
    if 3 <= file.len() && is_word(&file[..3], &[0xEF, 0xBB, 0xBF]) {
        &file[3..]
    } else {
        file
    }
}

/// The keys of a device file with their values, in its order.
pub fn read_items(alloc: Global, file: &[u8]) -> Result<Vec<Item<'_>>, FileFault>
    ensures items { IfOk result (λ items. AreOf file.now items.items) }
    ensures all { IfOk result (λ items. AreAllOf file.now items.items) }
{
    let mut items = Vec::new(alloc);
    let mut begun = None;
    let mut lines = Fields::new(behind_mark(file), b'\n');
    let mut number = 0;
    while let Some(line) = lines.next_field() {
        number += 1;
        let text = before_comment(line).trim_ascii();
        match take_line(&mut items, begun, text, number) {
            Ok(now) => begun = now,
            Err(Untaken::Line(fault)) => return Err(FileFault::Line(number, fault)),
            Err(Untaken::OutOfMemory) => return Err(FileFault::OutOfMemory),
        }
    }
    Ok(items)
}

/// The value of a key in a section of this name.
pub fn value_of<'a>(items: &[Item<'a>], name: &str, key: &str) -> Option<&'a [u8]>
    ensures { (file : _) → AreOf file items.now
        → IfSome result (λ v. IsValueIn file name.now key.now v.now) }
{
    for item in items {
        if is_same(item.section, name.as_bytes()) && is_same(item.key, key.as_bytes()) {
            return Some(item.value);
        }
    }
    None
}

/// Whether an item is this key with a value that isn't empty, in a section of this name.
fn is_given(item: &Item<'_>, name: &[u8], key: &[u8]) -> bool
    ensures given { IsTrue result → AreSame item.now.section.now name.now
        × (AreSame item.now.key.now key.now × (item.now.value.now ≡ [] → ⊥)) }
    ensures other { result ≡ false → IsOther name.now key.now item.now }
{
    if !is_same(item.section, name) {
        return false;
    }
    if !is_same(item.key, key) {
        return false;
    }
    !item.value.is_empty()
}

/// The first item of this key in a section of this name whose value isn't empty.
pub fn given_item<'s, 'a>(items: &'s [Item<'a>], name: &[u8], key: &[u8]) -> Option<&'s Item<'a>>
    ensures given { (file : _) → AreOf file items.now
        → IfSome result (λ i. Stands file name.now key.now i.now.value.now) }
    ensures item { (file : _) → AreOf file items.now
        → IfSome result (λ i. Has (behind_mark file) i.now.section.now i.now.key.now i.now.value.now
        × (AreSame i.now.section.now name.now × AreSame i.now.key.now key.now)) }
    ensures none { (file : _) → AreAllOf file items.now → IfNone result (StandsNone file name.now key.now) }
{
    for item in items {
        if is_given(item, name, key) {
            return Some(item);
        }
    }
    None
}

/// The value of another key of an item's section.
pub(crate) fn value_beside<'a>(items: &[Item<'a>], beside: &Item<'a>, key: &str) -> Option<&'a [u8]>
    ensures { (file : _) → AreOf file items.now
        → IfSome result (λ v. HasKey file beside.now.section.now key.now v.now) }
{
    let own = items.get(beside.first..)?;
    for item in own {
        if !is_word(item.section, beside.section) {
            return None;
        }
        if is_same(item.key, key.as_bytes()) {
            return Some(item.value);
        }
    }
    None
}
