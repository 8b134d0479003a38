//! Names of nodes, which a TOML text gives.

ghost use Rattle.std.specs.Prelude.{◌≡◌, ◌≢◌, ℕ, IfErr, IfOk, IfSome, IsUtf8, None, OnOk, Some};
ghost use Rattle.std.specs.Prelude.{is_none, not, option_and_then, option_copied, string_bytes};
ghost use Rattle.std.specs.List.{list_all, list_any};
ghost use Rattle.std.specs.Map.{keys_of, values_of};
ghost use Rattle.toml.specs.Data.{as_str, get_member};
ghost use Rattle.toml.specs.Errors.{IsBlank, IsMemory};
ghost use Rattle.toml.specs.Parse.{parse_document};
ghost use Rattle.toml.specs.View.{table_view, view};
ghost use Rattle.cm_shown.specs.Names.{is_name, is_shown, name_in, name_of, node_of, table_fault, text_fault};

use cm_nmt::NodeId;
use cm_text::Fields;
use itoa::Buffer;
use std::alloc::Global;
use std::collections::BTreeMap;
use thiserror::Error;
use toml::{Table, Value};

/// Why a text gives no names. Of several faults it is the first in this order, wherever they stand.
#[derive(Clone, Copy, Debug, Error)]
pub enum NamesFault {
    /// The text isn't UTF-8, or isn't TOML.
    #[error("not TOML")]
    NotToml,
    /// A key isn't a node-ID: 1 to 127 in decimal, without leading zeros.
    #[error("bad node-ID")]
    BadNode,
    /// A value isn't a name: a string of 1 to 64 bytes, of which none is below 20h and none is 7Fh.
    #[error("bad name")]
    BadName,
    /// Memory was refused.
    #[error("out of memory")]
    OutOfMemory,
}

/// Names of nodes, at most one for each of the nodes 1 to 127.
#[derive(Drop)]
pub struct Names {
    /// The names, each at the key that is its node-ID in decimal.
    table: Table,
}

impl Names {
    /// No names.
    pub fn new(alloc: Global) -> Names
        ensures { (id : ℕ) → name_of result id ≡ None }
    {
        Names {
            table: BTreeMap::new(alloc),
        }
    }

    /// The name of a node, if it has one.
    pub fn name(&self, id: NodeId) -> Option<&str>
        ensures { option_copied result ≡ name_of self.now id }
    {
        let mut digits = Buffer::new();
        string_at(&self.table, digits.format(id.get()))
    }
}

/// The string at a key, if the key has one.
fn string_at<'a>(table: &'a Table, key: &str) -> Option<&'a str>
    ensures { option_copied result ≡ option_and_then as_str (get_member key.now (table_view table.now)) }
{
    match table.get(key) {
        Some(value) => value.as_str(),
        None => None,
    }
}

/// The node whose number the word is, in decimal without leading zeros.
pub(crate) fn node_of(word: &[u8]) -> Option<NodeId>
    ensures { result ≡ node_of word.now }
{
    let mut fields = Fields::new(word, b' ');
    let number = fields.decimal(127)?;
    if fields.is_done() {
        NodeId::new(number as u8)
    } else {
        None
    }
}

/// Whether the byte may stand in a name.
fn is_shown(byte: u8) -> bool
    ensures { result ≡ is_shown byte }
{
    0x20 <= byte && byte != 0x7f
}

/// Whether each byte may stand in a name.
fn are_shown(bytes: &[u8]) -> bool
    ensures { result ≡ list_all is_shown bytes.now }
{
    bytes.iter().all(|byte| is_shown(*byte))
}

/// Whether the text is a name.
fn is_name(text: &[u8]) -> bool
    ensures { result ≡ is_name (Some text.now) }
{
    1 <= text.len() && text.len() <= 64 && are_shown(text)
}

/// Whether the value is a name.
fn value_is_name(value: &Value) -> bool
    ensures { result ≡ is_name (as_str (view value.now)) }
{
    match value.as_str() {
        Some(text) => is_name(text.as_bytes()),
        None => false,
    }
}

/// Whether some key isn't a node-ID.
fn some_key_is_bad(table: &Table) -> bool
    ensures { result ≡ list_any (λ k. is_none (node_of (string_bytes k))) (keys_of table.now.entries) }
{
    table.keys().any(|key| node_of(key.as_bytes()).is_none())
}

/// Whether some value isn't a name.
fn some_value_is_bad(table: &Table) -> bool
    ensures { result ≡ list_any (λ v. not (is_name (as_str (view v)))) (values_of table.now.entries) }
{
    table.values().any(|value| !value_is_name(value))
}

/// The fault of a table, if it has one.
fn fault_of(table: &Table) -> Option<NamesFault>
    ensures fault { result ≡ table_fault (table_view table.now) }
    ensures other { IfSome result (λ f. f ≢ NamesFault.OutOfMemory) }
{
    if some_key_is_bad(table) {
        Some(NamesFault::BadNode)
    } else if some_value_is_bad(table) {
        Some(NamesFault::BadName)
    } else {
        None
    }
}

/// The names of a table, if it has no fault.
fn names_of(table: Table) -> Result<Names, NamesFault>
    ensures names { IfOk result (λ names. (id : ℕ) → name_of names id ≡ name_in (table_view table) id) }
    ensures faultless { OnOk result (table_fault (table_view table) ≡ None) }
    ensures fault { IfErr result (λ f. table_fault (table_view table) ≡ Some f) }
    ensures other { IfErr result (λ f. f ≢ NamesFault.OutOfMemory) }
{
    match fault_of(&table) {
        Some(fault) => Err(fault),
        None => Ok(Names { table }),
    }
}

/// What a text is refused for that `toml` doesn't read.
fn unread(error: &toml::de::Error) -> NamesFault
    ensures memory { IsMemory error.now → result ≡ NamesFault.OutOfMemory }
    ensures other { ¬ IsMemory error.now → result ≡ NamesFault.NotToml }
{
    if error.is_memory() {
        NamesFault::OutOfMemory
    } else {
        NamesFault::NotToml
    }
}

/// Reads the names of a TOML text.
fn read_text(alloc: Global, text: &str) -> Result<Names, NamesFault>
    ensures names { IfOk result
        (λ names. IfSome (parse_document text.now) (λ ms. (id : ℕ) → name_of names id ≡ name_in ms id)) }
    ensures faultless { OnOk result (text_fault (parse_document text.now) ≡ None) }
    ensures fault { IfErr result
        (λ f. f ≢ NamesFault.OutOfMemory → text_fault (parse_document text.now) ≡ Some f) }
    ensures memory { result ≡ Err NamesFault.OutOfMemory → ¬ IsBlank text.now }
{
    match toml::table_from_str(alloc, text) {
        Ok(table) => names_of(table),
        Err(error) => Err(unread(&error)),
    }
}

/// Reads names of nodes from a TOML text, as `3 = "hoist"`.
///
/// Each key of the text's table is a node-ID, 1 to 127 in decimal without leading zeros, and has a
/// name: a string of 1 to 64 bytes, of which none is below 20h and none is 7Fh. A text that has any
/// fault is refused with the first that applies, in the order of [`NamesFault`].
pub fn read_names(alloc: Global, text: &[u8]) -> Result<Names, NamesFault>
    ensures names { IfOk result
        (λ names. IfSome (parse_document text.now) (λ ms. (id : ℕ) → name_of names id ≡ name_in ms id)) }
    ensures faultless { OnOk result (IsUtf8 text.now × (text_fault (parse_document text.now) ≡ None)) }
    ensures no_text { ¬ IsUtf8 text.now → result ≡ Err NamesFault.NotToml }
    ensures fault { IsUtf8 text.now → IfErr result
        (λ f. f ≢ NamesFault.OutOfMemory → text_fault (parse_document text.now) ≡ Some f) }
    ensures memory { result ≡ Err NamesFault.OutOfMemory → ¬ IsBlank text.now }
{
    match std::str::from_utf8(text) {
        Ok(text) => read_text(alloc, text),
        Err(_) => Err(NamesFault::NotToml),
    }
}
