//! Where a fault of a network list applies.

ghost use Rattle.std.specs.Prelude.{◌≡◌, ◌<◌, ◌==◌, ◌||◌, map, not, option_copied, option_map, string_bytes, take, IfSome, is_some};
ghost use Rattle.std.specs.List.{find, list_any, position};
ghost use Rattle.std.specs.Map.{keys_of};
ghost use Rattle.toml.specs.View.{table_view, view};
ghost use Rattle.cm_netlist.specs.Document.{applies, integer_has, is_no_table, is_write, keys_have, slave_has, slave_id, write_has, write_is_outside, write_is_wide, writes};
ghost use Rattle.cm_netlist.specs.Keys.{is_listed};
ghost use Rattle.cm_netlist.specs.ListKeys.{key_of};
ghost use Rattle.cm_netlist.specs.FaultPlaces.{HasByKey, IsPlace, SlaveHas, SlaveIs, TopHas, slave_elements};
ghost use Rattle.cm_netlist.specs.FaultWalk.{PartHas, array_has, holds, is_of_all, slave_at, slave_itself_has, top_itself_has};
ghost use Rattle.cm_netlist.specs.Table.{table_is};

use crate::fault::NetFault;
use crate::list_keys::{IntegerKey, slave_integers, top_integers};
use crate::list_values::{
    elements_at, is_no_array, is_no_integer, is_outside, number, number_at, value_at,
};
use toml::{Table, Value};

/// What of a list, or of a slave, has a fault.
#[derive(Clone, Copy)]
pub enum Spot<'a> {
    /// A key of this name, which is unknown.
    Unknown(&'a str),
    /// The key of an integer: it is missing, or its value is of another kind or out of range.
    Integer(IntegerKey),
    /// The key of the array, `slave` or `writes`, whose value is of another kind.
    Array,
    /// The element of that array of this number, counted from 0: it is no table, or it is a write with the fault.
    Element(usize),
    /// The slave as a whole: its id is own, bit 0 of its assignment is clear, or it has too many writes.
    Itself,
    /// The slave's id, which is that of the earlier slave of this number, counted from 0.
    Double(usize),
}

/// Where a fault applies.
#[derive(Clone, Copy)]
pub struct FaultPlace<'a> {
    /// The slave, by its number among the elements of `slave`, counted from 0; none: the list itself.
    pub slave: Option<usize>,
    pub spot: Spot<'a>,
}

/// Whether a table has the fault by the key of an integer.
fn integer_has(fault: NetFault, table: &Table, key: &IntegerKey) -> bool
    ensures { result ≡ integer_has fault (table_view table.now) (key_of key.now) }
{
    match fault {
        NetFault::MissingKey => key.needed && value_at(table, key.name).is_none(),
        NetFault::WrongKind => is_no_integer(value_at(table, key.name)),
        NetFault::OutOfRange => is_outside(key.least, key.greatest, value_at(table, key.name)),
        _ => false,
    }
}

/// The first of these keys by which the table has the fault.
fn faulty_integer(fault: NetFault, keys: &[IntegerKey], table: &Table) -> Option<IntegerKey>
    ensures { result ≡ find (λ k. integer_has fault (table_view table.now) (key_of k)) keys.now }
{
    keys.iter()
        .copied()
        .find(|key| integer_has(fault, table, key))
}

/// Whether the key is that of an integer or of the array.
fn is_listed(keys: &[IntegerKey], array: &str, name: &str) -> bool
    ensures { result ≡ is_listed (map key_of keys.now) array.now name.now }
{
    name == array || keys.iter().any(|key| name == key.name)
}

/// The first key of the table, by its bytes, that is none of these.
fn unknown_key<'a>(keys: &[IntegerKey], array: &str, table: &'a Table) -> Option<&'a String>
    ensures { let listed = is_listed (map key_of keys.now) array.now in
        option_copied result ≡ find (λ k. not (listed (string_bytes k))) (keys_of table.now.entries) }
{
    table
        .keys()
        .find(|name| !is_listed(keys, array, name.as_str()))
}

/// The key of the table that is none of these.
fn unknown_spot<'a>(keys: &[IntegerKey], array: &str, table: &'a Table) -> Option<Spot<'a>>
    ensures place { IfSome result (HasByKey NetFault.UnknownKey (map key_of keys.now) array.now (table_view table.now)) }
    ensures applies { is_some result ≡ keys_have NetFault.UnknownKey (map key_of keys.now) array.now (table_view table.now) }
{
    match unknown_key(keys, array, table) {
        Some(name) => Some(Spot::Unknown(name.as_str())),
        None => None,
    }
}

/// Whether the table has the fault by the key of the array.
fn array_has(fault: NetFault, array: &str, table: &Table) -> bool
    ensures { result ≡ array_has fault array.now (table_view table.now) }
{
    match fault {
        NetFault::WrongKind => is_no_array(value_at(table, array)),
        _ => false,
    }
}

/// The key of the table, the array's or an integer's, by whose value the fault applies.
fn value_spot<'a>(
    fault: NetFault,
    keys: &[IntegerKey],
    array: &str,
    table: &'a Table,
) -> Option<Spot<'a>>
    ensures place { IfSome result (HasByKey fault (map key_of keys.now) array.now (table_view table.now)) }
    ensures applies { let ms = table_view table.now in
        is_some result ≡ (array_has fault array.now ms || list_any (integer_has fault ms) (map key_of keys.now)) }
{
    if array_has(fault, array, table) {
        return Some(Spot::Array);
    }
    match faulty_integer(fault, keys, table) {
        Some(key) => Some(Spot::Integer(key)),
        None => None,
    }
}

/// The key of the table at which the fault applies.
fn key_spot<'a>(
    fault: NetFault,
    keys: &[IntegerKey],
    array: &str,
    table: &'a Table,
) -> Option<Spot<'a>>
    ensures place { IfSome result (HasByKey fault (map key_of keys.now) array.now (table_view table.now)) }
    ensures applies { is_some result ≡ keys_have fault (map key_of keys.now) array.now (table_view table.now) }
{
    match fault {
        NetFault::UnknownKey => unknown_spot(keys, array, table),
        _ => value_spot(fault, keys, array, table),
    }
}

/// The first element of `slave` that is no table.
fn no_table(table: &Table) -> Option<usize>
    ensures { result ≡ position is_no_table (slave_elements (table_view table.now)) }
{
    elements_at(table, "slave")
        .iter()
        .position(|value| !value.is_table())
}

/// Where the fault applies to the list itself, slaves of one id aside.
fn top_spot(fault: NetFault, table: &Table) -> Option<Spot<'_>>
    ensures place { IfSome result (TopHas fault (table_view table.now)) }
    ensures applies { is_some result ≡ top_itself_has fault (table_view table.now) }
{
    if let Some(spot) = key_spot(fault, &top_integers(), "slave", table) {
        return Some(spot);
    }
    if fault == NetFault::WrongKind {
        match no_table(table) {
            Some(place) => Some(Spot::Element(place)),
            None => None,
        }
    } else {
        None
    }
}

/// Whether the value is a write: an array of four integers.
fn is_write(value: &Value) -> bool
    ensures { result ≡ is_write (view value.now) }
{
    match value {
        Value::Array(values) => {
            values.len() == 4 && !values.iter().any(|value| is_no_integer(Some(value)))
        }
        _ => false,
    }
}

/// Whether an integer of the write lies outside its range.
fn write_is_outside(write: &Value) -> bool
    ensures { result ≡ write_is_outside (view write.now) }
{
    let size = number(write.get(2usize));
    is_outside(0, 65_535, write.get(0usize))
        || is_outside(0, 255, write.get(1usize))
        || !(size == 1 || size == 2 || size == 4)
        || is_outside(0, 4_294_967_295, write.get(3usize))
}

/// Whether the value of the write is too wide for its size.
fn write_is_wide(write: &Value) -> bool
    ensures { result ≡ write_is_wide (view write.now) }
{
    let size = number(write.get(2usize));
    let value = number(write.get(3usize));
    size == 1 && value > 255 || size == 2 && value > 65_535
}

/// Whether an element of `writes` has the fault.
fn write_has(fault: NetFault, write: &Value) -> bool
    ensures { result ≡ write_has fault (view write.now) }
{
    match fault {
        NetFault::WrongKind => !is_write(write),
        NetFault::OutOfRange => write_is_outside(write),
        NetFault::ValueTooWide => write_is_wide(write),
        _ => false,
    }
}

/// The first write of the slave that has the fault.
fn faulty_write(fault: NetFault, slave: &Table) -> Option<usize>
    ensures { result ≡ position (write_has fault) (writes (table_view slave.now)) }
{
    elements_at(slave, "writes")
        .iter()
        .position(|write| write_has(fault, write))
}

/// Whether a slave as a whole has the fault, in a list of this own id.
fn itself_has(fault: NetFault, own: u64, slave: &Table) -> bool
    ensures { result ≡ is_of_all fault own (table_view slave.now) }
{
    match fault {
        NetFault::OwnListed => number_at(slave, "id") == own,
        NetFault::NotListedBit => number_at(slave, "assignment") & 1 != 1,
        NetFault::TooManyWrites => elements_at(slave, "writes").len() > 32,
        _ => false,
    }
}

/// The slave that is the element of this number, if that is a table.
fn slave_at(table: &Table, place: usize) -> Option<&Table>
    ensures { option_map (λ s. table_view s.now) result ≡ slave_at (table_view table.now) place }
{
    elements_at(table, "slave").get(place)?.as_table()
}

/// Whether the value is a slave of this id.
fn has_id(value: &Value, id: u64) -> bool
    ensures { result ≡ table_is (λ u. slave_id u == id) (view value.now) }
{
    match value.as_table() {
        Some(slave) => number_at(slave, "id") == id,
        None => false,
    }
}

/// The first slave that has the id.
fn first_with_id(table: &Table, id: u64) -> Option<usize>
    ensures { result ≡ position (table_is (λ u. slave_id u == id)) (slave_elements (table_view table.now)) }
{
    elements_at(table, "slave")
        .iter()
        .position(|value| has_id(value, id))
}

/// The first slave that has the id, if it stands before this number.
fn earlier_with_id(table: &Table, place: usize, id: u64) -> Option<usize>
    ensures place { IfSome result
        (λ j. (j < place) × SlaveIs (table_view table.now) j (λ u. slave_id u ≡ id)) }
    ensures applies { is_some result
        ≡ list_any (table_is (λ u. slave_id u == id)) (take place (slave_elements (table_view table.now))) }
{
    match first_with_id(table, id) {
        Some(first) => { if first < place { Some(first) } else { None } }
        None => None,
    }
}

/// Where the fault applies to the slave, its id aside: as a whole, at a key or at a write.
fn part_spot(fault: NetFault, own: u64, slave: &Table) -> Option<Spot<'_>>
    ensures place { IfSome result (PartHas fault own (table_view slave.now)) }
    ensures applies { is_some result ≡ slave_has fault own (table_view slave.now) }
{
    if itself_has(fault, own, slave) {
        return Some(Spot::Itself);
    }
    if let Some(spot) = key_spot(fault, &slave_integers(), "writes", slave) {
        return Some(spot);
    }
    match faulty_write(fault, slave) {
        Some(place) => Some(Spot::Element(place)),
        None => None,
    }
}

/// Where the fault applies to the slave of this number.
fn slave_spot(fault: NetFault, table: &Table, place: usize) -> Option<Spot<'_>>
    ensures place { IfSome result (λ s. SlaveIs (table_view table.now) place
        (λ t. SlaveHas fault (table_view table.now) place t s)) }
    ensures applies { is_some result
        ≡ holds (slave_itself_has fault (table_view table.now) place) (slave_at (table_view table.now) place) }
{
    let slave = slave_at(table, place)?;
    if fault == NetFault::DoubleSlave {
        let earlier = earlier_with_id(table, place, number_at(slave, "id"))?;
        return Some(Spot::Double(earlier));
    }
    part_spot(fault, number_at(table, "own"), slave)
}

/// Where this fault of a network list applies, whose table this is: a key of the list, an element of `slave` that is no table, or a key
/// or a write of a slave. It is the first place: the list itself comes before its slaves, and these come in their order. None is given
/// exactly where the fault applies nowhere.
pub fn fault_place<'a>(fault: NetFault, table: &'a Table) -> Option<FaultPlace<'a>>
    ensures place { IfSome result (IsPlace fault (table_view table.now)) }
    ensures applies { is_some result ≡ applies fault (table_view table.now) }
{
    if let Some(spot) = top_spot(fault, table) {
        return Some(FaultPlace { slave: None, spot });
    }
    for place in 0..elements_at(table, "slave").len() {
        if let Some(spot) = slave_spot(fault, table, place) {
            return Some(FaultPlace {
                slave: Some(place),
                spot,
            });
        }
    }
    None
}
