//! What stands at the keys of a table of a network list.

ghost use Rattle.std.specs.Prelude.{◌≡◌, map, option_map};
ghost use Rattle.toml.specs.Data.{get_member};
ghost use Rattle.toml.specs.View.{table_view, view};
ghost use Rattle.cm_netlist.specs.Table.{elements, is_no_array, is_no_integer, is_outside, number, number_at};

use toml::{Table, Value};

/// The value at a key.
pub(crate) fn value_at<'a>(table: &'a Table, key: &str) -> Option<&'a Value>
    ensures { option_map (λ v. view v.now) result ≡ get_member key.now (table_view table.now) }
{
    table.get(key)
}

/// The elements of the array at a key, none where there is no array.
pub(crate) fn elements_at<'a>(table: &'a Table, key: &str) -> &'a [Value]
    ensures { map (λ v. view v) result.now ≡ elements (get_member key.now (table_view table.now)) }
{
    match value_at(table, key) {
        Some(Value::Array(values)) => values.as_slice(),
        _ => &[],
    }
}

/// The number of an integer that isn't negative, 0 where there is none.
pub(crate) fn number(value: Option<&Value>) -> u64
    ensures { result ≡ number (option_map (λ v. view v.now) value.entry) }
{
    match value {
        Some(Value::Integer(integer)) => match u64::try_from(*integer) {
            Ok(number) => number,
            Err(_) => 0,
        },
        _ => 0,
    }
}

/// The number at a key, 0 where there is none.
pub(crate) fn number_at(table: &Table, key: &str) -> u64
    ensures { result ≡ number_at key.now (table_view table.now) }
{
    number(value_at(table, key))
}

/// Whether a value is there, and isn't an integer.
pub(crate) fn is_no_integer(value: Option<&Value>) -> bool
    ensures { result ≡ is_no_integer (option_map (λ v. view v.now) value.entry) }
{
    match value {
        None => false,
        Some(Value::Integer(_)) => false,
        Some(_) => true,
    }
}

/// Whether a value is there, and isn't an array.
pub(crate) fn is_no_array(value: Option<&Value>) -> bool
    ensures { result ≡ is_no_array (option_map (λ v. view v.now) value.entry) }
{
    match value {
        None => false,
        Some(Value::Array(_)) => false,
        Some(_) => true,
    }
}

/// Whether an integer is there, and lies outside the range from `low` to `high`.
pub(crate) fn is_outside(low: u64, high: u64, value: Option<&Value>) -> bool
    ensures { result ≡ is_outside low high (option_map (λ v. view v.now) value.entry) }
{
    match value {
        Some(Value::Integer(integer)) => match u64::try_from(*integer) {
            Ok(number) => number < low || high < number,
            Err(_) => true,
        },
        _ => false,
    }
}
