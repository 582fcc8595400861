//! Looking up the keys of a table.

ghost use Rattle.std.specs.Prelude.{◌≡◌, option_map, option_copied, option_and_then};
ghost use Rattle.toml.specs.Data.{get_member, as_str};
ghost use Rattle.toml.specs.View.{view, table_view, array_view};
ghost use Rattle.plant_shape.specs.Shape.{Gives, Reads, number_of, number, optional_number, text, array_at, optional_array, known_members, known_table};

use crate::fault::ShapeFault;
use crate::keys::{TableKind, all_known};
use toml::value::Array;
use toml::{Table, Value};

/// The value at a key, where there is one.
pub fn find<'a>(table: &'a Table, key: &str) -> Option<&'a Value>
    ensures { option_map (λ v. view v.now) result ≡ get_member key.now (table_view table.now) }
{
    table.get(key)
}

/// A value as a number of 0..4294967295.
pub fn number_in(value: &Value) -> Result<u32, ShapeFault>
    ensures { Gives result (number_of (view value.now)) }
{
    match value.as_integer() {
        Some(n) if 0 <= n && n <= 0xFFFF_FFFF => Ok(n as u32),
        _ => Err(ShapeFault::Shape),
    }
}

/// The number at a key that has to be there.
pub fn number(table: &Table, key: &str) -> Result<u32, ShapeFault>
    ensures { Gives result (number key.now (table_view table.now)) }
{
    match find(table, key) {
        Some(value) => number_in(value),
        None => Err(ShapeFault::Shape),
    }
}

/// The number at a key, or `default` where the key is absent.
pub fn optional_number(table: &Table, key: &str, default: u32) -> Result<u32, ShapeFault>
    ensures { Gives result (optional_number default key.now (table_view table.now)) }
{
    match find(table, key) {
        Some(value) => number_in(value),
        None => Ok(default),
    }
}

/// The text at a key.
pub fn text<'a>(table: &'a Table, key: &str) -> Option<&'a str>
    ensures { option_copied result ≡ text key.now (table_view table.now) }
{
    match find(table, key) {
        Some(value) => value.as_str(),
        None => None,
    }
}

/// The text at a key that has to be there.
pub fn text_at<'a>(table: &'a Table, key: &str) -> Result<&'a str, ShapeFault>
    ensures { Reads (λ t. t.now) result (text key.now (table_view table.now)) }
{
    match text(table, key) {
        Some(found) => Ok(found),
        None => Err(ShapeFault::Shape),
    }
}

/// The array at a key.
pub fn array<'a>(table: &'a Table, key: &str) -> Option<&'a Array>
    ensures { option_map (λ v. array_view v.now) result ≡ array_at key.now (table_view table.now) }
{
    match find(table, key) {
        Some(value) => value.as_array(),
        None => None,
    }
}

/// A value as a table with no key but those of its kind.
pub fn known_table(kind: TableKind, value: &Value) -> Option<&Table>
    ensures { option_map (λ t. table_view t.now) result ≡ known_table kind (view value.now) }
{
    match value.as_table() {
        Some(table) if all_known(kind, table) => Some(table),
        _ => None,
    }
}
