//! Building TOML tables.

ghost use Rattle.std.specs.Prelude.{◌≡◌, IfOk, OnOk};
ghost use Rattle.toml.specs.Data.{string};
ghost use Rattle.toml.specs.View.{view, table_view};
ghost use Rattle.plant_rules.specs.Meets.{IsName};
ghost use Rattle.plant_print.specs.Written.{number_data, with_member};

use irt_base::memory::NoMemory;
use std::alloc::Global;
use toml::{Table, Value};

/// Adds a key to a table.
pub fn put(alloc: Global, table: &mut Table, key: &str, value: Value) -> Result<(), NoMemory>
    ensures { OnOk result (table_view table.new ≡ with_member key.now (view value) (table_view table.old)) }
{
    let owned = String::from_str(alloc, key)?;
    table.insert(owned, value)?;
    Ok(())
}

/// Adds a key with a number.
pub fn put_number(alloc: Global, table: &mut Table, key: &str, number: u32) -> Result<(), NoMemory>
    ensures { OnOk result (table_view table.new ≡ with_member key.now (number_data number) (table_view table.old)) }
{
    put(alloc, table, key, number_value(number))
}

/// A number.
pub fn number_value(number: u32) -> Value
    ensures { view result ≡ number_data number }
{
    Value::Integer(i64::from(number))
}

/// Adds a key with a text.
pub fn put_text(alloc: Global, table: &mut Table, key: &str, text: &str) -> Result<(), NoMemory>
    ensures { OnOk result (table_view table.new ≡ with_member key.now (string text.now) (table_view table.old)) }
{
    let value = Value::string(alloc, text)?;
    put(alloc, table, key, value)
}

/// A device's name.
pub fn name_value(alloc: Global, name: &[u8]) -> Result<Value, NoMemory>
    requires { IsName name.now }
    ensures { IfOk result (λ v. view v ≡ string name.now) }
{
    match std::str::from_utf8(name) {
        Ok(text) => Ok(Value::string(alloc, text)?),
        Err(_) => unreachable!(),
    }
}

/// Adds a key with a device's name.
pub fn put_name(alloc: Global, table: &mut Table, key: &str, name: &[u8]) -> Result<(), NoMemory>
    requires { IsName name.now }
    ensures { OnOk result (table_view table.new ≡ with_member key.now (string name.now) (table_view table.old)) }
{
    let value = name_value(alloc, name)?;
    put(alloc, table, key, value)
}
