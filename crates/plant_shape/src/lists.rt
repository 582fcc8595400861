//! Arrays of numbers and of texts.

ghost use Rattle.std.specs.Prelude.{◌≡◌, IfOk, Some};
ghost use Rattle.toml.specs.Data.{as_str};
ghost use Rattle.toml.specs.View.{view, array_view};
ghost use Rattle.plant_shape.specs.Shape.{Gives, number_of, numbers_of, texts_of, each_item};

use crate::fault::ShapeFault;
use crate::look::number_in;
use irt_base::list::Items;
use std::alloc::Global;
use toml::Value;
use toml::value::Array;

/// A copy of a text.
pub fn copy_text(alloc: Global, text: &str) -> Result<Items<u8>, ShapeFault>
    ensures { Gives result (Some text.now) }
{
    let bytes = Vec::from_slice(alloc, text.as_bytes())?;
    Ok(Items::from_vec(bytes))
}

/// Copies of two texts.
pub fn copy_texts(
    alloc: Global,
    first: &str,
    second: &str,
) -> Result<(Items<u8>, Items<u8>), ShapeFault>
    ensures { Gives result (Some (first.now, second.now)) }
{
    let first = copy_text(alloc, first)?;
    let second = copy_text(alloc, second)?;
    Ok((first, second))
}

/// A value as a text.
pub fn text_in(alloc: Global, value: &Value) -> Result<Items<u8>, ShapeFault>
    ensures { Gives result (as_str (view value.now)) }
{
    match value.as_str() {
        Some(text) => copy_text(alloc, text),
        None => Err(ShapeFault::Shape),
    }
}

/// A value as an array of numbers.
pub fn numbers_in(alloc: Global, value: &Value) -> Result<Items<u32>, ShapeFault>
    ensures { Gives result (numbers_of (view value.now)) }
{
    match value.as_array() {
        Some(array) => each_number(alloc, array),
        None => Err(ShapeFault::Shape),
    }
}

fn each_number(alloc: Global, array: &Array) -> Result<Items<u32>, ShapeFault>
    ensures { Gives result (each_item number_of (array_view array.now)) }
{
    let mut numbers = Items::new(alloc);
    for value in array {
        numbers.push(number_in(value)?)?;
    }
    Ok(numbers)
}

/// A value as an array of texts.
pub fn texts_in(alloc: Global, value: &Value) -> Result<Items<Items<u8>>, ShapeFault>
    ensures { Gives result (texts_of (view value.now)) }
{
    match value.as_array() {
        Some(array) => each_text(alloc, array),
        None => Err(ShapeFault::Shape),
    }
}

fn each_text(alloc: Global, array: &Array) -> Result<Items<Items<u8>>, ShapeFault>
    ensures { Gives result (each_item as_str (array_view array.now)) }
{
    let mut texts = Items::new(alloc);
    for value in array {
        texts.push(text_in(alloc, value)?)?;
    }
    Ok(texts)
}

/// The arrays of numbers in an array.
pub fn each_numbers(alloc: Global, array: &Array) -> Result<Items<Items<u32>>, ShapeFault>
    ensures { Gives result (each_item numbers_of (array_view array.now)) }
{
    let mut entries = Items::new(alloc);
    for value in array {
        entries.push(numbers_in(alloc, value)?)?;
    }
    Ok(entries)
}
