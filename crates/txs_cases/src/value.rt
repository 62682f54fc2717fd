use crate::refusal::Refusal;
use crate::table::{table_of, type_named};
use std::alloc::Global;
use std::fmt::Write;
use txs_case::push_line;
use txs_values::{
    ConsDef, Extent, Ty, TypeTable, VALUE_HEIGHT_LIMIT, VALUE_SIZE_LIMIT, Value, default_extent,
    default_of, height_of, read_value, size_of, text_of,
};

/// The type of this name in a table.
fn type_in(table: &TypeTable, name: &[u8]) -> Result<Ty, Refusal> {
    match type_named(table.as_slice(), name) {
        Some(ty) => Ok(ty),
        None => Err(Refusal::Unread),
    }
}

/// The value that bytes spell.
pub fn value(
    alloc: Global,
    definitions: &[u8],
    name: &[u8],
    bytes: &[u8],
) -> Result<String, Refusal> {
    let table = table_of(alloc, definitions)?;
    let ty = type_in(&table, name)?;
    let value = read_value(alloc, &table, ty, bytes)?;
    value_line(alloc, &table, &value)
}

/// The line of a value.
pub fn value_line(alloc: Global, table: &TypeTable, value: &Value) -> Result<String, Refusal> {
    let text = text_of(alloc, table, value)?;
    let mut line = String::from_str(alloc, "VALUE ")?;
    line.push_str(text.as_str())?;
    let mut out = String::new(alloc);
    push_line(&mut out, line.as_bytes())?;
    Ok(out)
}

fn extent_line(alloc: Global, extent: Extent) -> Result<String, Refusal> {
    let mut out = String::new(alloc);
    let Extent { size, height } = extent;
    writeln!(out, "size {size} height {height}")?;
    Ok(out)
}

/// The size and the height of the value that bytes spell.
pub fn measure(
    alloc: Global,
    definitions: &[u8],
    name: &[u8],
    bytes: &[u8],
) -> Result<String, Refusal> {
    let table = table_of(alloc, definitions)?;
    let ty = type_in(&table, name)?;
    let value = read_value(alloc, &table, ty, bytes)?;
    let size = size_of(&value);
    let height = height_of(&value);
    extent_line(alloc, Extent { size, height })
}

fn none_line(alloc: Global) -> Result<String, Refusal> {
    Ok(String::from_str(alloc, "none\n")?)
}

/// The default of a type.
pub fn default(alloc: Global, definitions: &[u8], name: &[u8]) -> Result<String, Refusal> {
    let table = table_of(alloc, definitions)?;
    let ty = type_in(&table, name)?;
    match default_extent(alloc, &table, ty)? {
        Some(extent) if is_big(extent) => Ok(String::from_str(alloc, "REFUSED TooBig\n")?),
        Some(_) => {
            let value = default_of(alloc, &table, ty)?;
            value_line(alloc, &table, &value)
        }
        None => none_line(alloc),
    }
}

/// Whether a value of this extent is past the limits of values.
fn is_big(extent: Extent) -> bool {
    extent.size > VALUE_SIZE_LIMIT || extent.height > VALUE_HEIGHT_LIMIT
}

/// The size and the height of a type's default.
pub fn extent(alloc: Global, definitions: &[u8], name: &[u8]) -> Result<String, Refusal> {
    let table = table_of(alloc, definitions)?;
    let ty = type_in(&table, name)?;
    match default_extent(alloc, &table, ty)? {
        Some(extent) => extent_line(alloc, extent),
        None => none_line(alloc),
    }
}

/// The constructors by their numbers, each with its type.
pub fn table(alloc: Global, definitions: &[u8]) -> Result<String, Refusal> {
    let table = table_of(alloc, definitions)?;
    let mut out = String::new(alloc);
    for number in 0..u32::MAX {
        let Some((ty, constructor)) = table.constructor_at(number) else {
            break;
        };
        push_constructor(&mut out, &table, number, ty, constructor)?;
    }
    Ok(out)
}

fn push_constructor(
    out: &mut String,
    table: &TypeTable,
    number: u32,
    ty: usize,
    constructor: &ConsDef,
) -> Result<(), Refusal> {
    let name = constructor.name.as_str();
    match table.as_slice().get(ty) {
        Some(def) => writeln!(out, "{number} {} {name}", def.name.as_str())?,
        None => {}
    }
    Ok(())
}
