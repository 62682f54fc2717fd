ghost use Rattle.std.specs.Prelude.{◌≡◌, ◌++◌, ◌∷◌, [], encode_utf8, string_bytes, IfOk, OnOk};
ghost use Rattle.std.specs.Fmt.{signed_decimal};
ghost use Rattle.txs_values.specs.Text.{escaped, name_of, text_of};
ghost use Rattle.txs_values.specs.Spelled.{IsSpelling};
ghost use Rattle.txs_values.specs.Value.{Ty, HasType, place_of};
ghost use Rattle.txs_values.specs.View.{value_of};

use crate::{NoMemory, Text, TypeTable, Value};
use std::alloc::Global;

/// A character as it stands within quotes.
fn write_char(out: &mut String, ch: char) -> Result<(), NoMemory>
    ensures { OnOk result (string_bytes out.new ≡ string_bytes out.old ++ escaped (encode_utf8 ch)) }
{
    match ch {
        '"' => out.push_str("\\\"")?,
        '\\' => out.push_str("\\\\")?,
        '\n' => out.push_str("\\n")?,
        '\r' => out.push_str("\\r")?,
        '\t' => out.push_str("\\t")?,
        _ => out.push(ch)?,
    }
    Ok(())
}

fn write_escaped(out: &mut String, text: &Text) -> Result<(), NoMemory>
    ensures { OnOk result (string_bytes out.new ≡ string_bytes out.old ++ escaped text.now) }
{
    let text = text.as_str();
    for ch in text.chars() {
        write_char(out, ch)?;
    }
    Ok(())
}

fn write_quoted(out: &mut String, text: &Text) -> Result<(), NoMemory>
    ensures { OnOk result (string_bytes out.new ≡ string_bytes out.old ++ (34 ∷ (escaped text.now ++ 34 ∷ []))) }
{
    out.push_str("\"")?;
    write_escaped(out, text)?;
    out.push_str("\"")?;
    Ok(())
}

fn write_name(out: &mut String, table: &TypeTable, id: u32) -> Result<(), NoMemory>
    ensures { OnOk result (string_bytes out.new ≡ string_bytes out.old ++ name_of (place_of table.now id)) }
{
    if let Some((_, cons)) = table.constructor_at(id) {
        out.push_str(cons.name.as_str())?;
    }
    Ok(())
}

fn write_number(alloc: Global, out: &mut String, n: i128) -> Result<(), NoMemory>
    ensures { OnOk result (string_bytes out.new ≡ string_bytes out.old ++ signed_decimal n) }
{
    let number = n.to_string(alloc)?;
    out.push_str(number.as_str())?;
    Ok(())
}

fn write_value(
    alloc: Global,
    out: &mut String,
    table: &TypeTable,
    value: &Value,
) -> Result<(), NoMemory>
    ensures { OnOk result (string_bytes out.new ≡ string_bytes out.old ++ text_of table.now (value_of value.now)) }
{
    match value {
        Value::Int(n) => write_number(alloc, out, *n),
        Value::Bool(true) => {
            out.push_str("True")?;
            Ok(())
        }
        Value::Bool(false) => {
            out.push_str("False")?;
            Ok(())
        }
        Value::Text(text) => write_quoted(out, text),
        Value::Cons { id, fields } => {
            write_name(out, table, *id)?;
            if let [first, others @ ..] = fields.get().as_slice() {
                out.push_str("(")?;
                write_value(alloc, out, table, first)?;
                for other in others {
                    out.push_str(",")?;
                    write_value(alloc, out, table, other)?;
                }
                out.push_str(")")?;
            }
            Ok(())
        }
    }
}

/// The canonical text of a value.
pub fn text_of(alloc: Global, table: &TypeTable, value: &Value) -> Result<Text, NoMemory>
    ensures text { IfOk result (λ t. t ≡ text_of table.now (value_of value.now)) }
    ensures spelling { IfOk result (λ t. (ty : Ty) → HasType table.now (value_of value.now) ty → IsSpelling table.now ty (value_of value.now) t) }
{
    let mut out = String::new(alloc);
    write_value(alloc, &mut out, table, value)?;
    let text = Text::from_string(alloc, out)?;
    Ok(text)
}
