ghost use Rattle.std.specs.Prelude.{◌≡◌, ◌≢◌, slice_get};
ghost use Rattle.txs_values.specs.Spelled.{IsNamed};
ghost use Rattle.txs_values.specs.Value.{string};
ghost use Rattle.txs_values.specs.View.{value_of, values_of, ty_of};
ghost use Rattle.txs_terms.specs.Eval as spec;
ghost use Rattle.txs_terms.specs.Expr.{to_text};
ghost use Rattle.txs_terms.specs.View.{unary_of, binary_of};
ghost use Rattle.txs_values.specs.declared.refusal.ReadValueFault.TheVariants.{NoMemory as wanting};
ghost use Rattle.txs_eval.specs.declared.fault.Stop.TheVariants.{NoMemory, Form};
ghost use Rattle.txs_eval.specs.Answer.{Comes};

use crate::equality::same;
use crate::fault::Stop;
use crate::numbers::{negated, on_numbers};
use crate::texts::{char_at, on_texts, sized, text_length};
use std::alloc::Global;
use txs_terms::{Binary, Unary};
use txs_values::{ReadValueFault, Text, Ty, TypeTable, Value, copy_value, read_value, text_of};

fn written(alloc: Global, table: &TypeTable, value: &Value) -> Result<Value, Stop>
    ensures { Comes result (spec.unary table.now to_text (value_of value.now)) }
{
    match value {
        Value::Text(text) => sized(Value::Text(text.copy(alloc)?)),
        _ => sized(Value::Text(text_of(alloc, table, value)?)),
    }
}

fn read(alloc: Global, table: &TypeTable, ty: Ty, text: &Text) -> Result<Value, Stop>
    requires { IsNamed table.now }
    ensures { Comes result (spec.text_to table.now (ty_of ty) text.now) }
{
    match ty {
        Ty::Text => Ok(Value::Text(text.copy(alloc)?)),
        Ty::Int => read_other(alloc, table, Ty::Int, text),
        Ty::Bool => read_other(alloc, table, Ty::Bool, text),
        Ty::Named(id) => read_other(alloc, table, Ty::Named(id), text),
    }
}

/// The value of a type other than String that the text spells.
fn read_other(alloc: Global, table: &TypeTable, ty: Ty, text: &Text) -> Result<Value, Stop>
    requires named { IsNamed table.now }
    requires other { ty_of ty ≢ string }
    ensures { Comes result (spec.text_to table.now (ty_of ty) text.now) }
{
    match read_value(alloc, table, ty, text.as_str().as_bytes()) {
        Ok(value) => Ok(value),
        Err(fault) => Err(unread(fault)),
    }
}

/// A text that is no spelling of an allowed value, be it for its form or for a limit.
fn unread(fault: ReadValueFault) -> Stop
    ensures wanting { fault ≡ wanting → result ≡ NoMemory }
    ensures form { fault ≢ wanting → result ≡ Form }
{
    match fault {
        ReadValueFault::NoMemory => Stop::NoMemory,
        ReadValueFault::NotText => Stop::Form,
        ReadValueFault::WrongForm { .. } => Stop::Form,
        ReadValueFault::Range { .. } => Stop::Form,
        ReadValueFault::TooDeep { .. } => Stop::Form,
        ReadValueFault::TooBig => Stop::Form,
    }
}

fn selected(alloc: Global, fields: &[Value], field: u32) -> Result<Value, Stop>
    ensures { Comes result (spec.selected (slice_get (values_of fields.now) field)) }
{
    match fields.get(field as usize) {
        Some(value) => Ok(copy_value(alloc, value)?),
        None => Err(Stop::Wrong),
    }
}

/// An operator on one value.
pub fn unary(
    alloc: Global,
    table: &TypeTable,
    operator: Unary,
    value: &Value,
) -> Result<Value, Stop>
    requires { IsNamed table.now }
    ensures { Comes result (spec.unary table.now (unary_of operator) (value_of value.now)) }
{
    match (operator, value) {
        (Unary::Negate, Value::Int(x)) => negated(*x),
        (Unary::Not, Value::Bool(b)) => Ok(Value::Bool(!*b)),
        (Unary::ToText, value) => written(alloc, table, value),
        (Unary::FromText(ty), Value::Text(text)) => read(alloc, table, ty, text),
        (Unary::Length, Value::Text(text)) => text_length(text),
        (Unary::IsMadeBy(constructor), Value::Cons { id, fields: _ }) => {
            Ok(Value::Bool(constructor == *id))
        }
        (Unary::Select { constructor, field }, Value::Cons { id, fields }) => {
            if constructor == *id {
                selected(alloc, fields.get().as_slice(), field)
            } else {
                Err(Stop::Selector)
            }
        }
        _ => Err(Stop::Wrong),
    }
}

/// An operator on two values.
pub fn binary(alloc: Global, operator: Binary, a: &Value, b: &Value) -> Result<Value, Stop>
    ensures { Comes result (spec.binary (binary_of operator) (value_of a.now) (value_of b.now)) }
{
    match (a, b) {
        (Value::Int(x), Value::Int(y)) => on_numbers(operator, *x, *y),
        (Value::Text(x), Value::Text(y)) => on_texts(alloc, operator, x, y),
        (Value::Text(x), Value::Int(at)) if operator == Binary::CharAt => char_at(alloc, x, *at),
        _ => {
            if operator == Binary::Differ {
                Ok(Value::Bool(!same(a, b)))
            } else {
                Err(Stop::Wrong)
            }
        }
    }
}
