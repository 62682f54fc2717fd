ghost use Rattle.std.specs.Prelude.{◌≡◌, ◌≤◌, ◌↔◌, min, IsTrue};
ghost use Rattle.txs_values.specs.Measure.{u64_max};
ghost use Rattle.txs_values.specs.Value.{size, height};
ghost use Rattle.txs_values.specs.View.{value_of};

use crate::Value;

/// The greatest size of a value.
pub const VALUE_SIZE_LIMIT: u64 = 16_384;

/// The greatest height of a value.
pub const VALUE_HEIGHT_LIMIT: u64 = 1_000;

/// A value's nodes, with the bytes of its texts; 2^64 - 1 where there are more.
pub fn size_of(value: &Value) -> u64
    ensures { result ≡ min (size (value_of value.now)) u64_max }
{
    match value {
        Value::Int(_) => 1,
        Value::Bool(_) => 1,
        Value::Text(text) => (text.as_bytes().len() as u64).saturating_add(1),
        Value::Cons { fields, .. } => fields.get().size().saturating_add(1),
    }
}

/// How many values stand within one another; 2^64 - 1 where there are more.
pub fn height_of(value: &Value) -> u64
    ensures { result ≡ min (height (value_of value.now)) u64_max }
{
    match value {
        Value::Int(_) => 1,
        Value::Bool(_) => 1,
        Value::Text(_) => 1,
        Value::Cons { fields, .. } => fields.get().height().saturating_add(1),
    }
}

/// Whether a value is no larger and no higher than this.
pub fn is_within(value: &Value, most: u64, highest: u64) -> bool
    ensures { IsTrue result ↔ ((size (value_of value.now) ≤ most) × (height (value_of value.now) ≤ highest)) }
{
    match value {
        Value::Int(_) => 0 < most && 0 < highest,
        Value::Bool(_) => 0 < most && 0 < highest,
        Value::Text(text) => (text.as_bytes().len() as u64) < most && 0 < highest,
        Value::Cons { fields, .. } => {
            fields.get().size() < most && fields.get().height() < highest
        }
    }
}
