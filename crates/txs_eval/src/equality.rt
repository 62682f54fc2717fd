ghost use Rattle.std.specs.Prelude.{◌≡◌, map};
ghost use Rattle.txs_values.specs.Value.{packed, same_value, same_each};
ghost use Rattle.txs_values.specs.View.{value_of, values_of};

use txs_values::Value;

/// Whether two values are equal.
#[cycle(same)]
pub fn same(a: &Value, b: &Value) -> bool
    ensures { result ≡ same_value (value_of a.now) (value_of b.now) }
{
    match (a, b) {
        (Value::Int(x), Value::Int(y)) => *x == *y,
        (Value::Bool(x), Value::Bool(y)) => *x == *y,
        (Value::Text(x), Value::Text(y)) => x.is(y),
        (Value::Cons { id: c, fields: xs }, Value::Cons { id: d, fields: ys }) => {
            *c == *d && same_fields(xs.get().as_slice(), ys.get().as_slice())
        }
        _ => false,
    }
}

#[cycle(same)]
fn same_fields(xs: &[Value], ys: &[Value]) -> bool
    ensures { result ≡ same_each (packed (values_of xs.now)) (packed (values_of ys.now)) }
{
    if xs.len() != ys.len() {
        return false;
    }
    for index in 0..xs.len() {
        if !same(&xs[index], &ys[index]) {
            return false;
        }
    }
    true
}
