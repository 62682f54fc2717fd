ghost use Rattle.std.specs.Prelude.{◌≡◌, IfOk, OnErr, IfErr, Ok, List, [], ◌∷◌, ◌++◌, take, slice_get};
ghost use Rattle.txs_values.specs.Spelled.{IsNamed};
ghost use Rattle.txs_values.specs.declared.value.Value as rust;
ghost use Rattle.txs_values.specs.Value.{bool, cons, packed, same_value};
ghost use Rattle.txs_values.specs.View.{value_of, values_of};
ghost use Rattle.txs_terms.specs.Eval as spec;
ghost use Rattle.txs_terms.specs.Under as under;
ghost use Rattle.txs_terms.specs.View.{unary_of, binary_of};
ghost use Rattle.txs_eval.specs.Answer.{Comes, Ends, EndEach, EndTruth, Stopped};

use crate::equality::same;
use crate::fault::Stop;
use crate::operators::{binary, unary};
use crate::texts::sized;
use std::alloc::Global;
use txs_terms::{Binary, Unary};
use txs_values::{TypeTable, Value, Values, copy_value, made_of};

/// The value that was found, with the nodes that were entered by then; or why none was.
pub type Found = Result<(Value, u32), Stop>;

/// A value that stands in the expression.
pub fn copied(alloc: Global, value: &Value, nodes: u32) -> Found
    ensures { Ends result (spec.got (value_of value.now) nodes) }
{
    Ok((copy_value(alloc, value)?, nodes))
}

/// The value of a variable.
pub fn looked_up(alloc: Global, values: &[Value], at: u32, nodes: u32) -> Found
    ensures { Ends result (under.looked_up (slice_get (values_of values.now) at) nodes) }
{
    match values.get(at as usize) {
        Some(value) => Ok((copy_value(alloc, value)?, nodes)),
        None => Err(Stop::Wrong),
    }
}

/// What an operator gives, with the nodes that were entered so far.
pub fn counted(found: Result<Value, Stop>, nodes: u32) -> Found
    ensures value { (o : spec.Outcome) → Comes found o → Ends result (spec.after o nodes) }
    ensures memory { result ≡ Err Stop.NoMemory → found ≡ Err Stop.NoMemory }
{
    match found {
        Ok(value) => Ok((value, nodes)),
        Err(stop) => Err(stop),
    }
}

/// An operator on the value that was found.
pub fn on_one(alloc: Global, table: &TypeTable, operator: Unary, found: Found) -> Found
    requires { IsNamed table.now }
    ensures value { (r : spec.Run) → Ends found r → Ends result (spec.then_run r (λ x. spec.after (spec.unary table.now (unary_of operator) x))) }
{
    match found {
        Ok((a, nodes)) => counted(unary(alloc, table, operator, &a), nodes),
        Err(stop) => Err(stop),
    }
}

/// An operator on a value and the one that was found after it.
pub fn on_two(alloc: Global, operator: Binary, a: Value, found: Found) -> Found
    ensures value { (r : spec.Run) → Ends found r → Ends result (spec.then_run r (λ y. spec.after (spec.binary (binary_of operator) (value_of a) y))) }
{
    match found {
        Ok((b, nodes)) => counted(binary(alloc, operator, &a, &b), nodes),
        Err(stop) => Err(stop),
    }
}

/// Whether a value and the one that was found after it are the same.
pub fn on_equal(a: Value, found: Found) -> Found
    ensures value { (r : spec.Run) → Ends found r → Ends result (spec.then_run r (λ y. spec.got (bool (same_value (value_of a) y)))) }
    ensures memory { result ≡ Err Stop.NoMemory → found ≡ Err Stop.NoMemory }
{
    match found {
        Ok((b, nodes)) => Ok((Value::Bool(same(&a, &b)), nodes)),
        Err(stop) => Err(stop),
    }
}

/// The truth value that was found.
pub fn truth(found: Found) -> Result<(bool, u32), Stop>
    ensures value { (r : spec.Run) → Ends found r → EndTruth result r }
    ensures memory { result ≡ Err Stop.NoMemory → found ≡ Err Stop.NoMemory }
{
    match found {
        Ok((Value::Bool(b), nodes)) => Ok((b, nodes)),
        Ok(_) => Err(Stop::Wrong),
        Err(stop) => Err(stop),
    }
}

/// A constructor with the fields that were found.
pub fn built(alloc: Global, constructor: u32, found: Result<(Values, u32), Stop>) -> Found
    ensures value { (r : spec.Runs) → EndEach found r → Ends result (spec.then_runs r (λ vs. spec.after (spec.sized (cons constructor (packed vs))))) }
{
    match found {
        Ok((fields, nodes)) => counted(sized(made_of(alloc, constructor, fields)?), nodes),
        Err(stop) => Err(stop),
    }
}

/// The value that was found goes after these.
pub fn pushed(values: &mut Values, found: Found) -> Result<u32, Stop>
    ensures value { IfOk result (λ n. (v : rust.Value) × (found ≡ Ok (v, n)) × (values.new ≡ values.old ++ v ∷ [])) }
    ensures kept { OnErr result (values.new ≡ values.old) }
    ensures stopped { (r : spec.Run) → Ends found r → IfErr result (λ s. Stopped spec.bad s r) }
{
    match found {
        Ok((value, nodes)) => {
            values.push(value)?;
            Ok(nodes)
        }
        Err(stop) => Err(stop),
    }
}

/// The locals go that came after the first `outer`.
pub fn unbind(locals: &mut Values, outer: usize)
    ensures { locals.new ≡ take outer locals.old }
{
    while locals.len() > outer {
        locals.pop();
    }
}
