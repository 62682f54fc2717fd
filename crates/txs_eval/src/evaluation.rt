ghost use Rattle.std.specs.Prelude.{◌≡◌, ◌≢◌, ℕ, ◌<◌, ◌+◌, ◌-◌, IfOk, IfErr, OnErr, List, [], ◌∷◌, ◌++◌};
ghost use Rattle.txs_values.specs.declared.value.Value as rust;
ghost use Rattle.txs_values.specs.Value.{Ty as TheType, HasType};
ghost use Rattle.txs_values.specs.View.{value_of, values_of};
ghost use Rattle.txs_terms.specs.Eval as spec;
ghost use Rattle.txs_terms.specs.Expr.{put, filled};
ghost use Rattle.txs_terms.specs.Expr as of;
ghost use Rattle.txs_terms.specs.Under as under;
ghost use Rattle.txs_terms.specs.Under.{each_under, node_bare, run_bare};
ghost use Rattle.txs_terms.specs.Defs.{bodies};
ghost use Rattle.txs_terms.specs.View.{definitions_of, expr_of, exprs_of, bounds_of, let_all, gathered, unary_of, binary_of};
ghost use Rattle.txs_eval.specs.Answer.{Answers, IsTyped, Stopped, Ends, EndEach, around, IsNoLet, IsNoEmptyLet};

use crate::fault::{EvalFault, Stop, fault_of};
use crate::found::{
    Found, built, copied, looked_up, on_equal, on_one, on_two, pushed, truth, unbind,
};
use sqlite_items::Items;
use std::alloc::Global;
use txs_terms::{Binary, Binding, Defs, Expr, SharedExprs, Unary};
use txs_values::{Value, Values};

/// How many nodes of an expression may stand within one another.
const HEIGHT_LIMIT: u32 = 1_000;

/// How many nodes may be entered.
const NODE_LIMIT: u32 = 1_000_000;

/// What stands around a node: the definitions, the values of the slots, and how many more levels may be entered.
#[derive(Clone, Copy)]
struct Frame<'a> {
    alloc: Global,
    defs: &'a Defs,
    slots: &'a [Value],
    left: u32,
}

/// The value of an expression, slot k of which is the value k; or the fault that its evaluation meets first, by the limits of height and nodes among them.
pub fn eval(alloc: Global, defs: &Defs, expr: &Expr, values: &Values) -> Result<Value, EvalFault>
    requires typed { (t : TheType) × IsTyped (definitions_of defs.now) (values_of values.now) (expr_of expr.now) t }
    ensures value { Answers (spec.eval (bodies (definitions_of defs.now))
        (put (filled (values_of values.now)) (expr_of expr.now))) result }
    ensures typed { (t : TheType) → IsTyped (definitions_of defs.now) (values_of values.now) (expr_of expr.now) t
        → IfOk result (λ v. HasType defs.now.0 (value_of v) t) }
{
    match from_the_top(alloc, defs, values.as_slice(), expr) {
        Ok((value, _)) => Ok(value),
        Err(stop) => Err(fault_of(stop)),
    }
}

/// Evaluation with no level and no node entered yet.
fn from_the_top(alloc: Global, defs: &Defs, values: &[Value], expr: &Expr) -> Found
    ensures { Ends result (run_bare (bodies (definitions_of defs.now)) 1000 (around values.now []) (expr_of expr.now) 0) }
{
    let frame = Frame {
        alloc,
        defs,
        slots: values,
        left: HEIGHT_LIMIT,
    };
    body(frame, expr, 0)
}

/// One more node is entered, after `nodes` others, where `left` more levels may be.
#[tactic(auto, using(crate::proofs::Steps::run_long))]
fn entered(left: u32, nodes: u32) -> Result<u32, Stop>
    ensures inside { IfOk result (λ n. (left ≢ 0) × (nodes < 1000000) × (n ≡ nodes + 1)) }
    ensures stopped { (d : spec.Defs) → (env : under.Environment) → (e : of.Expr) → IfErr result (λ s. Stopped spec.bad s (run_bare d left env e nodes)) }
{
    if left == 0 {
        return Err(Stop::High);
    }
    if nodes >= NODE_LIMIT {
        return Err(Stop::Long);
    }
    Ok(nodes + 1)
}

/// The expression without the LETs around it that bind nothing.
fn past_empty<'a>(expr: &'a Expr) -> &'a Expr
    ensures same { expr_of result.now ≡ expr_of expr.now }
    ensures binds { IsNoEmptyLet result.now }
{
    let mut inner = expr;
    while let Expr::Let(bindings, body) = inner {
        if !bindings.as_slice().is_empty() {
            return inner;
        }
        inner = body.get();
    }
    inner
}

/// The value of an expression before which `nodes` nodes were entered, with how many were by its end.
#[cycle(eval)]
fn value_at(frame: Frame, locals: &mut Values, expr: &Expr, nodes: u32) -> Found
    ensures value { Ends result (run_bare (bodies (definitions_of frame.entry.defs.now)) frame.entry.left (around frame.entry.slots.now locals.old) (expr_of expr.now) nodes) }
    ensures kept { locals.new ≡ locals.old }
{
    let expr = past_empty(expr);
    if let Expr::Let(bindings, body) = expr {
        return let_in(frame, locals, bindings.as_slice(), body.get(), nodes);
    }
    let nodes = entered(frame.left, nodes)?;
    let below = Frame {
        left: frame.left - 1,
        ..frame
    };
    node(below, locals, expr, nodes)
}

/// One node, which is entered, and is no LET.
#[cycle(eval)]
fn node(frame: Frame, locals: &mut Values, expr: &Expr, nodes: u32) -> Found
    requires plain { IsNoLet expr.now }
    ensures value { let d = bodies (definitions_of frame.entry.defs.now) in
        Ends result (node_bare d (run_bare d frame.entry.left) (around frame.entry.slots.now locals.old) (expr_of expr.now) nodes) }
    ensures kept { locals.new ≡ locals.old }
{
    match expr {
        Expr::Value(value) => copied(frame.alloc, value, nodes),
        Expr::Slot(slot) => looked_up(frame.alloc, frame.slots, *slot, nodes),
        Expr::Local(local) => looked_up(frame.alloc, locals.as_slice(), *local, nodes),
        Expr::Constant(at) => constant(frame, *at, nodes),
        Expr::One(operator, a) => one(frame, locals, *operator, a.get(), nodes),
        Expr::Two(operator, a, b) => two(frame, locals, *operator, a.get(), b.get(), nodes),
        Expr::Equal(a, b) => equal(frame, locals, a.get(), b.get(), nodes),
        Expr::And(a, b) => both(frame, locals, a.get(), b.get(), nodes),
        Expr::Or(a, b) => either(frame, locals, a.get(), b.get(), nodes),
        Expr::If(c, a, b) => choose(frame, locals, c.get(), a.get(), b.get(), nodes),
        Expr::Call(function, args) => call(frame, locals, *function, args, nodes),
        Expr::Build(constructor, args) => build(frame, locals, *constructor, args, nodes),
        Expr::Let(..) => unreachable!(),
    }
}

/// A constant of the file.
#[cycle(eval)]
fn constant(frame: Frame, at: u32, nodes: u32) -> Found
    ensures { let d = bodies (definitions_of frame.entry.defs.now) in
        Ends result (node_bare d (run_bare d frame.entry.left) (around [] []) (of.constant at) nodes) }
{
    let inner = Frame {
        slots: &[],
        ..frame
    };
    match frame.defs.constants().get(at as usize) {
        Some(constant) => body(inner, &constant.body, nodes),
        None => Err(Stop::Wrong),
    }
}

/// An operator on one value.
#[cycle(eval)]
fn one(frame: Frame, locals: &mut Values, operator: Unary, a: &Expr, nodes: u32) -> Found
    ensures value { let d = bodies (definitions_of frame.entry.defs.now) in
        Ends result (node_bare d (run_bare d frame.entry.left) (around frame.entry.slots.now locals.old) (of.one (unary_of operator) (expr_of a.now)) nodes) }
    ensures kept { locals.new ≡ locals.old }
{
    let found = value_at(frame, locals, a, nodes);
    on_one(frame.alloc, frame.defs.table(), operator, found)
}

/// An operator on two values.
#[cycle(eval)]
fn two(frame: Frame, locals: &mut Values, operator: Binary, a: &Expr, b: &Expr, nodes: u32) -> Found
    ensures value { let d = bodies (definitions_of frame.entry.defs.now) in
        Ends result (node_bare d (run_bare d frame.entry.left) (around frame.entry.slots.now locals.old) (of.two (binary_of operator) (expr_of a.now) (expr_of b.now)) nodes) }
    ensures kept { locals.new ≡ locals.old }
{
    let (a, nodes) = value_at(frame, locals, a, nodes)?;
    let found = value_at(frame, locals, b, nodes);
    on_two(frame.alloc, operator, a, found)
}

/// `==` of two values.
#[cycle(eval)]
fn equal(frame: Frame, locals: &mut Values, a: &Expr, b: &Expr, nodes: u32) -> Found
    ensures value { let d = bodies (definitions_of frame.entry.defs.now) in
        Ends result (node_bare d (run_bare d frame.entry.left) (around frame.entry.slots.now locals.old) (of.equal (expr_of a.now) (expr_of b.now)) nodes) }
    ensures kept { locals.new ≡ locals.old }
{
    let (a, nodes) = value_at(frame, locals, a, nodes)?;
    on_equal(a, value_at(frame, locals, b, nodes))
}

/// `/\`, the right side of which is evaluated after True alone.
#[cycle(eval)]
fn both(frame: Frame, locals: &mut Values, a: &Expr, b: &Expr, nodes: u32) -> Found
    ensures value { let d = bodies (definitions_of frame.entry.defs.now) in
        Ends result (node_bare d (run_bare d frame.entry.left) (around frame.entry.slots.now locals.old) (of.both (expr_of a.now) (expr_of b.now)) nodes) }
    ensures kept { locals.new ≡ locals.old }
{
    match truth(value_at(frame, locals, a, nodes))? {
        (true, nodes) => value_at(frame, locals, b, nodes),
        (false, nodes) => Ok((Value::Bool(false), nodes)),
    }
}

/// `\/`, the right side of which is evaluated after False alone.
#[cycle(eval)]
fn either(frame: Frame, locals: &mut Values, a: &Expr, b: &Expr, nodes: u32) -> Found
    ensures value { let d = bodies (definitions_of frame.entry.defs.now) in
        Ends result (node_bare d (run_bare d frame.entry.left) (around frame.entry.slots.now locals.old) (of.either (expr_of a.now) (expr_of b.now)) nodes) }
    ensures kept { locals.new ≡ locals.old }
{
    match truth(value_at(frame, locals, a, nodes))? {
        (true, nodes) => Ok((Value::Bool(true), nodes)),
        (false, nodes) => value_at(frame, locals, b, nodes),
    }
}

/// The one branch that the condition chooses.
#[cycle(eval)]
fn choose(frame: Frame, locals: &mut Values, c: &Expr, a: &Expr, b: &Expr, nodes: u32) -> Found
    ensures value { let d = bodies (definitions_of frame.entry.defs.now) in
        Ends result (node_bare d (run_bare d frame.entry.left) (around frame.entry.slots.now locals.old) (of.choose (expr_of c.now) (expr_of a.now) (expr_of b.now)) nodes) }
    ensures kept { locals.new ≡ locals.old }
{
    match truth(value_at(frame, locals, c, nodes))? {
        (true, nodes) => value_at(frame, locals, a, nodes),
        (false, nodes) => value_at(frame, locals, b, nodes),
    }
}

/// A function of the file, on the values of its arguments.
#[cycle(eval)]
fn call(frame: Frame, locals: &mut Values, function: u32, args: &SharedExprs, nodes: u32) -> Found
    ensures value { let d = bodies (definitions_of frame.entry.defs.now) in
        Ends result (node_bare d (run_bare d frame.entry.left) (around frame.entry.slots.now locals.old) (of.apply function (gathered (exprs_of args.now))) nodes) }
    ensures kept { locals.new ≡ locals.old }
{
    let (values, nodes) = each(frame, locals, args.as_slice(), nodes)?;
    let inner = Frame {
        slots: values.as_slice(),
        ..frame
    };
    match frame.defs.functions().get(function as usize) {
        Some(function) => body(inner, &function.body, nodes),
        None => Err(Stop::Wrong),
    }
}

/// A constructor with the values of its fields.
#[cycle(eval)]
fn build(
    frame: Frame,
    locals: &mut Values,
    constructor: u32,
    args: &SharedExprs,
    nodes: u32,
) -> Found
    ensures value { let d = bodies (definitions_of frame.entry.defs.now) in
        Ends result (node_bare d (run_bare d frame.entry.left) (around frame.entry.slots.now locals.old) (of.build constructor (gathered (exprs_of args.now))) nodes) }
    ensures kept { locals.new ≡ locals.old }
{
    let found = each(frame, locals, args.as_slice(), nodes);
    built(frame.alloc, constructor, found)
}

/// A LET of one binding or more.
#[cycle(eval)]
fn let_in(frame: Frame, locals: &mut Values, bindings: &[Binding], body: &Expr, nodes: u32) -> Found
    requires binds { bindings.now ≢ [] }
    ensures value { Ends result (run_bare (bodies (definitions_of frame.entry.defs.now)) frame.entry.left (around frame.entry.slots.now locals.old)
        (let_all (bounds_of bindings.now) (expr_of body.now)) nodes) }
    ensures kept { locals.new ≡ locals.old }
{
    let outer = locals.len();
    let found = within_names(frame, locals, bindings, body, nodes);
    unbind(locals, outer);
    found
}

/// The body of a LET, for which each binding in turn leaves its value as one more local.
#[cycle(eval)]
fn within_names(
    frame: Frame,
    locals: &mut Values,
    bindings: &[Binding],
    body: &Expr,
    nodes: u32,
) -> Found
    requires binds { bindings.now ≢ [] }
    ensures value { Ends result (run_bare (bodies (definitions_of frame.entry.defs.now)) frame.entry.left (around frame.entry.slots.now locals.old)
        (let_all (bounds_of bindings.now) (expr_of body.now)) nodes) }
    ensures more { (vs : List rust.Value) × (locals.new ≡ locals.old ++ vs) }
{
    let mut left = frame.left;
    let mut nodes = nodes;
    for binding in bindings {
        nodes = bind(Frame { left, ..frame }, locals, &binding.value, nodes)?;
        left -= 1;
    }
    value_at(Frame { left, ..frame }, locals, body, nodes)
}

/// The value of a binding, one level below its LET, as one more local.
#[cycle(eval)]
fn bind(frame: Frame, locals: &mut Values, value: &Expr, nodes: u32) -> Result<u32, Stop>
    ensures bound { IfOk result (λ n. (v : rust.Value) × (frame.entry.left ≢ 0) × (nodes < 1000000)
        × (run_bare (bodies (definitions_of frame.entry.defs.now)) (frame.entry.left - 1) (around frame.entry.slots.now locals.old) (expr_of value.now) (nodes + 1) ≡ spec.got (value_of v) n)
        × (locals.new ≡ locals.old ++ v ∷ [])) }
    ensures stopped { (x : List ℕ) → (e : of.Expr) → IfErr result (λ s. Stopped spec.bad s
        (run_bare (bodies (definitions_of frame.entry.defs.now)) frame.entry.left (around frame.entry.slots.now locals.old) (of.let_in x (expr_of value.now) e) nodes)) }
    ensures kept { OnErr result (locals.new ≡ locals.old) }
{
    let nodes = entered(frame.left, nodes)?;
    let below = Frame {
        left: frame.left - 1,
        ..frame
    };
    let found = value_at(below, locals, value, nodes);
    pushed(locals, found)
}

/// A body, which sees its parameters alone: the slots of its frame.
#[cycle(eval)]
fn body(frame: Frame, body: &Expr, nodes: u32) -> Found
    ensures { Ends result (run_bare (bodies (definitions_of frame.entry.defs.now)) frame.entry.left (around frame.entry.slots.now []) (expr_of body.now) nodes) }
{
    let mut locals = Items::new(frame.alloc);
    value_at(frame, &mut locals, body, nodes)
}

/// The values of several expressions, in order.
#[cycle(eval)]
fn each(
    frame: Frame,
    locals: &mut Values,
    exprs: &[Expr],
    nodes: u32,
) -> Result<(Values, u32), Stop>
    ensures value { let d = bodies (definitions_of frame.entry.defs.now) in
        EndEach result (each_under (run_bare d frame.entry.left (around frame.entry.slots.now locals.old)) (exprs_of exprs.now) nodes) }
    ensures kept { locals.new ≡ locals.old }
{
    let mut values = Items::new(frame.alloc);
    let mut nodes = nodes;
    for expr in exprs {
        let found = value_at(frame, locals, expr, nodes);
        nodes = pushed(&mut values, found)?;
    }
    Ok((values, nodes))
}
