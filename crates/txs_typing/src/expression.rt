ghost use Rattle.std.specs.Prelude.{◌≡◌, ◌⊎◌, ℕ, MatchResult, Some, length};
ghost use Rattle.txs_values.specs.View.{ty_of};
ghost use Rattle.txs_syntax.specs.declared.ast.Ast.TheVariants as tree;
ghost use Rattle.txs_typing.specs.Answer.{Told, want_of};
ghost use Rattle.txs_typing.specs.Offends.{Offends, earlier, later};
ghost use Rattle.txs_typing.specs.inner.View.{scope_of, wants_of, Judges, JudgesAt};
ghost use Rattle.txs_typing.specs.inner.Parts.{Typed as TheTyped, Means, Tells, Sides, InOrder, OffendInOrder, JudgesEach, Strays};
ghost use Rattle.txs_typing.specs.inner.Bindings.{IsWithin, JudgesValues};

use crate::call::{called_with, gathered, stray_needs, strayed};
use crate::fault::TypeFault;
use crate::fitting::{fitted, shown, start};
use crate::joined::{joined, turned};
use crate::leaf::{named, number, quoted};
use crate::node::{bound, chosen, negated, operated, with_value};
use crate::operator::{operand, outcome, right_first};
use crate::scope::Scope;
use crate::typed::Typed;
use sqlite_items::{Boxed, Items};
use std::alloc::Global;
use txs_syntax::{Ast, Binding, Name, Op};
use txs_terms::{Bindings, Exprs};
use txs_values::Ty;

/// The expression that a tree means if a type is needed, or none, or the offence in it that decides.
#[cycle(expression)]
pub fn expression(
    alloc: Global,
    scope: &mut Scope,
    want: Option<Ty>,
    tree: &Ast,
) -> Result<Typed, TypeFault>
    ensures judged { Judges (scope_of scope.old) (want_of want) tree.now result }
    ensures kept { scope.new ≡ scope.old }
{
    judge(alloc, scope, want, start(tree), tree)
}

/// The same, if a mismatch is told at this offset: that of the tree, or of the brackets around it.
#[cycle(expression)]
fn judge(
    alloc: Global,
    scope: &mut Scope,
    want: Option<Ty>,
    at: usize,
    tree: &Ast,
) -> Result<Typed, TypeFault>
    ensures judged { JudgesAt at (scope_of scope.old) (want_of want) tree.now result }
    ensures kept { scope.new ≡ scope.old }
{
    match tree {
        Ast::Number { value, .. } => number(scope, want, at, *value),
        Ast::Text { text, .. } => quoted(alloc, scope, want, at, text),
        Ast::Name(name) => named(alloc, scope, want, at, name),
        Ast::Call { name, arguments } => {
            call(alloc, scope, want, at, name, arguments.as_slice())
        }
        Ast::Negate { operand, .. } => negation(alloc, scope, want, at, operand),
        Ast::Binary { op, left, right } => operation(alloc, scope, want, at, *op, left, right),
        Ast::Group { inner, .. } => judge(alloc, scope, want, at, inner.get()),
        Ast::If {
            condition,
            yes,
            no,
            ..
        } => choice(alloc, scope, want, condition, yes, no),
        Ast::Let { bindings, body, .. } => {
            binding(alloc, scope, want, bindings.as_slice(), body)
        }
    }
}

/// A call, by what its name means.
#[cycle(expression)]
fn call(
    alloc: Global,
    scope: &mut Scope,
    want: Option<Ty>,
    at: usize,
    name: &Name,
    args: &[Ast],
) -> Result<Typed, TypeFault>
    ensures judged { JudgesAt at (scope_of scope.old) (want_of want) (tree.Call name.now args.now) result }
    ensures kept { scope.new ≡ scope.old }
{
    match scope.called(alloc, &name.text) {
        Ok(Some(called)) => {
            if called.needs.len() == args.len() {
                let found = each(alloc, scope, called.needs.as_slice(), args);
                called_with(alloc, scope, want, at, &called, found)
            } else {
                strays(alloc, scope, TypeFault::Arity { at: name.at }, args)
            }
        }
        Ok(None) => strays(alloc, scope, TypeFault::Unknown { at: name.at }, args),
        Err(_) => Err(TypeFault::NoMemory),
    }
}

/// The arguments, each needed at its type.
#[cycle(expression)]
fn each(
    alloc: Global,
    scope: &mut Scope,
    needs: &[Option<Ty>],
    args: &[Ast],
) -> Result<Exprs, TypeFault>
    requires { length needs.now ≡ length args.now }
    ensures judged { JudgesEach (scope_of scope.old) (wants_of needs.now) args.now result }
    ensures kept { scope.new ≡ scope.old }
{
    let mut so_far = Ok(Items::new(alloc));
    let mut at = 0;
    for arg in args {
        let found = expression(alloc, scope, needs[at], arg);
        so_far = gathered(so_far, found);
        at += 1;
    }
    so_far
}

/// A call that is an offence itself, with those in its arguments.
#[cycle(expression)]
fn strays(
    alloc: Global,
    scope: &mut Scope,
    fault: TypeFault,
    args: &[Ast],
) -> Result<Typed, TypeFault>
    ensures told { MatchResult result (λ t. ⊥) (λ f. Told f (Strays (scope_of scope.old) fault args.now)) }
    ensures kept { scope.new ≡ scope.old }
{
    match stray_needs(alloc, scope, args) {
        Ok(needs) => {
            let found = each(alloc, scope, needs.as_slice(), args);
            strayed(fault, found)
        }
        Err(_) => Err(TypeFault::NoMemory),
    }
}

/// A minus before an operand.
#[cycle(expression)]
fn negation(
    alloc: Global,
    scope: &mut Scope,
    want: Option<Ty>,
    at: usize,
    operand: &Boxed<Ast>,
) -> Result<Typed, TypeFault>
    ensures judged { (offset : ℕ) → JudgesAt at (scope_of scope.old) (want_of want) (tree.Negate offset operand.now) result }
    ensures kept { scope.new ≡ scope.old }
{
    let found = expression(alloc, scope, Some(Ty::Int), operand.get());
    fitted(scope, want, at, negated(alloc, found), Ty::Int)
}

/// An operator with a side on each side.
#[cycle(expression)]
fn operation(
    alloc: Global,
    scope: &mut Scope,
    want: Option<Ty>,
    at: usize,
    op: Op,
    left: &Boxed<Ast>,
    right: &Boxed<Ast>,
) -> Result<Typed, TypeFault>
    ensures judged { JudgesAt at (scope_of scope.old) (want_of want) (tree.Binary op left.now right.now) result }
    ensures kept { scope.new ≡ scope.old }
{
    match operand(op) {
        Some(need) => {
            let found = both(alloc, scope, need, left, right);
            fitted(scope, want, at, operated(alloc, op, found), outcome(op))
        }
        None => {
            let found = compared(alloc, scope, left, right);
            fitted(scope, want, at, operated(alloc, op, found), outcome(op))
        }
    }
}

/// Both sides, needed at one type.
#[cycle(expression)]
fn both(
    alloc: Global,
    scope: &mut Scope,
    need: Ty,
    left: &Boxed<Ast>,
    right: &Boxed<Ast>,
) -> Result<(Typed, Typed), TypeFault>
    ensures told { let s = scope_of scope.old in let n = Some (ty_of need) in
        Tells (λ (p : TheTyped × TheTyped). Means s n left.now p.0 × Means s n right.now p.1)
        (λ o. Offends s n left.now o ⊎ Offends s n right.now o) result }
    ensures kept { scope.new ≡ scope.old }
{
    let a = expression(alloc, scope, Some(need), left.get());
    let b = expression(alloc, scope, Some(need), right.get());
    joined(a, b)
}

/// The sides of a comparison, one of which is typed first.
#[cycle(expression)]
fn compared(
    alloc: Global,
    scope: &mut Scope,
    left: &Boxed<Ast>,
    right: &Boxed<Ast>,
) -> Result<(Typed, Typed), TypeFault>
    ensures told { Tells (Sides (scope_of scope.old) left.now right.now)
        (OffendInOrder (scope_of scope.old) (earlier left.now right.now) (later left.now right.now)) result }
    ensures kept { scope.new ≡ scope.old }
{
    if right_first(left.get(), right.get()) {
        turned(in_order(alloc, scope, right, left))
    } else {
        in_order(alloc, scope, left, right)
    }
}

/// A tree by itself, and another that is needed at its type.
#[cycle(expression)]
fn in_order(
    alloc: Global,
    scope: &mut Scope,
    earlier: &Boxed<Ast>,
    later: &Boxed<Ast>,
) -> Result<(Typed, Typed), TypeFault>
    ensures told { Tells (InOrder (scope_of scope.old) earlier.now later.now) (OffendInOrder (scope_of scope.old) earlier.now later.now) result }
    ensures kept { scope.new ≡ scope.old }
{
    let a = expression(alloc, scope, None, earlier.get());
    let need = shown(scope, &a);
    let b = expression(alloc, scope, Some(need), later.get());
    joined(a, b)
}

/// A choice between two branches.
#[cycle(expression)]
fn choice(
    alloc: Global,
    scope: &mut Scope,
    want: Option<Ty>,
    condition: &Boxed<Ast>,
    yes: &Boxed<Ast>,
    no: &Boxed<Ast>,
) -> Result<Typed, TypeFault>
    ensures judged { (at offset : ℕ) → JudgesAt at (scope_of scope.old) (want_of want) (tree.If offset condition.now yes.now no.now) result }
    ensures kept { scope.new ≡ scope.old }
{
    let c = expression(alloc, scope, Some(Ty::Bool), condition.get());
    match want {
        Some(need) => {
            let found = both(alloc, scope, need, yes, no);
            chosen(alloc, Some(need), joined(c, found))
        }
        None => {
            let found = in_order(alloc, scope, yes, no);
            chosen(alloc, None, joined(c, found))
        }
    }
}

/// Names for values in an expression.
#[cycle(expression)]
fn binding(
    alloc: Global,
    scope: &mut Scope,
    want: Option<Ty>,
    bindings: &[Binding],
    body: &Boxed<Ast>,
) -> Result<Typed, TypeFault>
    ensures judged { (at offset : ℕ) → JudgesAt at (scope_of scope.old) (want_of want) (tree.Let offset bindings.now body.now) result }
    ensures kept { scope.new ≡ scope.old }
{
    let outer = scope.locals.len();
    let values = values(alloc, scope, bindings);
    let found = expression(alloc, scope, want, body.get());
    scope.leave(outer);
    bound(alloc, joined(values, found))
}

/// The values of the names, each of which is a local from then on.
#[cycle(expression)]
fn values(alloc: Global, scope: &mut Scope, bindings: &[Binding]) -> Result<Bindings, TypeFault>
    ensures judged { JudgesValues (scope_of scope.old) bindings.now (scope_of scope.new) result }
    ensures kept { IsWithin scope.old scope.new }
{
    let mut so_far = Ok(Items::new(alloc));
    for binding in bindings {
        let found = expression(alloc, scope, None, &binding.value);
        let ty = shown(scope, &found);
        so_far = match scope.bind(alloc, &binding.name.text, ty) {
            Ok(()) => with_value(alloc, so_far, &binding.name.text, found),
            Err(_) => Err(TypeFault::NoMemory),
        };
    }
    so_far
}
