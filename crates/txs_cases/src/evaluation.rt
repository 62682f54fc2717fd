ghost use Rattle.std.specs.Prelude.{◌≡◌, [], IfOk, IsTrue, Some};
ghost use Rattle.txs_values.specs.Value.{Ty as TheType};
ghost use Rattle.txs_terms.specs.View.{definitions_of, expr_of};
ghost use Rattle.txs_eval.specs.Answer.{IsTyped};
ghost use Rattle.txs_typing.specs.Answer.{IsNeed};
ghost use Rattle.txs_typing.specs.Answer.{want_of};

use crate::definitions::definitions_of;
use crate::reader::declarations_of;
use crate::refusal::Refusal;
use crate::table::type_named;
use crate::tree::tree_of;
use crate::value::value_line;
use sqlite_items::Items;
use std::alloc::Global;
use txs_syntax::{Ast, DeclList};
use txs_terms::{Defs, Expr};
use txs_types::{TypeFault, type_query};
use txs_values::{Ty, TypeTable};

fn no_variables(alloc: Global) -> DeclList
    ensures { result.decls ≡ [] }
{
    let decls = Items::new(alloc);
    DeclList { decls }
}

/// The expression that a tree means over definitions alone.
fn meant(alloc: Global, defs: &Defs, tree: &Ast) -> Result<Expr, TypeFault>
    ensures { IfOk result (λ e. (t : TheType) × IsTyped (definitions_of defs.now) [] (expr_of e) t) }
{
    let decls = no_variables(alloc);
    defs.defined();
    match type_query(alloc, defs, &decls, tree, None) {
        Ok(expr) => Ok(expr),
        Err(fault) => Err(fault),
    }
}

/// The line of the value of an expression.
fn evaluated(alloc: Global, defs: &Defs, expr: &Expr) -> Result<String, Refusal>
    requires { (t : TheType) × IsTyped (definitions_of defs.now) [] (expr_of expr.now) t }
{
    match txs_eval::eval(alloc, defs, expr, &Items::new(alloc)) {
        Ok(value) => value_line(alloc, defs.table(), &value),
        Err(fault) => Err(Refusal::Evaluation(fault)),
    }
}

/// The value of an expression over definitions.
pub fn eval(alloc: Global, definitions: &[u8], text: &[u8]) -> Result<String, Refusal> {
    let defs = definitions_of(alloc, definitions)?;
    let tree = tree_of(alloc, text)?;
    match meant(alloc, &defs, &tree) {
        Ok(expr) => evaluated(alloc, &defs, &expr),
        Err(fault) => Err(Refusal::Types(fault)),
    }
}

/// Whether a type is one of a table.
fn is_known(table: &TypeTable, ty: Ty) -> bool
    ensures { IsTrue result → IsNeed table.now (want_of (Some ty)) }
{
    match ty {
        Ty::Named(number) => (number as usize) < table.as_slice().len(),
        _ => true,
    }
}

/// The type that is needed: none for an empty name.
fn wanted(table: &TypeTable, name: &[u8]) -> Result<Option<Ty>, Refusal>
    ensures { IfOk result (λ want. IsNeed table.now (want_of want)) }
{
    if name.is_empty() {
        return Ok(None);
    }
    match type_named(table.as_slice(), name) {
        Some(ty) if is_known(table, ty) => Ok(Some(ty)),
        _ => Err(Refusal::Unread),
    }
}

/// Whether an expression over definitions and declared variables is of a type, if one is named.
pub fn query(
    alloc: Global,
    definitions: &[u8],
    name: &[u8],
    declared: &[u8],
    text: &[u8],
) -> Result<String, Refusal> {
    let defs = definitions_of(alloc, definitions)?;
    let decls = declarations_of(alloc, declared)?;
    let tree = tree_of(alloc, text)?;
    let want = wanted(defs.table(), name)?;
    type_query(alloc, &defs, &decls, &tree, want)?;
    Ok(String::from_str(alloc, "TYPED\n")?)
}

/// Whether definitions are accepted.
pub fn file(alloc: Global, definitions: &[u8]) -> Result<String, Refusal> {
    definitions_of(alloc, definitions)?;
    Ok(String::from_str(alloc, "OK\n")?)
}
