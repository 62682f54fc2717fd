ghost use Rattle.std.specs.Prelude.{◌≡◌, ℕ};
ghost use Rattle.txs_values.specs.Value.{num};
ghost use Rattle.txs_terms.specs.Expr as of;
ghost use Rattle.txs_terms.specs.View.{expr_of};
ghost use Rattle.txs_syntax.specs.declared.ast.Ast.TheVariants as tree;
ghost use Rattle.txs_typing.specs.inner.View.{scope_of, JudgesAt};
ghost use Rattle.txs_typing.specs.Answer.{want_of};

use crate::fault::TypeFault;
use crate::fitting::fitted;
use crate::scope::Scope;
use crate::typed::Typed;
use std::alloc::Global;
use txs_syntax::Name;
use txs_terms::Expr;
use txs_values::{Text, Ty, Value};

fn int(value: i128) -> Expr
    ensures { expr_of result ≡ of.val (num value) }
{
    Expr::Value(Value::Int(value))
}

pub fn number(scope: &Scope, want: Option<Ty>, at: usize, value: i128) -> Result<Typed, TypeFault>
    ensures { (offset : ℕ) → JudgesAt at (scope_of scope.now) (want_of want) (tree.Number offset value) result }
{
    fitted(scope, want, at, Ok(int(value)), Ty::Int)
}

pub fn quoted(
    alloc: Global,
    scope: &Scope,
    want: Option<Ty>,
    at: usize,
    text: &Text,
) -> Result<Typed, TypeFault>
    ensures { (offset : ℕ) → JudgesAt at (scope_of scope.now) (want_of want) (tree.Text offset text.now) result }
{
    match text.copy(alloc) {
        Ok(text) => fitted(
            scope,
            want,
            at,
            Ok(Expr::Value(Value::Text(text))),
            Ty::Text,
        ),
        Err(_) => Err(TypeFault::NoMemory),
    }
}

pub fn named(
    alloc: Global,
    scope: &Scope,
    want: Option<Ty>,
    at: usize,
    name: &Name,
) -> Result<Typed, TypeFault>
    ensures { JudgesAt at (scope_of scope.now) (want_of want) (tree.Name name.now) result }
{
    match scope.meaning(alloc, &name.text) {
        Ok(Some(typed)) => fitted(scope, want, at, Ok(typed.expr), typed.ty),
        Ok(None) => Err(TypeFault::Unknown { at: name.at }),
        Err(_) => Err(TypeFault::NoMemory),
    }
}
