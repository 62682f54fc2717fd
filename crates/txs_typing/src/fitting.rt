ghost use Rattle.std.specs.Prelude.{◌≡◌, ◌↔◌, IsTrue};
ghost use Rattle.txs_values.specs.View.{ty_of};
ghost use Rattle.txs_typing.specs.Names.{Fits, IsUnknown};
ghost use Rattle.txs_typing.specs.Offends as offends;
ghost use Rattle.txs_typing.specs.inner.View.{scope_of};
ghost use Rattle.txs_typing.specs.Answer.{want_of};
ghost use Rattle.txs_typing.specs.inner.Parts as parts;
ghost use Rattle.txs_typing.specs.inner.Parts.{Fitted};

use crate::fault::TypeFault;
use crate::scope::Scope;
use crate::typed::Typed;
use txs_syntax::Ast;
use txs_terms::Expr;
use txs_values::Ty;

/// The offset of an expression's first token.
pub fn start(tree: &Ast) -> usize
    ensures { result ≡ offends.start tree.now }
{
    match tree {
        Ast::Number { at, .. } => *at,
        Ast::Text { at, .. } => *at,
        Ast::Name(name) => name.at,
        Ast::Call { name, .. } => name.at,
        Ast::Negate { at, .. } => *at,
        Ast::Binary { left, .. } => start(left.get()),
        Ast::Group { at, .. } => *at,
        Ast::If { at, .. } => *at,
        Ast::Let { at, .. } => *at,
    }
}

fn is_unknown(scope: &Scope, ty: Ty) -> bool
    ensures { IsTrue result ↔ IsUnknown (scope_of scope.now) (ty_of ty) }
{
    match ty {
        Ty::Named(k) => scope.types <= k,
        Ty::Int | Ty::Bool | Ty::Text => false,
    }
}

/// Whether one type may stand if the other is needed.
fn fits(scope: &Scope, need: Ty, ty: Ty) -> bool
    ensures { IsTrue result ↔ Fits (scope_of scope.now) (ty_of need) (ty_of ty) }
{
    need == ty || is_unknown(scope, need) || is_unknown(scope, ty)
}

/// The expression with its type, if that fits the needed one; else a mismatch at this offset.
pub fn fitted(
    scope: &Scope,
    want: Option<Ty>,
    at: usize,
    made: Result<Expr, TypeFault>,
    ty: Ty,
) -> Result<Typed, TypeFault>
    ensures { Fitted (scope_of scope.now) (want_of want) at (ty_of ty) made result }
{
    match (made, want) {
        (Ok(expr), None) => Ok(Typed { expr, ty }),
        (Ok(expr), Some(need)) => {
            if fits(scope, need, ty) {
                Ok(Typed { expr, ty })
            } else {
                Err(TypeFault::Mismatch { at })
            }
        }
        (Err(fault), _) => Err(fault),
    }
}

/// The type that stands for a tree: its own, or if something offends in it one that fits everywhere.
pub fn shown(scope: &Scope, found: &Result<Typed, TypeFault>) -> Ty
    ensures { ty_of result ≡ parts.shown (scope_of scope.now) found.now }
{
    match found {
        Ok(typed) => typed.ty,
        Err(_) => Ty::Named(scope.types),
    }
}
