ghost use Rattle.std.specs.Prelude.{◌≡◌, ℕ, List, [], ◌∷◌, Option, Some, IfOk, MatchResult, length};
ghost use Rattle.txs_values.specs.Value.{Ty as TheType, named};
ghost use Rattle.txs_values.specs.View.{ty_of};
ghost use Rattle.txs_terms.specs.Expr as of;
ghost use Rattle.txs_terms.specs.Expr.{Expr as TheExpr};
ghost use Rattle.txs_terms.specs.View.{expr_of, exprs_of, unary_of};
ghost use Rattle.txs_typing.specs.declared.fault.TypeFault.TheVariants as fault;
ghost use Rattle.txs_typing.specs.Names as names;
ghost use Rattle.txs_typing.specs.Elaborates.{Makes};
ghost use Rattle.txs_typing.specs.inner.View.{scope_of, wants_of, meaning_of, called_of};
ghost use Rattle.txs_typing.specs.Answer.{want_of};
ghost use Rattle.txs_typing.specs.inner.Parts as parts;
ghost use Rattle.txs_typing.specs.inner.Parts.{Applies, CallsWith, Gathers};

use crate::fault::{TypeFault, lesser};
use crate::fitting::fitted;
use crate::meaning::Meaning;
use crate::scope::{Called, Scope};
use crate::typed::Typed;
use sqlite_items::Items;
use std::alloc::Global;
use txs_syntax::Ast;
use txs_terms::{Binary, Expr, Exprs, Unary};
use txs_values::{NoMemory, Shared, SharedItems, Ty, made_of};

/// The type of a call, if this one or none is needed.
pub fn call_type(means: Meaning, want: Option<Ty>) -> Option<Ty>
    ensures { (ts : List TheType) → want_of result ≡ parts.call_type (meaning_of means ts) (want_of want) }
{
    match means {
        Meaning::Truth(_) => None,
        Meaning::Constant { .. } => None,
        Meaning::Function { gives, .. } => Some(gives),
        Meaning::Constructor { of, .. } => Some(Ty::Named(of)),
        Meaning::Test { .. } => Some(Ty::Bool),
        Meaning::Selector { ty, .. } => Some(ty),
        Meaning::Not => Some(Ty::Bool),
        Meaning::ToText => Some(Ty::Text),
        Meaning::FromText => want,
        Meaning::Length => Some(Ty::Int),
        Meaning::CharAt => Some(Ty::Text),
    }
}

/// An operator on the one argument.
fn one(alloc: Global, operator: Unary, args: Exprs) -> Result<Expr, TypeFault>
    requires { length args ≡ 1 }
    ensures { MatchResult result (λ e. (a : TheExpr) × (exprs_of args ≡ a ∷ []) × (expr_of e ≡ of.one (unary_of operator) a)) (λ f. f ≡ fault.NoMemory) }
{
    let mut args = args;
    match args.pop() {
        Some(a) => Ok(Expr::One(operator, Shared::new(alloc, a)?)),
        None => unreachable!(),
    }
}

/// The character of a text at a place.
fn char_at(alloc: Global, args: Exprs) -> Result<Expr, TypeFault>
    requires { length args ≡ 2 }
    ensures { MatchResult result (λ e. (a : TheExpr) × (b : TheExpr) × (exprs_of args ≡ a ∷ b ∷ []) × (expr_of e ≡ of.two of.char_at a b))
        (λ f. f ≡ fault.NoMemory) }
{
    let mut args = args;
    match (args.pop(), args.pop()) {
        (Some(b), Some(a)) => {
            let a = Shared::new(alloc, a)?;
            Ok(Expr::Two(Binary::CharAt, a, Shared::new(alloc, b)?))
        }
        _ => unreachable!(),
    }
}

/// A constructor of so many fields.
fn constructed(alloc: Global, number: u32, args: Exprs) -> Result<Expr, NoMemory>
    ensures { IfOk result (λ e. (k : ℕ) (ts : List TheType) (want : Option TheType) → length ts ≡ length args
        → Makes want (names.named_constructor number k ts) (exprs_of args) (expr_of e) (named k)) }
{
    if args.is_empty() {
        Ok(Expr::Value(made_of(alloc, number, Items::new(alloc))?))
    } else {
        Ok(Expr::Build(number, SharedItems::new(alloc, args)?))
    }
}

/// The expression of a call of this type with these arguments.
pub fn applied(alloc: Global, called: &Called, ty: Ty, args: Exprs) -> Result<Expr, TypeFault>
    requires takes { let c = called_of called.now in names.takes c.0 ≡ Some c.1 }
    requires many { length args ≡ length called.now.needs }
    ensures { MatchResult result (λ e. Applies ((called_of called.now).0) (ty_of ty) (exprs_of args) (expr_of e)) (λ f. f ≡ fault.NoMemory) }
{
    match called.means {
        Meaning::Truth(_) | Meaning::Constant { .. } => unreachable!(),
        Meaning::Function { number, .. } => Ok(Expr::Call(number, SharedItems::new(alloc, args)?)),
        Meaning::Constructor { number, .. } => match constructed(alloc, number, args) {
            Ok(expr) => Ok(expr),
            Err(_) => Err(TypeFault::NoMemory),
        },
        Meaning::Test { constructor, .. } => one(alloc, Unary::IsMadeBy(constructor), args),
        Meaning::Selector {
            constructor,
            field,
            ..
        } => one(alloc, Unary::Select { constructor, field }, args),
        Meaning::Not => one(alloc, Unary::Not, args),
        Meaning::ToText => one(alloc, Unary::ToText, args),
        Meaning::FromText => one(alloc, Unary::FromText(ty), args),
        Meaning::Length => one(alloc, Unary::Length, args),
        Meaning::CharAt => char_at(alloc, args),
    }
}

/// A call with these arguments, as many as it takes.
pub fn called_with(
    alloc: Global,
    scope: &Scope,
    want: Option<Ty>,
    at: usize,
    called: &Called,
    found: Result<Exprs, TypeFault>,
) -> Result<Typed, TypeFault>
    requires takes { let c = called_of called.now in names.takes c.0 ≡ Some c.1 }
    requires many { IfOk found (λ es. length es ≡ length called.now.needs) }
    ensures { CallsWith (scope_of scope.now) (want_of want) at ((called_of called.now).0) found result }
{
    match found {
        Ok(args) => match call_type(called.means, want) {
            Some(ty) => {
                let made = applied(alloc, called, ty, args);
                fitted(scope, want, at, made, ty)
            }
            None => Err(TypeFault::Mismatch { at }),
        },
        Err(fault) => Err(fault),
    }
}

/// The expressions so far and one more, or of the faults the one that decides.
pub fn gathered(
    so_far: Result<Exprs, TypeFault>,
    found: Result<Typed, TypeFault>,
) -> Result<Exprs, TypeFault>
    ensures { Gathers so_far found result }
{
    match (so_far, found) {
        (Ok(exprs), Ok(typed)) => {
            let mut exprs = exprs;
            exprs.push(typed.expr)?;
            Ok(exprs)
        }
        (Ok(_), Err(fault)) => Err(fault),
        (Err(fault), Ok(_)) => Err(fault),
        (Err(a), Err(b)) => Err(lesser(a, b)),
    }
}

/// For each argument, that it is needed at a type that fits everywhere.
pub fn stray_needs(
    alloc: Global,
    scope: &Scope,
    args: &[Ast],
) -> Result<Items<Option<Ty>>, NoMemory>
    ensures { IfOk result (λ ts. wants_of ts ≡ parts.stray_needs (scope_of scope.now) args.now) }
{
    let mut needs = Items::new(alloc);
    for _arg in args {
        needs.push(Some(Ty::Named(scope.types)))?;
    }
    Ok(needs)
}

/// A call that is an offence itself, with what was found of its arguments.
pub fn strayed(fault: TypeFault, found: Result<Exprs, TypeFault>) -> Result<Typed, TypeFault>
    ensures { parts.StraysWith fault found result }
{
    match found {
        Ok(_) => Err(fault),
        Err(other) => Err(lesser(fault, other)),
    }
}
