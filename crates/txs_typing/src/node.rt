ghost use Rattle.std.specs.Prelude.{◌≡◌, MatchResult};
ghost use Rattle.txs_values.specs.View.{ty_of};
ghost use Rattle.txs_terms.specs.Expr as of;
ghost use Rattle.txs_terms.specs.View.{bounds_of, expr_of, let_all};
ghost use Rattle.txs_typing.specs.Answer.{want_of};
ghost use Rattle.txs_typing.specs.inner.Parts as parts;
ghost use Rattle.txs_typing.specs.inner.Parts.{Typed as TheTyped, Made, MadeTyped};
ghost use Rattle.txs_typing.specs.inner.Bindings.{typed_let, GathersValue};

use crate::fault::{TypeFault, lesser};
use crate::typed::Typed;
use std::alloc::Global;
use txs_syntax::Op;
use txs_terms::{Binary, Binding, Bindings, Expr, Unary};
use txs_values::{NoMemory, Shared, SharedItems, Text, Ty};

/// The operator of these sides.
fn combined(op: Op, a: Shared<Expr>, b: Shared<Expr>) -> Expr
    ensures { expr_of result ≡ parts.make op (expr_of a) (expr_of b) }
{
    match op {
        Op::Or => Expr::Or(a, b),
        Op::And => Expr::And(a, b),
        Op::Equal => Expr::Equal(a, b),
        Op::Different => Expr::Two(Binary::Differ, a, b),
        Op::Less => Expr::Two(Binary::LessThan, a, b),
        Op::AtMost => Expr::Two(Binary::AtMost, a, b),
        Op::More => Expr::Two(Binary::MoreThan, a, b),
        Op::AtLeast => Expr::Two(Binary::AtLeast, a, b),
        Op::Join => Expr::Two(Binary::Concat, a, b),
        Op::Plus => Expr::Two(Binary::Plus, a, b),
        Op::Minus => Expr::Two(Binary::Minus, a, b),
        Op::Times => Expr::Two(Binary::Times, a, b),
        Op::Divide => Expr::Two(Binary::Divide, a, b),
        Op::Remainder => Expr::Two(Binary::Remainder, a, b),
    }
}

fn operation(alloc: Global, op: Op, a: Expr, b: Expr) -> Result<Expr, NoMemory>
    ensures { MatchResult result (λ e. expr_of e ≡ parts.make op (expr_of a) (expr_of b)) (λ f. Unit {0}) }
{
    let a = Shared::new(alloc, a)?;
    let b = Shared::new(alloc, b)?;
    Ok(combined(op, a, b))
}

/// An operator on two sides.
pub fn operated(
    alloc: Global,
    op: Op,
    sides: Result<(Typed, Typed), TypeFault>,
) -> Result<Expr, TypeFault>
    ensures { Made (λ (p : TheTyped × TheTyped). parts.make op (expr_of p.0.expr) (expr_of p.1.expr)) sides result }
{
    match sides {
        Ok((a, b)) => Ok(operation(alloc, op, a.expr, b.expr)?),
        Err(fault) => Err(fault),
    }
}

/// A minus before an operand.
pub fn negated(alloc: Global, operand: Result<Typed, TypeFault>) -> Result<Expr, TypeFault>
    ensures { Made (λ (t : TheTyped). of.one of.negate (expr_of t.expr)) operand result }
{
    match operand {
        Ok(typed) => Ok(Expr::One(Unary::Negate, Shared::new(alloc, typed.expr)?)),
        Err(fault) => Err(fault),
    }
}

fn conditional(alloc: Global, c: Expr, a: Expr, b: Expr) -> Result<Expr, NoMemory>
    ensures { MatchResult result (λ e. expr_of e ≡ of.choose (expr_of c) (expr_of a) (expr_of b)) (λ f. Unit {0}) }
{
    let c = Shared::new(alloc, c)?;
    let a = Shared::new(alloc, a)?;
    Ok(Expr::If(c, a, Shared::new(alloc, b)?))
}

/// A choice between two branches.
pub fn chosen(
    alloc: Global,
    want: Option<Ty>,
    found: Result<(Typed, (Typed, Typed)), TypeFault>,
) -> Result<Typed, TypeFault>
    ensures { MadeTyped (λ (p : TheTyped × (TheTyped × TheTyped)). (
      of.choose (expr_of p.0.expr) (expr_of p.1.0.expr) (expr_of p.1.1.expr),
      parts.choice_type (want_of want) (ty_of p.1.0.ty),
    )) found result }
{
    match found {
        Ok((c, (a, b))) => {
            let ty = want.unwrap_or(a.ty);
            let expr = conditional(alloc, c.expr, a.expr, b.expr)?;
            Ok(Typed { expr, ty })
        }
        Err(fault) => Err(fault),
    }
}

/// The values so far and one more, or of the faults the one that decides.
pub fn with_value(
    alloc: Global,
    so_far: Result<Bindings, TypeFault>,
    name: &Text,
    found: Result<Typed, TypeFault>,
) -> Result<Bindings, TypeFault>
    ensures { GathersValue name.now so_far found result }
{
    match (so_far, found) {
        (Ok(values), Ok(typed)) => {
            let mut values = values;
            let name = name.copy(alloc)?;
            values.push(Binding {
                name,
                value: typed.expr,
            })?;
            Ok(values)
        }
        (Ok(_), Err(fault)) => Err(fault),
        (Err(fault), Ok(_)) => Err(fault),
        (Err(a), Err(b)) => Err(lesser(a, b)),
    }
}

fn within(alloc: Global, values: Bindings, body: Expr) -> Result<Expr, NoMemory>
    ensures { MatchResult result (λ e. expr_of e ≡ let_all (bounds_of values) (expr_of body)) (λ f. Unit {0}) }
{
    let values = SharedItems::new(alloc, values)?;
    Ok(Expr::Let(values, Shared::new(alloc, body)?))
}

/// Names for values in an expression.
pub fn bound(alloc: Global, found: Result<(Bindings, Typed), TypeFault>) -> Result<Typed, TypeFault>
    ensures { MadeTyped typed_let found result }
{
    match found {
        Ok((values, body)) => {
            let ty = body.ty;
            let expr = within(alloc, values, body.expr)?;
            Ok(Typed { expr, ty })
        }
        Err(fault) => Err(fault),
    }
}
