ghost use Rattle.std.specs.Prelude.{◌≡◌, IfOk, map};
ghost use Rattle.txs_values.specs.View.{values_of};
ghost use Rattle.txs_terms.specs.Expr.{put, put_all, filled};
ghost use Rattle.txs_terms.specs.Term.{put_position, put_offer, fill};
ghost use Rattle.txs_terms.specs.View.{bounds_of, expr_of, exprs_of, position_of, put_bound, offer_of, offers_of, tree_of, term_of};

use crate::expr::{Binding, Bindings, Expr, Exprs};
use crate::offer::{Offer, Offers, Position, Positions};
use crate::term::Term;
use crate::tree::Tree;
use sqlite_items::{Boxed, Items};
use std::alloc::Global;
use txs_values::{NoMemory, Shared, SharedItems, Value, Values, copy_value};

#[cycle(fill_all)]
fn fill_shared(
    alloc: Global,
    expr: &Shared<Expr>,
    values: &[Value],
) -> Result<Shared<Expr>, NoMemory>
    ensures { IfOk result (λ e. expr_of e
        ≡ put (filled (values_of values.now)) (expr_of expr.now)) }
{
    Ok(Shared::new(alloc, fill_expr(alloc, expr.get(), values)?)?)
}

#[cycle(fill_all)]
fn fill_expr(alloc: Global, expr: &Expr, values: &[Value]) -> Result<Expr, NoMemory>
    ensures { IfOk result (λ e. expr_of e
        ≡ put (filled (values_of values.now)) (expr_of expr.now)) }
{
    match expr {
        Expr::Value(value) => Ok(Expr::Value(copy_value(alloc, value)?)),
        Expr::Slot(slot) => fill_slot(alloc, *slot, values),
        Expr::Local(local) => Ok(Expr::Local(*local)),
        Expr::Constant(constant) => Ok(Expr::Constant(*constant)),
        Expr::One(operator, a) => Ok(Expr::One(*operator, fill_shared(alloc, a, values)?)),
        Expr::Two(operator, a, b) => {
            let a = fill_shared(alloc, a, values)?;
            Ok(Expr::Two(*operator, a, fill_shared(alloc, b, values)?))
        }
        Expr::Equal(a, b) => {
            let a = fill_shared(alloc, a, values)?;
            Ok(Expr::Equal(a, fill_shared(alloc, b, values)?))
        }
        Expr::And(a, b) => {
            let a = fill_shared(alloc, a, values)?;
            Ok(Expr::And(a, fill_shared(alloc, b, values)?))
        }
        Expr::Or(a, b) => {
            let a = fill_shared(alloc, a, values)?;
            Ok(Expr::Or(a, fill_shared(alloc, b, values)?))
        }
        Expr::If(c, a, b) => {
            let c = fill_shared(alloc, c, values)?;
            let a = fill_shared(alloc, a, values)?;
            Ok(Expr::If(c, a, fill_shared(alloc, b, values)?))
        }
        Expr::Call(function, args) => {
            let args = fill_exprs(alloc, args.as_slice(), values)?;
            Ok(Expr::Call(*function, SharedItems::new(alloc, args)?))
        }
        Expr::Build(constructor, fields) => {
            let fields = fill_exprs(alloc, fields.as_slice(), values)?;
            Ok(Expr::Build(*constructor, SharedItems::new(alloc, fields)?))
        }
        Expr::Let(bindings, body) => {
            let bindings = fill_bindings(alloc, bindings.as_slice(), values)?;
            let bindings = SharedItems::new(alloc, bindings)?;
            Ok(Expr::Let(bindings, fill_shared(alloc, body, values)?))
        }
    }
}

fn fill_slot(alloc: Global, slot: u32, values: &[Value]) -> Result<Expr, NoMemory>
    ensures { IfOk result (λ e. expr_of e ≡ filled (values_of values.now) slot) }
{
    let index = slot as usize;
    if index < values.len() {
        Ok(Expr::Value(copy_value(alloc, &values[index])?))
    } else {
        Ok(Expr::Slot((index - values.len()) as u32))
    }
}

#[cycle(fill_all)]
fn fill_exprs(alloc: Global, exprs: &[Expr], values: &[Value]) -> Result<Exprs, NoMemory>
    ensures { IfOk result (λ es. exprs_of es
        ≡ put_all (filled (values_of values.now)) (exprs_of exprs.now)) }
{
    let mut filled = Items::new(alloc);
    for expr in exprs {
        filled.push(fill_expr(alloc, expr, values)?)?;
    }
    Ok(filled)
}

#[cycle(fill_all)]
fn fill_bindings(
    alloc: Global,
    bindings: &[Binding],
    values: &[Value],
) -> Result<Bindings, NoMemory>
    ensures { IfOk result (λ bs. bounds_of bs
        ≡ map (put_bound (filled (values_of values.now))) (bounds_of bindings.now)) }
{
    let mut filled = Items::new(alloc);
    for binding in bindings {
        let name = binding.name.copy(alloc)?;
        let value = fill_expr(alloc, &binding.value, values)?;
        filled.push(Binding { name, value })?;
    }
    Ok(filled)
}

fn fill_position(alloc: Global, position: &Position, values: &[Value]) -> Result<Position, NoMemory>
    ensures { IfOk result (λ p. position_of p
        ≡ put_position (filled (values_of values.now)) (position_of position.now)) }
{
    match position {
        Position::Give(expr) => Ok(Position::Give(fill_expr(alloc, expr, values)?)),
        Position::Take(name) => Ok(Position::Take(name.copy(alloc)?)),
    }
}

fn fill_positions(
    alloc: Global,
    positions: &[Position],
    values: &[Value],
) -> Result<Positions, NoMemory>
    ensures { IfOk result (λ ps. map position_of ps
        ≡ map (put_position (filled (values_of values.now))) (map position_of positions.now)) }
{
    let mut filled = Items::new(alloc);
    for position in positions {
        filled.push(fill_position(alloc, position, values)?)?;
    }
    Ok(filled)
}

fn fill_offer(alloc: Global, offer: &Offer, values: &[Value]) -> Result<Offer, NoMemory>
    ensures { IfOk result (λ o. offer_of o
        ≡ put_offer (filled (values_of values.now)) (offer_of offer.now)) }
{
    let positions = fill_positions(alloc, offer.positions.as_slice(), values)?;
    Ok(Offer {
        channel: offer.channel,
        positions,
    })
}

fn fill_offers(alloc: Global, offers: &[Offer], values: &[Value]) -> Result<Offers, NoMemory>
    ensures { IfOk result (λ os. offers_of os
        ≡ map (put_offer (filled (values_of values.now))) (offers_of offers.now)) }
{
    let mut filled = Items::new(alloc);
    for offer in offers {
        filled.push(fill_offer(alloc, offer, values)?)?;
    }
    Ok(filled)
}

/// The tree with the values put for its first slots.
pub fn fill_tree(alloc: Global, tree: &Tree, values: &[Value]) -> Result<Tree, NoMemory>
    ensures { IfOk result (λ t. tree_of t ≡ fill (values_of values.now) (tree_of tree.now)) }
{
    match tree {
        Tree::Stop => Ok(Tree::Stop),
        Tree::Prefix(offers, guards, then) => {
            let offers = fill_offers(alloc, offers.as_slice(), values)?;
            let guards = fill_exprs(alloc, guards.as_slice(), values)?;
            let then = fill_tree(alloc, then.get(), values)?;
            Ok(Tree::Prefix(offers, guards, Boxed::new(alloc, then)?))
        }
        Tree::Choice(left, right) => {
            let left = fill_tree(alloc, left.get(), values)?;
            let right = fill_tree(alloc, right.get(), values)?;
            let left = Boxed::new(alloc, left)?;
            Ok(Tree::Choice(left, Boxed::new(alloc, right)?))
        }
    }
}

/// The term with the values put for its first slots; the slots after them are numbered anew from 0.
pub fn fill(alloc: Global, term: &Term, values: &Values) -> Result<Term, NoMemory>
    ensures { IfOk result (λ t. term_of t ≡ fill (values_of values.now) (term_of term.now)) }
{
    let tree = fill_tree(alloc, &term.tree, values.as_slice())?;
    Ok(Term { tree })
}
