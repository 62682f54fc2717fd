ghost use Rattle.std.specs.Prelude.{◌≡◌, ◌<◌, ◌↔◌, [], ◌∷◌, List, length, IfOk, map};
ghost use Rattle.txs_values.specs.View.{value_of, values_of};
ghost use Rattle.txs_terms.specs.Action.{Scope, IsAction};
ghost use Rattle.txs_terms.specs.Term.{Term as Behaviour};
ghost use Rattle.txs_terms.specs.Rules.{Model};
ghost use Rattle.txs_terms.specs.After.{Sync, Observable, acted, quiescence, CanDo, Out};
ghost use Rattle.txs_terms.specs.Sets.{IsAfter, IsInt, IsPlain, ArePlain, IsIntAction};
ghost use Rattle.txs_terms.specs.Moves.{is_number, admits, met_by, offers_met, moves_of, all_moves, is_offered, speaks, quiet_ones};
ghost use Rattle.txs_terms.specs.View.{expr_of, position_of, offers_of, part_of, action_of, tree_of, term_of, terms_of};

use crate::action::{Action, Part};
use crate::expr::Expr;
use crate::offer::{Offer, Position};
use crate::slots::fill_tree;
use crate::term::Term;
use crate::tree::Tree;
use sqlite_items::Items;
use std::alloc::Global;
use txs_values::{NoMemory, Value};

/// A LET that binds nothing is its body.
#[cycle(is_number)]
#[tactic(auto, using(crate::proofs::Views::none_bound, crate::proofs::Views::some_bound))]
fn is_number(expr: &Expr, value: &Value) -> bool
    ensures { result ≡ is_number (expr_of expr.now) (value_of value.now) }
{
    match expr {
        Expr::Value(Value::Int(x)) => match value {
            Value::Int(y) => *x == *y,
            _ => false,
        },
        Expr::Let(bindings, body) => {
            if bindings.as_slice().len() == 0 {
                is_number(body.get(), value)
            } else {
                false
            }
        }
        _ => false,
    }
}

fn admits(position: &Position, value: &Value) -> bool
    ensures { result ≡ admits (position_of position.now) (value_of value.now) }
{
    match position {
        Position::Take(_) => true,
        Position::Give(expr) => is_number(expr, value),
    }
}

fn met_by(
    alloc: Global,
    positions: &[Position],
    values: &[Value],
    then: &Tree,
) -> Result<Items<Term>, NoMemory>
    ensures { IfOk result (λ ts. terms_of ts
        ≡ met_by (map position_of positions.now) (values_of values.now) (tree_of then.now)) }
{
    let mut found = Items::new(alloc);
    if let [position] = positions {
        if let [value] = values {
            if admits(position, value) {
                let tree = fill_tree(alloc, then, values)?;
                found.push(Term { tree })?;
            }
        }
    }
    Ok(found)
}

fn offers_met(
    alloc: Global,
    offers: &[Offer],
    parts: &[Part],
    then: &Tree,
) -> Result<Items<Term>, NoMemory>
    ensures { IfOk result (λ ts. terms_of ts
        ≡ offers_met (offers_of offers.now) (map part_of parts.now) (tree_of then.now)) }
{
    match offers {
        [] => Ok(Items::new(alloc)),
        [offer] => match parts {
            [] => Ok(Items::new(alloc)),
            [part] => {
                if offer.channel == part.channel {
                    met_by(
                        alloc,
                        offer.positions.as_slice(),
                        part.values.as_slice(),
                        then,
                    )
                } else {
                    Ok(Items::new(alloc))
                }
            }
            [_, _, ..] => Ok(Items::new(alloc)),
        },
        [_, _, ..] => Ok(Items::new(alloc)),
    }
}

/// The terms that the action leads to.
fn moves(alloc: Global, tree: &Tree, action: &Action) -> Result<Items<Term>, NoMemory>
    ensures { IfOk result (λ ts. terms_of ts ≡ moves_of (tree_of tree.now) (action_of action.now)) }
{
    match tree {
        Tree::Stop => Ok(Items::new(alloc)),
        Tree::Prefix(offers, _, then) => offers_met(
            alloc,
            offers.as_slice(),
            action.parts(),
            then.get(),
        ),
        Tree::Choice(left, right) => {
            let mut found = moves(alloc, left.get(), action)?;
            found.append(moves(alloc, right.get(), action)?)?;
            Ok(found)
        }
    }
}

fn all_moves(alloc: Global, set: &[Term], action: &Action) -> Result<Items<Term>, NoMemory>
    ensures { IfOk result (λ ts. terms_of ts
        ≡ all_moves (terms_of set.now) (action_of action.now)) }
{
    let mut found = Items::new(alloc);
    for term in set {
        found.append(moves(alloc, &term.tree, action)?)?;
    }
    Ok(found)
}

fn is_offered(channel: u32, offers: &[Offer]) -> bool
    ensures { result ≡ is_offered channel (offers_of offers.now) }
{
    match offers {
        [] => false,
        [offer] => offer.channel == channel,
        [_, _, ..] => false,
    }
}

fn speaks(channel: u32, tree: &Tree) -> bool
    ensures { result ≡ speaks channel (tree_of tree.now) }
{
    match tree {
        Tree::Stop => false,
        Tree::Prefix(offers, _, _) => is_offered(channel, offers.as_slice()),
        Tree::Choice(left, right) => speaks(channel, left.get()) || speaks(channel, right.get()),
    }
}

fn quiet_ones(alloc: Global, channel: u32, set: &[Term]) -> Result<Items<Term>, NoMemory>
    ensures { IfOk result (λ ts. terms_of ts ≡ quiet_ones channel (terms_of set.now)) }
{
    let mut found = Items::new(alloc);
    for term in set {
        if !speaks(channel, &term.tree) {
            found.push(term.copy(alloc)?)?;
        }
    }
    Ok(found)
}

fn alone(alloc: Global, term: &Term) -> Result<Items<Term>, NoMemory>
    ensures { IfOk result (λ ts. terms_of ts ≡ term_of term.now ∷ []) }
{
    let mut found = Items::new(alloc);
    found.push(term.copy(alloc)?)?;
    Ok(found)
}

/// The terms after the empty trace.
pub fn first(alloc: Global, term: &Term) -> Result<Items<Term>, NoMemory>
    requires { IsPlain 0 (term_of term.now) }
    ensures plain { IfOk result (λ ts. ArePlain (terms_of ts)) }
    ensures after { IfOk result (λ ts. (model : Model) (scope : Scope) (sync : Sync)
        → IsAfter model scope sync (term_of term.now) [] (terms_of ts)) }
{
    let found = alone(alloc, term)?;
    Ok(found)
}

/// The terms after one more action.
pub fn after_action(alloc: Global, set: &[Term], action: &Action) -> Result<Items<Term>, NoMemory>
    requires { ArePlain (terms_of set.now) }
    // On a channel of another type a value may come that no plain term holds.
    ensures plain { IfOk result (λ ts. IsIntAction (action_of action.now) → ArePlain (terms_of ts)) }
    ensures after { IfOk result (λ ts. (model : Model) (scope : Scope) (sync : Sync)
        (b : Behaviour) (trace : List Observable)
        → IsAction model.defs.table scope (action_of action.now)
        → IsAfter model scope sync b trace (terms_of set.now)
        → IsAfter model scope sync b (acted (action_of action.now) ∷ trace) (terms_of ts)) }
    ensures moves { IfOk result (λ ts. (model : Model) (scope : Scope) (sync : Sync)
        (b : Behaviour) (trace : List Observable)
        → IsAction model.defs.table scope (action_of action.now)
        → IsAfter model scope sync b trace (terms_of set.now)
        → (0 < length ts) ↔ CanDo model scope sync b trace (action_of action.now)) }
{
    let found = all_moves(alloc, set, action)?;
    Ok(found)
}

/// The terms after one more quiescence, if the one set of outputs is the channel by itself.
pub fn after_quiescence(alloc: Global, set: &[Term], out: u32) -> Result<Items<Term>, NoMemory>
    requires { ArePlain (terms_of set.now) }
    ensures plain { IfOk result (λ ts. ArePlain (terms_of ts)) }
    ensures after { IfOk result (λ ts. (model : Model) (scope : Scope) (sync : Sync)
        (b : Behaviour) (trace : List Observable)
        → IsInt scope out → sync.outs ≡ (out ∷ []) ∷ []
        → IsAfter model scope sync b trace (terms_of set.now)
        → IsAfter model scope sync b (quiescence ∷ trace) (terms_of ts)) }
    ensures quiet { IfOk result (λ ts. (model : Model) (scope : Scope) (sync : Sync)
        (b : Behaviour) (trace : List Observable)
        → IsInt scope out → sync.outs ≡ (out ∷ []) ∷ []
        → IsAfter model scope sync b trace (terms_of set.now)
        → (0 < length ts) ↔ Out model scope sync b trace quiescence) }
{
    let found = quiet_ones(alloc, out, set)?;
    Ok(found)
}
