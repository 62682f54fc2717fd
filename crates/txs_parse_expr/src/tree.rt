ghost use Rattle.std.specs.Prelude.{◌≡◌, MatchResult};
ghost use Rattle.txs_parse_expr.specs.declared.fault.Stop.TheVariants.{NoMemory};
ghost use Rattle.txs_syntax.specs.declared.ast.Ast.TheVariants as tree;

use crate::fault::Stop;
use sqlite_items::{Boxed, Items};
use std::alloc::Global;
use txs_syntax::{Ast, Binding, Name, Op};
use txs_values::Text;

/// The name, at its place.
pub fn name_at(alloc: Global, at: usize, text: &Text) -> Result<Name, Stop>
    ensures { MatchResult result (λ n. n ≡ record { at = at; text = text.now }) (λ f. f ≡ NoMemory) }
{
    let text = text.copy(alloc)?;
    Ok(Name { at, text })
}

pub fn number(alloc: Global, at: usize, value: i128) -> Result<Boxed<Ast>, Stop>
    ensures { MatchResult result (λ e. e ≡ tree.Number at value) (λ f. f ≡ NoMemory) }
{
    Ok(Boxed::new(alloc, Ast::Number { at, value })?)
}

pub fn quoted(alloc: Global, at: usize, text: &Text) -> Result<Boxed<Ast>, Stop>
    ensures { MatchResult result (λ e. e ≡ tree.Text at text.now) (λ f. f ≡ NoMemory) }
{
    let text = text.copy(alloc)?;
    Ok(Boxed::new(alloc, Ast::Text { at, text })?)
}

pub fn variable(alloc: Global, at: usize, text: &Text) -> Result<Boxed<Ast>, Stop>
    ensures { MatchResult result (λ e. e ≡ tree.Name (record { at = at; text = text.now })) (λ f. f ≡ NoMemory) }
{
    let name = name_at(alloc, at, text)?;
    Ok(Boxed::new(alloc, Ast::Name(name))?)
}

pub fn call_of(
    alloc: Global,
    at: usize,
    text: &Text,
    arguments: Items<Ast>,
) -> Result<Boxed<Ast>, Stop>
    ensures { MatchResult result (λ e. e ≡ tree.Call (record { at = at; text = text.now }) arguments) (λ f. f ≡ NoMemory) }
{
    let name = name_at(alloc, at, text)?;
    Ok(Boxed::new(alloc, Ast::Call { name, arguments })?)
}

pub fn binary(
    alloc: Global,
    op: Op,
    left: Boxed<Ast>,
    right: Boxed<Ast>,
) -> Result<Boxed<Ast>, Stop>
    ensures { MatchResult result (λ e. e ≡ tree.Binary op left right) (λ f. f ≡ NoMemory) }
{
    Ok(Boxed::new(alloc, Ast::Binary { op, left, right })?)
}

pub fn negate(alloc: Global, at: usize, operand: Boxed<Ast>) -> Result<Boxed<Ast>, Stop>
    ensures { MatchResult result (λ e. e ≡ tree.Negate at operand) (λ f. f ≡ NoMemory) }
{
    Ok(Boxed::new(alloc, Ast::Negate { at, operand })?)
}

pub fn group(alloc: Global, at: usize, inner: Boxed<Ast>) -> Result<Boxed<Ast>, Stop>
    ensures { MatchResult result (λ e. e ≡ tree.Group at inner) (λ f. f ≡ NoMemory) }
{
    Ok(Boxed::new(alloc, Ast::Group { at, inner })?)
}

pub fn choice(
    alloc: Global,
    at: usize,
    condition: Boxed<Ast>,
    yes: Boxed<Ast>,
    no: Boxed<Ast>,
) -> Result<Boxed<Ast>, Stop>
    ensures { MatchResult result (λ e. e ≡ tree.If at condition yes no) (λ f. f ≡ NoMemory) }
{
    let tree = Ast::If {
        at,
        condition,
        yes,
        no,
    };
    Ok(Boxed::new(alloc, tree)?)
}

pub fn let_of(
    alloc: Global,
    at: usize,
    bindings: Items<Binding>,
    body: Boxed<Ast>,
) -> Result<Boxed<Ast>, Stop>
    ensures { MatchResult result (λ e. e ≡ tree.Let at bindings body) (λ f. f ≡ NoMemory) }
{
    let tree = Ast::Let { at, bindings, body };
    Ok(Boxed::new(alloc, tree)?)
}
