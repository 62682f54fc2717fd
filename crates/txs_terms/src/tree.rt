ghost use Rattle.std.specs.Prelude.{◌≡◌, IfOk};
ghost use Rattle.txs_terms.specs.View.{tree_of};

use crate::expr::{Exprs, copy_exprs};
use crate::offer::{Offers, copy_offers};
use sqlite_items::Boxed;
use std::alloc::Global;
use txs_values::NoMemory;

/// What a term is made of. A prefix without offers is an internal step.
#[derive(Drop)]
pub enum Tree {
    Stop,
    Prefix(Offers, Exprs, Boxed<Tree>),
    Choice(Boxed<Tree>, Boxed<Tree>),
}

pub fn copy_tree(alloc: Global, tree: &Tree) -> Result<Tree, NoMemory>
    ensures { IfOk result (λ t. tree_of t ≡ tree_of tree.now) }
{
    match tree {
        Tree::Stop => Ok(Tree::Stop),
        Tree::Prefix(offers, guards, then) => {
            let offers = copy_offers(alloc, offers.as_slice())?;
            let guards = copy_exprs(alloc, guards.as_slice())?;
            let then = copy_tree(alloc, then.get())?;
            Ok(Tree::Prefix(offers, guards, Boxed::new(alloc, then)?))
        }
        Tree::Choice(left, right) => {
            let left = copy_tree(alloc, left.get())?;
            let right = copy_tree(alloc, right.get())?;
            let left = Boxed::new(alloc, left)?;
            Ok(Tree::Choice(left, Boxed::new(alloc, right)?))
        }
    }
}
