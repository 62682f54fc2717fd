ghost use Rattle.std.specs.Prelude.{◌≡◌, IfOk};
ghost use Rattle.txs_terms.specs.Term.{stop, choice};
ghost use Rattle.txs_terms.specs.View.{exprs_of, offers_of, prefix_by, term_of, top_of};

use crate::action::Channels;
use crate::expr::{Exprs, copy_exprs};
use crate::offer::{Offers, copy_offers};
use crate::tree::{Tree, copy_tree};
use sqlite_items::{Boxed, Items};
use std::alloc::Global;
use txs_values::{NoMemory, Text, Types};

/// The names of variables, in order.
pub type Names = Items<Text>;

/// The types on each hidden channel.
pub type ChanTypes = Items<Types>;

/// A process with its actual channels and arguments.
#[derive(Drop)]
pub struct Call {
    pub process: u32,
    pub channels: Channels,
    pub args: Exprs,
}

/// A behaviour in which values stand for the variables that are known.
#[derive(Drop)]
pub struct Term {
    pub(crate) tree: Tree,
}

/// The outermost form of a term. A prefix without offers is an internal step.
#[derive(Drop)]
pub enum Top {
    Stop,
    Exit(Exprs),
    Prefix(Offers, Exprs, Term),
    Guard(Exprs, Term),
    Choice(Term, Term),
    Par(Channels, Term, Term),
    Enable(Term, Names, Term),
    Disable(Term, Term),
    Interrupt(Term, Term),
    Hide(ChanTypes, Term),
    Call(Call),
    Let(Names, Exprs, Term),
    Automaton {
        automaton: u32,
        state: u32,
        channels: Channels,
        args: Exprs,
    },
    Hit,
    Miss,
}

/// The behaviour that does nothing.
pub fn term_stop(_alloc: Global) -> Result<Term, NoMemory>
    ensures { IfOk result (λ t. term_of t ≡ stop) }
{
    Ok(Term { tree: Tree::Stop })
}

/// What goes on once the offers are met and the guards hold; without offers, after an internal step.
pub fn term_prefix(
    alloc: Global,
    offers: Offers,
    guards: Exprs,
    then: Term,
) -> Result<Term, NoMemory>
    ensures { IfOk result (λ t. term_of t
        ≡ prefix_by (offers_of offers) (exprs_of guards) (term_of then)) }
{
    let Term { tree } = then;
    let then = Boxed::new(alloc, tree)?;
    Ok(Term {
        tree: Tree::Prefix(offers, guards, then),
    })
}

/// What goes on as the one of the two that takes the first step.
pub fn term_choice(alloc: Global, left: Term, right: Term) -> Result<Term, NoMemory>
    ensures { IfOk result (λ t. term_of t ≡ choice (term_of left) (term_of right)) }
{
    let left = Boxed::new(alloc, left.tree)?;
    let right = Boxed::new(alloc, right.tree)?;
    Ok(Term {
        tree: Tree::Choice(left, right),
    })
}

impl Term {
    /// The outermost form, with the terms below it.
    pub fn top(&self, alloc: Global) -> Result<Top, NoMemory>
        ensures { IfOk result (λ top. top_of top ≡ term_of self.now) }
    {
        match &self.tree {
            Tree::Stop => Ok(Top::Stop),
            Tree::Prefix(offers, guards, then) => {
                let offers = copy_offers(alloc, offers.as_slice())?;
                let guards = copy_exprs(alloc, guards.as_slice())?;
                let tree = copy_tree(alloc, then.get())?;
                Ok(Top::Prefix(offers, guards, Term { tree }))
            }
            Tree::Choice(left, right) => {
                let left = copy_tree(alloc, left.get())?;
                let right = copy_tree(alloc, right.get())?;
                Ok(Top::Choice(Term { tree: left }, Term { tree: right }))
            }
        }
    }

    pub fn copy(&self, alloc: Global) -> Result<Term, NoMemory>
        ensures { IfOk result (λ t. term_of t ≡ term_of self.now) }
    {
        let tree = copy_tree(alloc, &self.tree)?;
        Ok(Term { tree })
    }
}
