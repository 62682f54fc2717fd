ghost use Rattle.std.specs.Prelude.{◌≡◌};
ghost use Rattle.txs_terms.specs.Defs.{AreDefined};
ghost use Rattle.txs_terms.specs.View.{definitions_of};

use crate::expr::Expr;
use sqlite_items::Items;
use std::marker::Model;
use std::sync::Arc;
use txs_values::{Text, Ty, TypeTable, Types};

/// A function: the types of its parameters and of its result, and its body, in which slot k is the parameter k.
#[derive(Drop)]
pub struct FunctionDef {
    pub name: Text,
    pub takes: Types,
    pub gives: Ty,
    pub body: Expr,
}

#[derive(Drop)]
pub struct ConstantDef {
    pub name: Text,
    pub ty: Ty,
    pub body: Expr,
}

/// The types, functions and constants of a file. Headers name types of the table, each body is of its type, each type has a default, and
/// constructors are called by names, no two by one.
#[derive(Drop)]
pub struct Defs {
    table: TypeTable,
    functions: Items<FunctionDef>,
    constants: Items<ConstantDef>,
}

/// Definitions that several hold.
pub type DefsRef = Arc<Defs>;

impl Model for Defs {
    ghost use Rattle.txs_terms.specs.Defs.{AreDefined};
    ghost use Rattle.txs_terms.specs.View.{Held, definitions_of};
    ghost use Rattle.txs_terms.specs.contracts.expr.Expr as held;
    ghost use Rattle.std.specs.Coded.{codes};

    ghost Value = { Held };

    ghost coded = { Prim.hlevel (codes, held.the_row.coded) };

    ghost view = { λ d. (d.table, d.functions, d.constants) };

    ghost invariant = { λ d. AreDefined (definitions_of (d.table, d.functions, d.constants)) };
}

impl Defs {
    pub fn new(
        table: TypeTable,
        functions: Items<FunctionDef>,
        constants: Items<ConstantDef>,
    ) -> Defs
        requires { AreDefined (definitions_of (table, functions, constants)) }
        ensures { result ≡ (table, functions, constants) }
    {
        Defs {
            table,
            functions,
            constants,
        }
    }

    /// What holds of all definitions, as a fact for a caller's proof.
    pub fn defined(&self)
        ensures { AreDefined (definitions_of self.now) }
    {
        let _table = &self.table;
    }

    pub fn table(&self) -> &TypeTable
        ensures table { result.now ≡ self.now.0 }
        ensures defined { AreDefined (definitions_of self.now) }
    {
        &self.table
    }

    pub fn functions(&self) -> &[FunctionDef]
        ensures { result.now ≡ self.now.1 }
    {
        self.functions.as_slice()
    }

    pub fn constants(&self) -> &[ConstantDef]
        ensures { result.now ≡ self.now.2 }
    {
        self.constants.as_slice()
    }
}
