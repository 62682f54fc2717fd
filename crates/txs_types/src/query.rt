ghost use Rattle.std.specs.Prelude.{◌≡◌, IfOk, IfErr, Some, []};
ghost use Rattle.txs_values.specs.Value.{Ty as TheType};
ghost use Rattle.txs_terms.specs.Typed.{Of};
ghost use Rattle.txs_terms.specs.Defs.{signatures_of};
ghost use Rattle.txs_terms.specs.View.{definitions_of, expr_of};
ghost use Rattle.txs_types.specs.Files.{query_scope, QueryMeans, QueryOffends, declared_types, names_of};
ghost use Rattle.txs_typing.specs.Answer.{IsNeed, Told, IsSafe, want_of};
ghost use Rattle.txs_typing.specs.Offends.{Offence};
ghost use Rattle.txs_typing.specs.inner.Told.{Finds};
ghost use Rattle.txs_types.specs.inner.Queries.{InDeclarations, Decided};
ghost use Rattle.txs_values.specs.TableView.{table_of};
ghost use Rattle.txs_typing.specs.inner.View.{scope_of};

use crate::declarations::{names_in, undefined, variables_of};
use crate::least::least;
use crate::names::repeated;
use crate::table_names::global_names;
use sqlite_items::Items;
use std::alloc::Global;
use txs_syntax::{Ast, DeclList, Name};
use txs_terms::{Defs, Expr};
use txs_typing::{Scope, TypeFault, Typed, elaborate, lesser, number_of};
use txs_values::{NoMemory, Ty, TypeDef};

/// The names of the types of a table. Of their offsets nothing is asked.
fn names_of_table(alloc: Global, table: &[TypeDef]) -> Result<Items<Name>, NoMemory>
    ensures { IfOk result (λ ns. ns ≡ names_of (table_of table.now)) }
{
    let mut types = Items::new(alloc);
    for def in table {
        let text = def.name.copy(alloc)?;
        types.push(Name { at: 0, text })?;
    }
    Ok(types)
}

/// The fault in declarations that decides, if the types have these names.
fn declaration_fault(
    alloc: Global,
    types: &[Name],
    decls: &DeclList,
) -> Result<Option<TypeFault>, NoMemory>
    ensures { IfOk result (λ f. Finds f (InDeclarations types.now decls.now)) }
{
    let names = names_in(alloc, decls)?;
    let twice = repeated(alloc, &[], names.as_slice())?;
    Ok(least(twice, undefined(types, decls)))
}

/// The scope of an expression over definitions, whose types have these names, and declarations.
fn scope_over(
    alloc: Global,
    defs: &Defs,
    types: &[Name],
    decls: &DeclList,
) -> Result<Scope, NoMemory>
    requires { types.now ≡ names_of defs.now.0 }
    ensures { IfOk result (λ s. scope_of s ≡ query_scope (definitions_of defs.now) decls.now) }
{
    Ok(Scope {
        types: number_of(types.len())?,
        globals: global_names(alloc, defs)?,
        slots: variables_of(alloc, types, decls)?,
        locals: Items::new(alloc),
    })
}

/// The expression, or what decides if a fault was told before.
fn decided(told: Option<TypeFault>, typed: Result<Typed, TypeFault>) -> Result<Expr, TypeFault>
    ensures { Decided told typed result }
{
    match (told, typed) {
        (None, Ok(typed)) => Ok(typed.expr),
        (None, Err(fault)) => Err(fault),
        (Some(fault), Ok(_)) => Err(fault),
        (Some(first), Err(fault)) => Err(lesser(first, fault)),
    }
}

/// The expression that a tree means over definitions and declared variables, slot k of which is the variable k, if a type is needed, or none; or the offence that decides.
pub fn type_query(
    alloc: Global,
    defs: &Defs,
    decls: &DeclList,
    tree: &Ast,
    want: Option<Ty>,
) -> Result<Expr, TypeFault>
    requires need { IsNeed defs.now.0 (want_of want) }
    ensures meant { IfOk result (λ e. (t : TheType) × QueryMeans (definitions_of defs.now) decls.now (want_of want) tree.now (expr_of e) t) }
    ensures clean { IfOk result (λ e. (o : Offence) → QueryOffends (definitions_of defs.now) decls.now (want_of want) tree.now o → ⊥) }
    ensures typed { IfOk result (λ e. (t : TheType) → QueryMeans (definitions_of defs.now) decls.now (want_of want) tree.now (expr_of e) t
        → Of defs.now.0 (signatures_of (definitions_of defs.now)) (declared_types (definitions_of defs.now) decls.now) [] (expr_of e) t) }
    ensures wanted { IfOk result (λ e. (s t : TheType) → want_of want ≡ Some s → QueryMeans (definitions_of defs.now) decls.now (want_of want) tree.now (expr_of e) t → t ≡ s) }
    ensures safe { IfOk result (λ e. (t : TheType) → QueryMeans (definitions_of defs.now) decls.now (want_of want) tree.now (expr_of e) t
        → IsSafe (definitions_of defs.now) (declared_types (definitions_of defs.now) decls.now) (expr_of e) t) }
    ensures offends { IfErr result (λ f. Told f (QueryOffends (definitions_of defs.now) decls.now (want_of want) tree.now)) }
{
    let types = names_of_table(alloc, defs.table().as_slice())?;
    let declared = declaration_fault(alloc, types.as_slice(), decls)?;
    let mut scope = scope_over(alloc, defs, types.as_slice(), decls)?;
    decided(declared, elaborate(alloc, &mut scope, want, tree))
}
