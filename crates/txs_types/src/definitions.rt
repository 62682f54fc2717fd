ghost use Rattle.std.specs.Prelude.{◌≡◌, IfOk, [], ◌∷◌};
ghost use Rattle.txs_types.specs.Files as files;

use crate::declarations::{copy_name, names_in};
use crate::global_names::test_name;
use sqlite_items::Items;
use std::alloc::Global;
use txs_syntax::{ConDef, Def, Name};
use txs_values::NoMemory;

fn one_name(alloc: Global, name: &Name) -> Result<Items<Name>, NoMemory>
    ensures { IfOk result (λ ns. ns ≡ name.now ∷ []) }
{
    let mut names = Items::new(alloc);
    names.push(copy_name(alloc, name)?)?;
    Ok(names)
}

fn type_name(alloc: Global, def: &Def) -> Result<Items<Name>, NoMemory>
    ensures { IfOk result (λ ns. ns ≡ files.type_names (def.now ∷ [])) }
{
    match def {
        Def::TypeDef { name, .. } => one_name(alloc, name),
        _ => Ok(Items::new(alloc)),
    }
}

/// The names of the types that a file defines, in order.
pub fn type_names(alloc: Global, defs: &[Def]) -> Result<Items<Name>, NoMemory>
    ensures { IfOk result (λ ns. ns ≡ files.type_names defs.now) }
{
    let mut names = Items::new(alloc);
    for def in defs {
        names.append(type_name(alloc, def)?)?;
    }
    Ok(names)
}

fn names_of_constructor(alloc: Global, con: &ConDef) -> Result<Items<Name>, NoMemory>
    ensures { IfOk result (λ ns. ns ≡ files.constructor_names (con.now ∷ [])) }
{
    let mut names = one_name(alloc, &con.name)?;
    names.push(Name {
        at: con.name.at,
        text: test_name(alloc, &con.name.text)?,
    })?;
    names.append(names_in(alloc, &con.fields)?)?;
    Ok(names)
}

fn constructor_names(alloc: Global, cons: &[ConDef]) -> Result<Items<Name>, NoMemory>
    ensures { IfOk result (λ ns. ns ≡ files.constructor_names cons.now) }
{
    let mut names = Items::new(alloc);
    for con in cons {
        names.append(names_of_constructor(alloc, con)?)?;
    }
    Ok(names)
}

fn names_of_definition(alloc: Global, def: &Def) -> Result<Items<Name>, NoMemory>
    ensures { IfOk result (λ ns. ns ≡ files.defined_names (def.now ∷ [])) }
{
    match def {
        Def::TypeDef { constructors, .. } => constructor_names(alloc, constructors.as_slice()),
        Def::FuncDef { name, .. } => one_name(alloc, name),
        Def::ConstDef { name, .. } => one_name(alloc, name),
    }
}

/// The names that definitions define for expressions: constructors with their tests and fields, functions and constants.
pub fn defined_names(alloc: Global, defs: &[Def]) -> Result<Items<Name>, NoMemory>
    ensures { IfOk result (λ ns. ns ≡ files.defined_names defs.now) }
{
    let mut names = Items::new(alloc);
    for def in defs {
        names.append(names_of_definition(alloc, def)?)?;
    }
    Ok(names)
}
