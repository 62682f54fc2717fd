ghost use Rattle.std.specs.Prelude.{◌≡◌, IfOk, OnOk, [], ◌∷◌, ◌++◌};
ghost use Rattle.txs_values.specs.Value.{field_types};
ghost use Rattle.txs_typing.specs.Names as names;
ghost use Rattle.txs_typing.specs.Names.{named_function, named_constant};
ghost use Rattle.txs_types.specs.Files as files;
ghost use Rattle.txs_typing.specs.inner.View.{globals_of};
ghost use Rattle.txs_types.specs.inner.Counted.{counts_after, globals_from};

use crate::declarations::{type_of, variables_of};
use crate::file_types::constructors_of;
use crate::global_names::{add_constructors, add_name, types_of};
use sqlite_items::Items;
use std::alloc::Global;
use txs_syntax::{ConDef, DeclList, Def, Name};
use txs_typing::{GlobalName, Meaning, number_of, place_after};
use txs_values::NoMemory;

/// How many types, constructors, functions and constants stand before a place.
#[derive(Clone, Copy)]
struct Counts {
    types: usize,
    constructors: usize,
    functions: usize,
    constants: usize,
}

/// How many stand after a definition, if so many stand before it.
fn counts_after(counts: Counts, def: &Def) -> Result<Counts, NoMemory>
    ensures { IfOk result (λ c. c ≡ counts_after counts def.now) }
{
    match def {
        Def::TypeDef { constructors, .. } => Ok(Counts {
            types: place_after(counts.types, 1)?,
            constructors: place_after(counts.constructors, constructors.len())?,
            functions: counts.functions,
            constants: counts.constants,
        }),
        Def::FuncDef { .. } => Ok(Counts {
            types: counts.types,
            constructors: counts.constructors,
            functions: place_after(counts.functions, 1)?,
            constants: counts.constants,
        }),
        Def::ConstDef { .. } => Ok(Counts {
            types: counts.types,
            constructors: counts.constructors,
            functions: counts.functions,
            constants: place_after(counts.constants, 1)?,
        }),
    }
}

/// Puts the names of the constructors of a type after the others.
fn add_type(
    alloc: Global,
    list: &mut Items<GlobalName>,
    types: &[Name],
    counts: Counts,
    constructors: &[ConDef],
) -> Result<(), NoMemory>
    ensures { OnOk result (globals_of list.new ≡ globals_of list.old
        ++ names.constructor_globals counts.types counts.constructors (files.constructors_of types.now constructors.now)) }
{
    let of = number_of(counts.types)?;
    let made = constructors_of(alloc, types, constructors)?;
    add_constructors(alloc, list, counts.constructors, of, made.as_slice())
}

/// Puts the name of the function of this number after the others.
fn add_function(
    alloc: Global,
    list: &mut Items<GlobalName>,
    types: &[Name],
    place: usize,
    name: &Name,
    params: &DeclList,
    gives: &Name,
) -> Result<(), NoMemory>
    ensures { OnOk result (globals_of list.new ≡ globals_of list.old ++ record {
      name = name.now.text;
      means = named_function place (field_types (files.variables_of types.now params.now)) (files.type_of types.now gives.now.text);
    } ∷ []) }
{
    let number = number_of(place)?;
    let variables = variables_of(alloc, types, params)?;
    let takes = types_of(alloc, variables.as_slice())?;
    let gives = type_of(types, &gives.text)?;
    let text = name.text.copy(alloc)?;
    add_name(list, text, Meaning::Function { number, gives }, takes)
}

/// Puts the name of the constant of this number after the others.
fn add_constant(
    alloc: Global,
    list: &mut Items<GlobalName>,
    types: &[Name],
    place: usize,
    name: &Name,
    of: &Name,
) -> Result<(), NoMemory>
    ensures { OnOk result (globals_of list.new ≡ globals_of list.old ++ record {
      name = name.now.text;
      means = named_constant place (files.type_of types.now of.now.text);
    } ∷ []) }
{
    let number = number_of(place)?;
    let ty = type_of(types, &of.text)?;
    let text = name.text.copy(alloc)?;
    add_name(
        list,
        text,
        Meaning::Constant { number, ty },
        Items::new(alloc),
    )
}

/// Puts the names that a definition defines after the others, if so many stand before it.
fn add_definition(
    alloc: Global,
    list: &mut Items<GlobalName>,
    types: &[Name],
    counts: Counts,
    def: &Def,
) -> Result<(), NoMemory>
    ensures { OnOk result (globals_of list.new ≡ globals_of list.old ++ globals_from types.now counts (def.now ∷ [])) }
{
    match def {
        Def::TypeDef { constructors, .. } => {
            add_type(alloc, list, types, counts, constructors.as_slice())
        }
        Def::FuncDef {
            name,
            params,
            result,
            ..
        } => add_function(alloc, list, types, counts.functions, name, params, result),
        Def::ConstDef { name, ty, .. } => {
            add_constant(alloc, list, types, counts.constants, name, ty)
        }
    }
}

/// Puts the names that a file's definitions define after the others, in order, if the file defines types of these names.
#[tactic(auto, using(crate::proofs::lists::Collecting::split_globals))]
pub fn add_definitions(
    alloc: Global,
    list: &mut Items<GlobalName>,
    types: &[Name],
    defs: &[Def],
) -> Result<(), NoMemory>
    ensures { OnOk result (globals_of list.new ≡ globals_of list.old ++ files.globals_in types.now 0 0 0 0 defs.now) }
{
    let mut counts = Counts {
        types: 0,
        constructors: 0,
        functions: 0,
        constants: 0,
    };
    for def in defs {
        add_definition(alloc, list, types, counts, def)?;
        counts = counts_after(counts, def)?;
    }
    Ok(())
}
