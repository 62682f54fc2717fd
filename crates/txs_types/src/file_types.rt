ghost use Rattle.std.specs.Prelude.{◌≡◌, IfOk, OnOk, cond, [], ◌∷◌, ◌++◌};
ghost use Rattle.txs_values.specs.TableView.{cons_of, conses_of};
ghost use Rattle.txs_types.specs.Files as files;

use crate::declarations::{undefined_field, variables_of};
use sqlite_items::Items;
use std::alloc::Global;
use txs_syntax::{ConDef, Def, Name};
use txs_values::{ConsDef, ConsDefs, NoMemory, Text, TypeDef, TypeTable};

fn constructor_of(alloc: Global, types: &[Name], con: &ConDef) -> Result<ConsDef, NoMemory>
    ensures { IfOk result (λ c. cons_of c ≡ files.constructor_of types.now con.now) }
{
    Ok(ConsDef {
        name: con.name.text.copy(alloc)?,
        fields: variables_of(alloc, types, &con.fields)?,
    })
}

/// The constructors of a type, if a file defines types of these names.
pub fn constructors_of(alloc: Global, types: &[Name], cons: &[ConDef]) -> Result<ConsDefs, NoMemory>
    ensures { IfOk result (λ cs. conses_of cs ≡ files.constructors_of types.now cons.now) }
{
    let mut made = Items::new(alloc);
    for con in cons {
        made.push(constructor_of(alloc, types, con)?)?;
    }
    Ok(made)
}

fn add_type(alloc: Global, types: &[Name], table: &mut TypeTable, def: &Def) -> Result<(), NoMemory>
    ensures { OnOk result (table.new ≡ table.old ++ files.table_in types.now (def.now ∷ [])) }
{
    match def {
        Def::TypeDef { name, constructors } => table.add(TypeDef {
            name: name.text.copy(alloc)?,
            cons: constructors_of(alloc, types, constructors.as_slice())?,
        }),
        _ => Ok(()),
    }
}

/// The types that definitions define.
pub fn table_of(alloc: Global, types: &[Name], defs: &[Def]) -> Result<TypeTable, NoMemory>
    ensures { IfOk result (λ t. t ≡ files.table_in types.now defs.now) }
{
    let mut table = TypeTable::new(alloc);
    for def in defs {
        add_type(alloc, types, &mut table, def)?;
    }
    Ok(table)
}

fn one_without_fields(alloc: Global) -> Result<ConsDefs, NoMemory>
    ensures { IfOk result (λ cs. conses_of cs ≡ record { name = []; fields = [] } ∷ []) }
{
    let mut made = Items::new(alloc);
    made.push(ConsDef {
        name: Text::from_string(alloc, String::new(alloc))?,
        fields: Items::new(alloc),
    })?;
    Ok(made)
}

fn excused_constructors(
    alloc: Global,
    types: &[Name],
    cons: &[ConDef],
) -> Result<ConsDefs, NoMemory>
    ensures { IfOk result (λ cs. conses_of cs ≡ cond (files.any_undefined types.now (files.types_of_fields cons.now))
        (record { name = []; fields = [] } ∷ []) (files.constructors_of types.now cons.now)) }
{
    match undefined_field(types, cons) {
        Some(_) => one_without_fields(alloc),
        None => constructors_of(alloc, types, cons),
    }
}

fn add_excused(
    alloc: Global,
    types: &[Name],
    table: &mut TypeTable,
    def: &Def,
) -> Result<(), NoMemory>
    ensures { OnOk result (table.new ≡ table.old ++ files.excused types.now (def.now ∷ [])) }
{
    match def {
        Def::TypeDef { name, constructors } => table.add(TypeDef {
            name: name.text.copy(alloc)?,
            cons: excused_constructors(alloc, types, constructors.as_slice())?,
        }),
        _ => Ok(()),
    }
}

/// The types, but that one with a field of an unknown type is given a constructor without fields instead.
pub fn excused(alloc: Global, types: &[Name], defs: &[Def]) -> Result<TypeTable, NoMemory>
    ensures { IfOk result (λ t. t ≡ files.excused types.now defs.now) }
{
    let mut table = TypeTable::new(alloc);
    for def in defs {
        add_excused(alloc, types, &mut table, def)?;
    }
    Ok(table)
}
