ghost use Rattle.std.specs.Prelude.{◌≡◌, ◌++◌, ◌∷◌, [], IfOk, OnOk, map};
ghost use Rattle.txs_values.specs.View.{ty_of};
ghost use Rattle.txs_values.specs.TableView.{field_of, cons_of, conses_of};
ghost use Rattle.txs_values.specs.Value.{field_types};
ghost use Rattle.txs_typing.specs.Names as names;
ghost use Rattle.txs_typing.specs.inner.View.{meaning_of, globals_of};

use sqlite_items::Items;
use std::alloc::Global;
use txs_typing::{GlobalName, Meaning, number_of};
use txs_values::{ConsDef, FieldDef, NoMemory, Text, Types};

/// Puts a name after the others.
pub fn add_name(
    list: &mut Items<GlobalName>,
    name: Text,
    means: Meaning,
    takes: Types,
) -> Result<(), NoMemory>
    ensures { OnOk result (globals_of list.new ≡ globals_of list.old ++ record { name = name; means = meaning_of means (map ty_of takes) } ∷ []) }
{
    list.push(GlobalName { name, means, takes })?;
    Ok(())
}

/// Puts a name of the language after the others.
fn add_built_in(
    alloc: Global,
    list: &mut Items<GlobalName>,
    name: &str,
    means: Meaning,
) -> Result<(), NoMemory>
    ensures { OnOk result (globals_of list.new ≡ globals_of list.old ++ record { name = name.now; means = meaning_of means [] } ∷ []) }
{
    add_name(list, Text::from_str(alloc, name)?, means, Items::new(alloc))
}

/// The names of the language.
pub fn built_ins(alloc: Global) -> Result<Items<GlobalName>, NoMemory>
    ensures { IfOk result (λ gs. globals_of gs ≡ names.built_ins) }
{
    let mut list = Items::new(alloc);
    add_built_in(alloc, &mut list, "True", Meaning::Truth(true))?;
    add_built_in(alloc, &mut list, "False", Meaning::Truth(false))?;
    add_built_in(alloc, &mut list, "not", Meaning::Not)?;
    add_built_in(alloc, &mut list, "toString", Meaning::ToText)?;
    add_built_in(alloc, &mut list, "fromString", Meaning::FromText)?;
    add_built_in(alloc, &mut list, "len", Meaning::Length)?;
    add_built_in(alloc, &mut list, "at", Meaning::CharAt)?;
    Ok(list)
}

/// The names alone.
pub fn texts_of(alloc: Global, globals: &[GlobalName]) -> Result<Items<Text>, NoMemory>
    ensures { IfOk result (λ ts. ts ≡ map (λ g. g.name) (globals_of globals.now)) }
{
    let mut texts = Items::new(alloc);
    for global in globals {
        texts.push(global.name.copy(alloc)?)?;
    }
    Ok(texts)
}

/// The types of fields, or of parameters, in order.
pub fn types_of(alloc: Global, fields: &[FieldDef]) -> Result<Types, NoMemory>
    ensures { IfOk result (λ ts. map ty_of ts ≡ field_types (map field_of fields.now)) }
{
    let mut types = Items::new(alloc);
    for field in fields {
        types.push(field.ty)?;
    }
    Ok(types)
}

/// The name of the test of a constructor of this name.
pub fn test_name(alloc: Global, name: &Text) -> Result<Text, NoMemory>
    ensures { IfOk result (λ t. t ≡ names.test_name name.now) }
{
    let mut test = String::from_str(alloc, "is")?;
    test.push_str(name.as_str())?;
    Text::from_string(alloc, test)
}

/// Puts the selectors of a constructor of type `of` after the other names.
fn add_selectors(
    alloc: Global,
    list: &mut Items<GlobalName>,
    constructor: u32,
    of: u32,
    fields: &[FieldDef],
) -> Result<(), NoMemory>
    ensures { OnOk result (globals_of list.new ≡ globals_of list.old ++ names.selectors constructor of 0 (map field_of fields.now)) }
{
    for (place, field) in fields.iter().enumerate() {
        let number = number_of(place)?;
        let means = Meaning::Selector {
            constructor,
            field: number,
            of,
            ty: field.ty,
        };
        add_name(list, field.name.copy(alloc)?, means, Items::new(alloc))?;
    }
    Ok(())
}

/// Puts the names of a constructor of type `of` after the others: its own, that of its test, and those of its selectors.
fn add_constructor(
    alloc: Global,
    list: &mut Items<GlobalName>,
    number: u32,
    of: u32,
    cons: &ConsDef,
) -> Result<(), NoMemory>
    ensures { OnOk result (globals_of list.new ≡ globals_of list.old
        ++ names.constructor_globals of number (cons_of cons.now ∷ [])) }
{
    let takes = types_of(alloc, cons.fields.as_slice())?;
    let constructor = Meaning::Constructor { number, of };
    add_name(list, cons.name.copy(alloc)?, constructor, takes)?;
    let test = Meaning::Test {
        constructor: number,
        of,
    };
    add_name(list, test_name(alloc, &cons.name)?, test, Items::new(alloc))?;
    add_selectors(alloc, list, number, of, cons.fields.as_slice())
}

/// Puts the names of the constructors of type `of` after the others; the first constructor has the number `first`.
pub fn add_constructors(
    alloc: Global,
    list: &mut Items<GlobalName>,
    first: usize,
    of: u32,
    constructors: &[ConsDef],
) -> Result<(), NoMemory>
    ensures { OnOk result (globals_of list.new ≡ globals_of list.old
        ++ names.constructor_globals of first (conses_of constructors.now)) }
{
    let mut place = first;
    for cons in constructors {
        let number = number_of(place)?;
        add_constructor(alloc, list, number, of, cons)?;
        place += 1;
    }
    Ok(())
}
