ghost use Rattle.std.specs.Prelude.{◌≡◌, ◌++◌, [], IfOk, OnOk, map};
ghost use Rattle.txs_values.specs.TableView.{table_of};
ghost use Rattle.txs_terms.specs.View.{function_of, constant_of, definitions_of};
ghost use Rattle.txs_typing.specs.Names as names;
ghost use Rattle.txs_typing.specs.inner.View.{globals_of};

use crate::global_names::{add_constructors, add_name, built_ins};
use sqlite_items::Items;
use std::alloc::Global;
use txs_terms::{ConstantDef, Defs, FunctionDef};
use txs_typing::{GlobalName, GlobalNames, Meaning, number_of, place_after};
use txs_values::{NoMemory, TypeDef};

/// Puts the names of the types of a table after the others.
fn add_types(alloc: Global, list: &mut Items<GlobalName>, types: &[TypeDef]) -> Result<(), NoMemory>
    ensures { OnOk result (globals_of list.new ≡ globals_of list.old ++ names.table_globals 0 0 (table_of types.now)) }
{
    let mut first = 0usize;
    for (place, def) in types.iter().enumerate() {
        let of = number_of(place)?;
        add_constructors(alloc, list, first, of, def.cons.as_slice())?;
        first = place_after(first, def.cons.len())?;
    }
    Ok(())
}

/// Puts the names of functions after the others.
fn add_functions(
    alloc: Global,
    list: &mut Items<GlobalName>,
    functions: &[FunctionDef],
) -> Result<(), NoMemory>
    ensures { OnOk result (globals_of list.new ≡ globals_of list.old ++ names.function_globals 0 (map function_of functions.now)) }
{
    for (place, function) in functions.iter().enumerate() {
        let means = Meaning::Function {
            number: number_of(place)?,
            gives: function.gives,
        };
        let takes = Items::from_slice(alloc, function.takes.as_slice())?;
        add_name(list, function.name.copy(alloc)?, means, takes)?;
    }
    Ok(())
}

/// Puts the names of constants after the others.
fn add_constants(
    alloc: Global,
    list: &mut Items<GlobalName>,
    constants: &[ConstantDef],
) -> Result<(), NoMemory>
    ensures { OnOk result (globals_of list.new ≡ globals_of list.old ++ names.constant_globals 0 (map constant_of constants.now)) }
{
    for (place, constant) in constants.iter().enumerate() {
        let means = Meaning::Constant {
            number: number_of(place)?,
            ty: constant.ty,
        };
        add_name(list, constant.name.copy(alloc)?, means, Items::new(alloc))?;
    }
    Ok(())
}

/// The names of the language and those that definitions define, in order.
pub fn global_names(alloc: Global, defs: &Defs) -> Result<GlobalNames, NoMemory>
    ensures { IfOk result (λ g. globals_of g.list ≡ (names.scope_over (definitions_of defs.now) []).globals) }
{
    let mut list = built_ins(alloc)?;
    add_types(alloc, &mut list, defs.table().as_slice())?;
    add_functions(alloc, &mut list, defs.functions())?;
    add_constants(alloc, &mut list, defs.constants())?;
    Ok(GlobalNames { list })
}
