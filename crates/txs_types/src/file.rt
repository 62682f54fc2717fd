ghost use Rattle.std.specs.Prelude.{◌≡◌, IfOk, IfErr};
ghost use Rattle.txs_terms.specs.View.{definitions_of};
ghost use Rattle.txs_types.specs.Files as files;
ghost use Rattle.txs_types.specs.Files.{FileOffends, IsMeant, FileHasNames};
ghost use Rattle.txs_typing.specs.Offends.{Offence};
ghost use Rattle.txs_typing.specs.Answer.{Told, AreSafe};
ghost use Rattle.txs_typing.specs.inner.Told.{Finds};
ghost use Rattle.txs_types.specs.inner.Among.{InNames, OutsideBodies};

use crate::bodies::{constants_of, functions_of, scope_of_file};
use crate::definitions::type_names;
use crate::file_types::{excused, table_of};
use crate::least::least;
use crate::offences::{bad_type, twice_name, twice_parameter, twice_type, unknown_type};
use std::alloc::Global;
use txs_syntax::{File, Name};
use txs_terms::Defs;
use txs_typing::TypeFault;
use txs_values::NoMemory;

fn fault_in_names(alloc: Global, types: &[Name], file: &File) -> Result<Option<TypeFault>, NoMemory>
    requires { types.now ≡ files.type_names file.now.defs }
    ensures { IfOk result (λ f. Finds f (InNames file.now)) }
{
    let defs = file.defs.as_slice();
    let of_type = twice_type(alloc, types)?;
    let of_name = twice_name(alloc, defs)?;
    let of_parameter = twice_parameter(alloc, defs)?;
    let unknown = unknown_type(types, defs);
    let twice = least(of_type, of_name);
    let other = least(of_parameter, unknown);
    Ok(least(twice, other))
}

fn fault_outside_bodies(
    alloc: Global,
    types: &[Name],
    file: &File,
) -> Result<Option<TypeFault>, NoMemory>
    requires { types.now ≡ files.type_names file.now.defs }
    ensures { IfOk result (λ f. Finds f (OutsideBodies file.now)) }
{
    let in_names = fault_in_names(alloc, types, file)?;
    let table = excused(alloc, types, file.defs.as_slice())?;
    let in_defaults = bad_type(alloc, &table, types)?;
    Ok(least(in_names, in_defaults))
}

/// The types, functions and constants that a file defines, or the offence that decides. Want of memory is answered too if no number, below 2^32, is left for a name.
pub fn type_defs(alloc: Global, file: &File) -> Result<Defs, TypeFault>
    requires names { FileHasNames file.now }
    ensures meant { IfOk result (λ d. IsMeant file.now (definitions_of d)) }
    ensures clean { IfOk result (λ d. (o : Offence) → FileOffends file.now o → ⊥) }
    ensures safe { IfOk result (λ d. AreSafe (definitions_of d)) }
    ensures offends { IfErr result (λ f. Told f (FileOffends file.now)) }
{
    let types = type_names(alloc, file.defs.as_slice())?;
    let outside = fault_outside_bodies(alloc, types.as_slice(), file)?;
    let mut scope = scope_of_file(alloc, types.as_slice(), file)?;
    let functions = functions_of(alloc, &mut scope, types.as_slice(), file)?;
    let constants = constants_of(alloc, &mut scope, types.as_slice(), file)?;
    let without = least(outside, functions.fault);
    match least(without, constants.fault) {
        Some(fault) => Err(fault),
        None => {
            let table = table_of(alloc, types.as_slice(), file.defs.as_slice())?;
            Ok(Defs::new(table, functions.list, constants.list))
        }
    }
}
