ghost use Rattle.std.specs.Prelude.{ℕ, ◌≡◌, IfOk, IsTrue, ◌↔◌, ◌⊎◌, ◌<◌, [], option_map};
ghost use Rattle.txs_values.specs.Value.{Table, named};
ghost use Rattle.txs_values.specs.Default.{default_if};
ghost use Rattle.txs_values.specs.Choices.{extent_of, extents_of};
ghost use Rattle.txs_types.specs.Files as files;
ghost use Rattle.txs_typing.specs.inner.Told.{Finds};
ghost use Rattle.txs_types.specs.inner.Among.{Among, AmongDefs, IsTwice, TwiceIn, UnknownIn, BadDefault};

use crate::declarations::{names_in, undefined, undefined_field, undefined_name};
use crate::definitions::defined_names;
use crate::global_names::{built_ins, texts_of};
use crate::least::least;
use crate::names::repeated;
use sqlite_items::Items;
use std::alloc::Global;
use txs_syntax::{DeclList, Def, Name};
use txs_typing::TypeFault;
use txs_values::{
    Extent, NoMemory, Text, TypeTable, VALUE_HEIGHT_LIMIT, VALUE_SIZE_LIMIT, default_extents,
};

fn built_in_types(alloc: Global) -> Result<Items<Text>, NoMemory>
    ensures { IfOk result (λ ts. ts ≡ files.built_in_types) }
{
    let mut texts = Items::new(alloc);
    texts.push(Text::from_str(alloc, "Int")?)?;
    texts.push(Text::from_str(alloc, "Bool")?)?;
    texts.push(Text::from_str(alloc, "String")?)?;
    Ok(texts)
}

/// Of the names of types that are taken already, the fault of the one of least offset.
pub fn twice_type(alloc: Global, types: &[Name]) -> Result<Option<TypeFault>, NoMemory>
    ensures { IfOk result (λ f. Finds f (IsTwice files.built_in_types types.now)) }
{
    let before = built_in_types(alloc)?;
    repeated(alloc, before.as_slice(), types)
}

fn built_in_names(alloc: Global) -> Result<Items<Text>, NoMemory>
    ensures { IfOk result (λ ts. ts ≡ files.built_in_names) }
{
    let globals = built_ins(alloc)?;
    texts_of(alloc, globals.as_slice())
}

/// Of the names in expressions that are taken already, the fault of the one of least offset.
pub fn twice_name(alloc: Global, defs: &[Def]) -> Result<Option<TypeFault>, NoMemory>
    ensures { IfOk result (λ f. Finds f (IsTwice files.built_in_names (files.defined_names defs.now))) }
{
    let before = built_in_names(alloc)?;
    let names = defined_names(alloc, defs)?;
    repeated(alloc, before.as_slice(), names.as_slice())
}

fn twice_among(alloc: Global, params: &DeclList) -> Result<Option<TypeFault>, NoMemory>
    ensures { IfOk result (λ f. Finds f (IsTwice [] (files.names_in params.now.decls))) }
{
    let before = Items::new(alloc);
    let names = names_in(alloc, params)?;
    repeated(alloc, before.as_slice(), names.as_slice())
}

fn twice_in(alloc: Global, def: &Def) -> Result<Option<TypeFault>, NoMemory>
    ensures { IfOk result (λ f. Finds f (TwiceIn def.now)) }
{
    match def {
        Def::FuncDef { params, .. } => twice_among(alloc, params),
        _ => Ok(None),
    }
}

/// Of the parameters whose names are taken already, the fault of the one of least offset.
pub fn twice_parameter(alloc: Global, defs: &[Def]) -> Result<Option<TypeFault>, NoMemory>
    ensures { IfOk result (λ f. Finds f (AmongDefs TwiceIn defs.now)) }
{
    let mut fault = None;
    for def in defs {
        fault = least(fault, twice_in(alloc, def)?);
    }
    Ok(fault)
}

fn unknown_in(types: &[Name], def: &Def) -> Option<TypeFault>
    ensures { Finds result (UnknownIn types.now def.now) }
{
    match def {
        Def::TypeDef { constructors, .. } => undefined_field(types, constructors.as_slice()),
        Def::FuncDef { params, result, .. } => {
            least(undefined(types, params), undefined_name(types, result))
        }
        Def::ConstDef { ty, .. } => undefined_name(types, ty),
    }
}

/// Of the type names without a definition, the fault of the one of least offset.
pub fn unknown_type(types: &[Name], defs: &[Def]) -> Option<TypeFault>
    ensures { Finds result (AmongDefs (UnknownIn types.now) defs.now) }
{
    let mut fault = None;
    for def in defs {
        fault = least(fault, unknown_in(types, def));
    }
    fault
}

fn is_big(extent: Extent) -> bool
    ensures { IsTrue result ↔ ((16384 < extent.size) ⊎ (1000 < extent.height)) }
{
    extent.size > VALUE_SIZE_LIMIT || extent.height > VALUE_HEIGHT_LIMIT
}

fn extent_at(extents: &[Option<Extent>], place: usize) -> Option<Extent>
    ensures { (table : Table) → extents.now ≡ extents_of table → result ≡ option_map extent_of (default_if table (named place)) }
{
    match extents.get(place) {
        Some(extent) => *extent,
        None => None,
    }
}

/// The fault of a type whose default is of this extent.
fn bad_default(extent: Option<Extent>, name: &Name) -> Option<TypeFault>
    ensures { (table : Table) (number : ℕ) → extent ≡ option_map extent_of (default_if table (named number)) → Finds result (BadDefault table number name.now) }
{
    match extent {
        None => Some(TypeFault::EmptyType { at: name.at }),
        Some(extent) => {
            if is_big(extent) {
                Some(TypeFault::BigType { at: name.at })
            } else {
                None
            }
        }
    }
}

/// Of the types without a default, or with too large or high a one, the fault of the one of least offset.
pub fn bad_type(
    alloc: Global,
    table: &TypeTable,
    types: &[Name],
) -> Result<Option<TypeFault>, NoMemory>
    ensures { IfOk result (λ f. Finds f (Among (BadDefault table.now) types.now)) }
{
    let extents = default_extents(alloc, table)?;
    let mut fault = None;
    for (place, name) in types.iter().enumerate() {
        let extent = extent_at(extents.as_slice(), place);
        fault = least(fault, bad_default(extent, name));
    }
    Ok(fault)
}
