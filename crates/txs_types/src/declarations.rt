ghost use Rattle.std.specs.Prelude.{◌≡◌, ◌++◌, ◌∷◌, [], IfOk, IfSome, OnOk, map};
ghost use Rattle.txs_values.specs.View.{ty_of};
ghost use Rattle.txs_values.specs.TableView.{field_of};
ghost use Rattle.txs_typing.specs.declared.fault.TypeFault.TheVariants as fault;
ghost use Rattle.txs_types.specs.Files as files;
ghost use Rattle.txs_types.specs.inner.Among.{FindsUndefined};

use crate::least::least;
use sqlite_items::Items;
use std::alloc::Global;
use txs_syntax::{ConDef, DeclList, Name};
use txs_typing::{TypeFault, number_of};
use txs_values::{FieldDef, FieldDefs, NoMemory, Text, Ty};

/// The number of the type of this name; if there is none, the number after the last.
fn type_number(types: &[Name], name: &Text) -> usize
    ensures { result ≡ files.type_number name.now 0 types.now }
{
    for (number, ty) in types.iter().enumerate() {
        if ty.text.is(name) {
            return number;
        }
    }
    types.len()
}

/// The type of this name, if a file defines types of these names; of a name without a definition it is a type that is none of the file's.
pub fn type_of(types: &[Name], name: &Text) -> Result<Ty, NoMemory>
    ensures { IfOk result (λ t. ty_of t ≡ files.type_of types.now name.now) }
{
    match name.as_str() {
        "Int" => Ok(Ty::Int),
        "Bool" => Ok(Ty::Bool),
        "String" => Ok(Ty::Text),
        _ => Ok(Ty::Named(number_of(type_number(types, name))?)),
    }
}

/// Puts variables of one type after the others.
fn add_each(
    alloc: Global,
    variables: &mut FieldDefs,
    ty: Ty,
    names: &[Name],
) -> Result<(), NoMemory>
    ensures { OnOk result (map field_of variables.new ≡ map field_of variables.old ++ files.each_of (ty_of ty) names.now) }
{
    for name in names {
        let field = FieldDef {
            name: name.text.copy(alloc)?,
            ty,
        };
        variables.push(field)?;
    }
    Ok(())
}

/// The variables that are declared, each with its type.
pub fn variables_of(alloc: Global, types: &[Name], list: &DeclList) -> Result<FieldDefs, NoMemory>
    ensures { IfOk result (λ vs. map field_of vs ≡ files.variables_of types.now list.now) }
{
    let mut variables = Items::new(alloc);
    for decl in list.decls.as_slice() {
        let ty = type_of(types, &decl.ty.text)?;
        add_each(alloc, &mut variables, ty, decl.names.as_slice())?;
    }
    Ok(variables)
}

/// The same name, at the same offset.
pub fn copy_name(alloc: Global, name: &Name) -> Result<Name, NoMemory>
    ensures { IfOk result (λ n. n ≡ name.now) }
{
    Ok(Name {
        at: name.at,
        text: name.text.copy(alloc)?,
    })
}

/// Puts names after the others.
fn add_names(alloc: Global, list: &mut Items<Name>, names: &[Name]) -> Result<(), NoMemory>
    ensures { OnOk result (list.new ≡ list.old ++ names.now) }
{
    for name in names {
        list.push(copy_name(alloc, name)?)?;
    }
    Ok(())
}

/// All names of declarations, in order.
pub fn names_in(alloc: Global, list: &DeclList) -> Result<Items<Name>, NoMemory>
    ensures { IfOk result (λ ns. ns ≡ files.names_in list.now.decls) }
{
    let mut names = Items::new(alloc);
    for decl in list.decls.as_slice() {
        add_names(alloc, &mut names, decl.names.as_slice())?;
    }
    Ok(names)
}

/// Whether one of the names is this text.
fn is_named(types: &[Name], name: &Text) -> bool
    ensures { result ≡ files.is_among name.now (map (λ x. x.text) types.now) }
{
    for ty in types {
        if ty.text.is(name) {
            return true;
        }
    }
    false
}

/// Whether the language has a type of this name.
fn is_built_in(name: &Text) -> bool
    ensures { result ≡ files.is_among name.now files.built_in_types }
{
    match name.as_str() {
        "Int" => true,
        "Bool" => true,
        "String" => true,
        _ => false,
    }
}

/// Whether a type name has no definition, if a file defines types of these names.
fn is_undefined(types: &[Name], name: &Name) -> bool
    ensures { result ≡ files.is_undefined types.now name.now }
{
    !is_built_in(&name.text) && !is_named(types, &name.text)
}

/// The fault of the type name, if it has no definition.
pub fn undefined_name(types: &[Name], name: &Name) -> Option<TypeFault>
    ensures finds { FindsUndefined types.now (name.now ∷ []) result }
    ensures unknown { IfSome result (λ f. f ≡ fault.Unknown name.now.at) }
{
    if is_undefined(types, name) {
        Some(TypeFault::Unknown { at: name.at })
    } else {
        None
    }
}

/// Of the type names without a definition, among the types of declarations, the fault of the one of least offset.
pub fn undefined(types: &[Name], list: &DeclList) -> Option<TypeFault>
    ensures { FindsUndefined types.now (files.types_used list.now.decls) result }
{
    let mut fault = None;
    for decl in list.decls.as_slice() {
        fault = least(fault, undefined_name(types, &decl.ty));
    }
    fault
}

/// The same among the types of the fields of constructors.
pub fn undefined_field(types: &[Name], cons: &[ConDef]) -> Option<TypeFault>
    ensures { FindsUndefined types.now (files.types_of_fields cons.now) result }
{
    let mut fault = None;
    for con in cons {
        fault = least(fault, undefined(types, &con.fields));
    }
    fault
}
