use crate::reader::file_of;
use sqlite_items::Items;
use std::alloc::Global;
use txs_case::CaseFault;
use txs_syntax::{ConDef, Decl, DeclList, Def, File};
use txs_values::{ConsDef, FieldDef, FieldDefs, Text, Ty, TypeDef, TypeTable};

/// The table of the types that a text defines, as they stand.
pub fn table_of(alloc: Global, definitions: &[u8]) -> Result<TypeTable, CaseFault> {
    let file = file_of(alloc, definitions)?;
    let defs = file.defs.as_slice();
    let mut table = TypeTable::new(alloc);
    for def in defs {
        if let Def::TypeDef { name, constructors } = def {
            table.add(type_of(alloc, defs, &name.text, constructors.as_slice())?)?;
        }
    }
    Ok(table)
}

fn type_of(
    alloc: Global,
    defs: &[Def],
    name: &Text,
    constructors: &[ConDef],
) -> Result<TypeDef, CaseFault> {
    let mut cons = Items::new(alloc);
    for constructor in constructors {
        cons.push(constructor_of(alloc, defs, constructor)?)?;
    }
    let name = name.copy(alloc)?;
    Ok(TypeDef { name, cons })
}

fn constructor_of(alloc: Global, defs: &[Def], constructor: &ConDef) -> Result<ConsDef, CaseFault> {
    let mut fields = Items::new(alloc);
    for decl in constructor.fields.decls.as_slice() {
        add_fields(alloc, defs, &mut fields, decl)?;
    }
    let name = constructor.name.text.copy(alloc)?;
    Ok(ConsDef { name, fields })
}

/// Adds the fields that share a type.
fn add_fields(
    alloc: Global,
    defs: &[Def],
    fields: &mut FieldDefs,
    decl: &Decl,
) -> Result<(), CaseFault> {
    let ty = field_type(defs, decl.ty.text.as_str())?;
    for name in decl.names.as_slice() {
        let name = name.text.copy(alloc)?;
        fields.push(FieldDef { name, ty })?;
    }
    Ok(())
}

/// The type of this name among definitions.
fn field_type(defs: &[Def], name: &str) -> Result<Ty, CaseFault> {
    if let Some(ty) = simple_type(name) {
        return Ok(ty);
    }
    let mut number = 0u32;
    for def in defs {
        if let Def::TypeDef { name: found, .. } = def {
            if found.text.as_str() == name {
                return Ok(Ty::Named(number));
            }
            number = number.saturating_add(1);
        }
    }
    Err(CaseFault::Form)
}

fn simple_type(name: &str) -> Option<Ty> {
    match name {
        "Int" => Some(Ty::Int),
        "Bool" => Some(Ty::Bool),
        "String" => Some(Ty::Text),
        _ => None,
    }
}

/// The type of this name in a table.
pub fn type_named(types: &[TypeDef], name: &[u8]) -> Option<Ty> {
    let Ok(name) = str::from_utf8(name) else {
        return None;
    };
    if let Some(ty) = simple_type(name) {
        return Some(ty);
    }
    let mut number = 0u32;
    for def in types {
        if def.name.as_str() == name {
            return Some(Ty::Named(number));
        }
        number = number.saturating_add(1);
    }
    None
}
