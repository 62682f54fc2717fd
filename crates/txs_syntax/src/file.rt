use crate::{Ast, Name};
use sqlite_items::Items;

/// Definitions in the order of the text.
#[derive(Debug, Drop)]
pub struct File {
    pub defs: Items<Def>,
}

/// A definition: of a type, a function or a constant.
#[derive(Debug, Drop)]
pub enum Def {
    TypeDef {
        name: Name,
        constructors: Items<ConDef>,
    },
    FuncDef {
        name: Name,
        params: DeclList,
        result: Name,
        body: Ast,
    },
    ConstDef {
        name: Name,
        ty: Name,
        body: Ast,
    },
}

/// A constructor of a type, with its fields.
#[derive(Debug, Drop)]
pub struct ConDef {
    pub name: Name,
    pub fields: DeclList,
}

/// Names with their types, in order.
#[derive(Debug, Drop)]
pub struct DeclList {
    pub decls: Items<Decl>,
}

/// Names that share one type.
#[derive(Debug, Drop)]
pub struct Decl {
    pub names: Items<Name>,
    pub ty: Name,
}
