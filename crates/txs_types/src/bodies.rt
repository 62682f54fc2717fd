ghost use Rattle.std.specs.Prelude.{◌≡◌, IfOk, OnOk};
ghost use Rattle.txs_syntax.specs.declared.file.Def.TheVariants as def;
ghost use Rattle.txs_types.specs.Files as files;
ghost use Rattle.txs_types.specs.inner.Among.{IsOfFile};
ghost use Rattle.txs_types.specs.inner.Collected.{FunctionIn, FunctionsCollected, ConstantIn, ConstantsCollected, IsAdded};

use crate::declarations::{type_of, variables_of};
use crate::file_names::add_definitions;
use crate::global_names::{built_ins, types_of};
use crate::least::least;
use sqlite_items::Items;
use std::alloc::Global;
use txs_syntax::{Ast, DeclList, Def, File, Name};
use txs_terms::{ConstantDef, FunctionDef};
use txs_typing::{GlobalNames, Scope, TypeFault, elaborate, number_of};
use txs_values::NoMemory;

/// The functions, or the constants, so far, and the fault that decides in the others.
#[derive(Drop)]
pub struct Collected<T> {
    pub list: Items<T>,
    pub fault: Option<TypeFault>,
}

impl<T: Drop> Collected<T> {
    fn add(&mut self, judged: Result<Items<T>, TypeFault>) -> Result<(), NoMemory>
        ensures { OnOk result (IsAdded self.old judged self.new) }
    {
        match judged {
            Ok(more) => self.list.append(more)?,
            Err(fault) => self.fault = least(self.fault, Some(fault)),
        }
        Ok(())
    }
}

fn function(
    alloc: Global,
    scope: &mut Scope,
    types: &[Name],
    name: &Name,
    params: &DeclList,
    gives: &Name,
    body: &Ast,
    file: &File,
) -> Result<Items<FunctionDef>, TypeFault>
    requires types { types.now ≡ files.type_names file.now.defs }
    requires scope { IsOfFile file.now scope.old }
    ensures judged { FunctionIn file.now (def.FuncDef name.now params.now gives.now body.now) result }
    ensures scope { IsOfFile file.now scope.new }
{
    let variables = variables_of(alloc, types, params)?;
    let takes = types_of(alloc, variables.as_slice())?;
    let gives = type_of(types, &gives.text)?;
    let name = name.text.copy(alloc)?;
    let mut list = Items::new(alloc);
    scope.slots = variables;
    let typed = elaborate(alloc, scope, Some(gives), body)?;
    list.push(FunctionDef {
        name,
        takes,
        gives,
        body: typed.expr,
    })?;
    Ok(list)
}

fn function_in(
    alloc: Global,
    scope: &mut Scope,
    types: &[Name],
    file: &File,
    def: &Def,
) -> Result<Items<FunctionDef>, TypeFault>
    requires types { types.now ≡ files.type_names file.now.defs }
    requires scope { IsOfFile file.now scope.old }
    ensures judged { FunctionIn file.now def.now result }
    ensures scope { IsOfFile file.now scope.new }
{
    match def {
        Def::FuncDef {
            name,
            params,
            result,
            body,
        } => function(alloc, scope, types, name, params, result, body, file),
        _ => Ok(Items::new(alloc)),
    }
}

/// The functions of a file, and the fault that decides in their bodies.
pub fn functions_of(
    alloc: Global,
    scope: &mut Scope,
    types: &[Name],
    file: &File,
) -> Result<Collected<FunctionDef>, NoMemory>
    requires types { types.now ≡ files.type_names file.now.defs }
    requires scope { IsOfFile file.now scope.old }
    ensures collected { IfOk result (λ s. FunctionsCollected file.now file.now.defs s) }
    ensures scope { IsOfFile file.now scope.new }
{
    let mut functions = Collected {
        list: Items::new(alloc),
        fault: None,
    };
    for def in file.defs.as_slice() {
        let judged = function_in(alloc, scope, types, file, def);
        functions.add(judged)?;
    }
    Ok(functions)
}

fn constant(
    alloc: Global,
    scope: &mut Scope,
    types: &[Name],
    name: &Name,
    of: &Name,
    body: &Ast,
    file: &File,
) -> Result<Items<ConstantDef>, TypeFault>
    requires types { types.now ≡ files.type_names file.now.defs }
    requires scope { IsOfFile file.now scope.old }
    ensures judged { ConstantIn file.now (def.ConstDef name.now of.now body.now) result }
    ensures scope { IsOfFile file.now scope.new }
{
    let ty = type_of(types, &of.text)?;
    let name = name.text.copy(alloc)?;
    let mut list = Items::new(alloc);
    scope.slots = Items::new(alloc);
    let typed = elaborate(alloc, scope, Some(ty), body)?;
    list.push(ConstantDef {
        name,
        ty,
        body: typed.expr,
    })?;
    Ok(list)
}

fn constant_in(
    alloc: Global,
    scope: &mut Scope,
    types: &[Name],
    file: &File,
    def: &Def,
) -> Result<Items<ConstantDef>, TypeFault>
    requires types { types.now ≡ files.type_names file.now.defs }
    requires scope { IsOfFile file.now scope.old }
    ensures judged { ConstantIn file.now def.now result }
    ensures scope { IsOfFile file.now scope.new }
{
    match def {
        Def::ConstDef { name, ty, body } => constant(alloc, scope, types, name, ty, body, file),
        _ => Ok(Items::new(alloc)),
    }
}

/// The constants of a file, and the fault that decides in their bodies.
pub fn constants_of(
    alloc: Global,
    scope: &mut Scope,
    types: &[Name],
    file: &File,
) -> Result<Collected<ConstantDef>, NoMemory>
    requires types { types.now ≡ files.type_names file.now.defs }
    requires scope { IsOfFile file.now scope.old }
    ensures collected { IfOk result (λ s. ConstantsCollected file.now file.now.defs s) }
    ensures scope { IsOfFile file.now scope.new }
{
    let mut constants = Collected {
        list: Items::new(alloc),
        fault: None,
    };
    for def in file.defs.as_slice() {
        let judged = constant_in(alloc, scope, types, file, def);
        constants.add(judged)?;
    }
    Ok(constants)
}

/// The scope of the bodies, with no parameters.
pub fn scope_of_file(alloc: Global, types: &[Name], file: &File) -> Result<Scope, NoMemory>
    requires { types.now ≡ files.type_names file.now.defs }
    ensures { IfOk result (λ s. IsOfFile file.now s) }
{
    let mut list = built_ins(alloc)?;
    add_definitions(alloc, &mut list, types, file.defs.as_slice())?;
    Ok(Scope {
        types: number_of(types.len())?,
        globals: GlobalNames { list },
        slots: Items::new(alloc),
        locals: Items::new(alloc),
    })
}
