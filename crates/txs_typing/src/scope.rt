ghost use Rattle.std.specs.Prelude.{◌≡◌, ◌++◌, List, IfOk, OnOk, OnErr, [], ◌∷◌, Some, map, option_map, if◌then◌else◌, take};
ghost use Rattle.txs_values.specs.View.{ty_of};
ghost use Rattle.txs_values.specs.TableView.{field_of};
ghost use Rattle.txs_values.specs.declared.table.FieldDef as rust_field;
ghost use Rattle.txs_terms.specs.Expr as of;
ghost use Rattle.txs_typing.specs.Names as names;
ghost use Rattle.txs_typing.specs.inner.View.{scope_of, typed_of, wants_of, called_of, meaning_of, global_of};

use crate::meaning::{GlobalName, GlobalNames, Meaning};
use crate::numbers::number_of;
use crate::typed::Typed;
use sqlite_items::Items;
use std::alloc::Global;
use txs_terms::Expr;
use txs_values::{FieldDef, FieldDefs, NoMemory, Text, Ty, Types, Value, made_of};

/// What names mean at a place: how many types there are, the names of the file, and the variables, outermost first.
#[derive(Drop)]
pub struct Scope {
    pub types: u32,
    pub globals: GlobalNames,
    pub slots: FieldDefs,
    pub locals: FieldDefs,
}

/// What is called by a name, the types of its arguments, and the types at which they are needed.
#[derive(Drop)]
pub struct Called {
    pub means: Meaning,
    pub takes: Types,
    pub needs: Items<Option<Ty>>,
}

/// The last variable of this name, with its number.
fn last_of(variables: &[FieldDef], name: &Text) -> Option<(usize, Ty)>
    ensures { option_map (λ p. (p.0, ty_of p.1)) result ≡ names.last_of name.now 0 (map field_of variables.now) }
{
    let mut found = None;
    let mut at = 0;
    for variable in variables {
        if variable.name.is(name) {
            found = Some((at, variable.ty));
        }
        at += 1;
    }
    found
}

/// What a name of the file means alone.
fn alone(alloc: Global, global: &GlobalName) -> Result<Option<Typed>, NoMemory>
    ensures { IfOk result (λ t. option_map typed_of t ≡ names.alone (global_of global.now).means) }
{
    match global.means {
        Meaning::Truth(b) => Ok(Some(Typed {
            expr: Expr::Value(Value::Bool(b)),
            ty: Ty::Bool,
        })),
        Meaning::Constant { number, ty } => Ok(Some(Typed {
            expr: Expr::Constant(number),
            ty,
        })),
        Meaning::Constructor { number, of } => {
            if global.takes.is_empty() {
                let value = made_of(alloc, number, Items::new(alloc))?;
                Ok(Some(Typed {
                    expr: Expr::Value(value),
                    ty: Ty::Named(of),
                }))
            } else {
                Ok(None)
            }
        }
        _ => Ok(None),
    }
}

/// Each of these types is needed.
fn needed(alloc: Global, types: &[Ty]) -> Result<Items<Option<Ty>>, NoMemory>
    ensures { IfOk result (λ ts. wants_of ts ≡ names.needed (map ty_of types.now)) }
{
    let mut needs = Items::new(alloc);
    for ty in types {
        needs.push(Some(*ty))?;
    }
    Ok(needs)
}

fn one_need(alloc: Global, need: Option<Ty>) -> Result<Items<Option<Ty>>, NoMemory>
    ensures { IfOk result (λ ts. ts ≡ need ∷ []) }
{
    let mut needs = Items::new(alloc);
    needs.push(need)?;
    Ok(needs)
}

fn two_needs(alloc: Global, first: Ty, second: Ty) -> Result<Items<Option<Ty>>, NoMemory>
    ensures { IfOk result (λ ts. ts ≡ Some first ∷ Some second ∷ []) }
{
    let mut needs = Items::new(alloc);
    needs.push(Some(first))?;
    needs.push(Some(second))?;
    Ok(needs)
}

/// The types at which what is called needs its arguments.
fn needs_of(
    alloc: Global,
    means: Meaning,
    takes: &[Ty],
) -> Result<Option<Items<Option<Ty>>>, NoMemory>
    ensures { IfOk result (λ ts. option_map wants_of ts ≡ names.takes (meaning_of means (map ty_of takes.now))) }
{
    match means {
        Meaning::Truth(_) | Meaning::Constant { .. } => Ok(None),
        Meaning::Function { .. } | Meaning::Constructor { .. } => Ok(Some(needed(alloc, takes)?)),
        Meaning::Test { of, .. } | Meaning::Selector { of, .. } => {
            Ok(Some(one_need(alloc, Some(Ty::Named(of)))?))
        }
        Meaning::Not => Ok(Some(one_need(alloc, Some(Ty::Bool))?)),
        Meaning::ToText => Ok(Some(one_need(alloc, None)?)),
        Meaning::FromText | Meaning::Length => Ok(Some(one_need(alloc, Some(Ty::Text))?)),
        Meaning::CharAt => Ok(Some(two_needs(alloc, Ty::Text, Ty::Int)?)),
    }
}

/// A variable by its number.
fn variable(number: usize, ty: Ty, local: bool) -> Result<Typed, NoMemory>
    ensures { IfOk result (λ t. typed_of t ≡ ((if local then of.local number else of.slot number), ty_of ty)) }
{
    let number = number_of(number)?;
    let expr = if local {
        Expr::Local(number)
    } else {
        Expr::Slot(number)
    };
    Ok(Typed { expr, ty })
}

impl Scope {
    /// The expression that a name means alone, with its type: the innermost variable, or else what it is in the file.
    pub fn meaning(&self, alloc: Global, name: &Text) -> Result<Option<Typed>, NoMemory>
        ensures { IfOk result (λ t. option_map typed_of t ≡ names.meaning (scope_of self.now) name.now) }
    {
        if let Some((number, ty)) = last_of(self.locals.as_slice(), name) {
            return Ok(Some(variable(number, ty, true)?));
        }
        if let Some((number, ty)) = last_of(self.slots.as_slice(), name) {
            return Ok(Some(variable(number, ty, false)?));
        }
        match self.globals.find(name) {
            Some(global) => alone(alloc, global),
            None => Ok(None),
        }
    }

    /// What is called by a name, which is no variable.
    pub fn called(&self, alloc: Global, name: &Text) -> Result<Option<Called>, NoMemory>
        ensures { IfOk result (λ c. option_map called_of c ≡ names.called (scope_of self.now) name.now) }
    {
        match self.globals.find(name) {
            Some(global) => match needs_of(alloc, global.means, global.takes.as_slice())? {
                Some(needs) => Ok(Some(Called {
                    means: global.means,
                    takes: Items::from_slice(alloc, global.takes.as_slice())?,
                    needs,
                })),
                None => Ok(None),
            },
            None => Ok(None),
        }
    }

    /// One more local.
    pub fn bind(&mut self, alloc: Global, name: &Text, ty: Ty) -> Result<(), NoMemory>
        ensures bound { OnOk result (scope_of self.new ≡ names.inside (scope_of self.old) name.now (ty_of ty)) }
        ensures added { OnOk result (self.new ≡ record self.old { locals = self.old.locals ++ record { name = name.now; ty = ty } ∷ [] }) }
        ensures unchanged { OnErr result (self.new ≡ self.old) }
    {
        let name = name.copy(alloc)?;
        self.locals.push(FieldDef { name, ty })?;
        Ok(())
    }

    /// The locals within so many go.
    pub fn leave(&mut self, outer: usize)
        ensures locals { self.new.locals ≡ take outer self.old.locals }
        ensures same { self.new ≡ record self.old { locals = self.new.locals } }
    {
        while self.locals.len() > outer {
            self.locals.pop();
        }
    }
}
