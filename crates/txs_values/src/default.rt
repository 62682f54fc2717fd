ghost use Rattle.std.specs.Prelude.{◌≡◌, ◌≢◌, ◌≤◌, ◌+◌, length, List, map, option_map, IfOk, IfSome, Some, None, is_none, is_some, ◌&&◌};
ghost use Rattle.txs_values.specs.Choices;
ghost use Rattle.txs_values.specs.Choices.{extent_of, extents_of, extent_chosen, first_chosen, next_choices, choice_rounds, chosen_in, built};
ghost use Rattle.txs_values.specs.Default.{default_if};
ghost use Rattle.txs_values.specs.TableView.{field_of, conses_of, table_of, constructor_count, constructor_limit};
ghost use Rattle.txs_values.specs.View.{ty_of, value_of};

use crate::{
    ConsDef, FieldDef, NoMemory, Text, Ty, TypeDef, TypeTable, VALUE_HEIGHT_LIMIT,
    VALUE_SIZE_LIMIT, Value, made_of,
};
use sqlite_items::Items;
use std::alloc::Global;

/// How large and how high a value is; each 2^64 - 1 where it is greater.
#[derive(Clone, Copy, Debug, PartialEq, Eq)]
pub struct Extent {
    pub size: u64,
    pub height: u64,
}

/// The constructor of a default, and how large and high that is.
#[derive(Clone, Copy, Debug)]
struct Choice {
    id: u32,
    extent: Extent,
}

type Choices = Items<Option<Choice>>;

fn extent_chosen(found: &[Option<Choice>], ty: Ty) -> Option<Extent>
    ensures { result ≡ extent_chosen found.now (ty_of ty) }
{
    match ty {
        Ty::Int | Ty::Bool | Ty::Text => Some(Extent { size: 1, height: 1 }),
        Ty::Named(k) => match found.get(k as usize) {
            Some(Some(choice)) => Some(choice.extent),
            _ => None,
        },
    }
}

fn fields_extent(found: &[Option<Choice>], fields: &[FieldDef]) -> Option<Extent>
    ensures { result ≡ Choices.fields_extent found.now 1 0 (map field_of fields.now) }
{
    let mut size: u64 = 1;
    let mut height: u64 = 0;
    for field in fields {
        match extent_chosen(found, field.ty) {
            None => return None,
            Some(extent) => {
                size = size.saturating_add(extent.size);
                height = height.max(extent.height);
            }
        }
    }
    Some(Extent {
        size,
        height: height.saturating_add(1),
    })
}

fn first_chosen(found: &[Option<Choice>], first: usize, cons: &[ConsDef]) -> Option<Choice>
    requires { first + length cons.now ≤ constructor_limit }
    ensures { result ≡ first_chosen found.now first (conses_of cons.now) }
{
    let mut id = first;
    for constructor in cons {
        if let Some(extent) = fields_extent(found, constructor.fields.as_slice()) {
            return Some(Choice {
                id: id as u32,
                extent,
            });
        }
        id += 1;
    }
    None
}

/// One round: the types that are found already stay, and each other takes its first constructor whose fields are found.
fn next_choices(
    alloc: Global,
    defs: &[TypeDef],
    found: &[Option<Choice>],
) -> Result<Choices, NoMemory>
    requires counted { constructor_count (table_of defs.now) ≤ constructor_limit }
    requires same { length found.now ≡ length defs.now }
    ensures { IfOk result (λ cs. cs ≡ next_choices found.now 0 (table_of defs.now) found.now) }
{
    let mut next = Items::new(alloc);
    let mut first = 0;
    let mut at = 0;
    for def in defs {
        let choice = match found[at] {
            Some(choice) => Some(choice),
            None => first_chosen(found, first, def.cons.as_slice()),
        };
        next.push(choice)?;
        first += def.cons.len();
        at += 1;
    }
    Ok(next)
}

fn nothing_chosen(alloc: Global, defs: &[TypeDef]) -> Result<Choices, NoMemory>
    ensures { IfOk result (λ cs. cs ≡ choice_rounds 0 (table_of defs.now)) }
{
    let mut found = Items::new(alloc);
    for _def in defs {
        found.push(None)?;
    }
    Ok(found)
}

fn is_new(old: &Option<Choice>, new: &Option<Choice>) -> bool
    ensures { result ≡ (is_none old.now && is_some new.now) }
{
    old.is_none() && new.is_some()
}

/// Whether a round found no more than was found before it.
fn finds_nothing(found: &[Option<Choice>], next: &[Option<Choice>]) -> bool
    requires { length found.now ≡ length next.now }
    ensures { result ≡ Choices.finds_nothing found.now next.now }
{
    let mut at = 0;
    for choice in next {
        if is_new(&found[at], choice) {
            return false;
        }
        at += 1;
    }
    true
}

/// The rounds, up to the one that finds nothing more.
fn choice_rounds(alloc: Global, defs: &[TypeDef]) -> Result<Choices, NoMemory>
    requires { constructor_count (table_of defs.now) ≤ constructor_limit }
    ensures { IfOk result (λ cs. cs ≡ choice_rounds (length defs.now) (table_of defs.now)) }
{
    let mut found = nothing_chosen(alloc, defs)?;
    for _round in 0..defs.len() {
        let next = next_choices(alloc, defs, found.as_slice())?;
        if finds_nothing(found.as_slice(), next.as_slice()) {
            return Ok(found);
        }
        found = next;
    }
    Ok(found)
}

fn chosen_in(found: &[Option<Choice>], ty: u32) -> Option<Choice>
    ensures { result ≡ chosen_in found.now ty }
{
    match found.get(ty as usize) {
        Some(choice) => *choice,
        None => None,
    }
}

/// A default with this many levels at most.
fn build(
    alloc: Global,
    table: &TypeTable,
    found: &[Option<Choice>],
    ty: Ty,
    levels: u32,
) -> Result<Value, NoMemory>
    ensures { IfOk result (λ v. built levels table.now found.now (ty_of ty) ≡ Some (value_of v)) }
{
    if levels == 0 {
        return Err(NoMemory);
    }
    match ty {
        Ty::Int => Ok(Value::Int(0)),
        Ty::Bool => Ok(Value::Bool(false)),
        Ty::Text => Ok(Value::Text(Text::from_string(alloc, String::new(alloc))?)),
        Ty::Named(k) => match chosen_in(found, k) {
            None => Err(NoMemory),
            Some(choice) => match table.constructor_at(choice.id) {
                None => Err(NoMemory),
                Some((_, constructor)) => {
                    let mut fields = Items::new(alloc);
                    for field in constructor.fields.as_slice() {
                        fields.push(build(alloc, table, found, field.ty, levels - 1)?)?;
                    }
                    let made = made_of(alloc, choice.id, fields)?;
                    Ok(made)
                }
            },
        },
    }
}

/// The default of a type. Want of memory is answered for one above the limits of size and height that a value has.
pub fn default_of(alloc: Global, table: &TypeTable, ty: Ty) -> Result<Value, NoMemory>
    requires { default_if table.now (ty_of ty) ≢ None }
    ensures { IfOk result (λ v. default_if table.now (ty_of ty) ≡ Some (value_of v)) }
{
    let found = choice_rounds(alloc, table.as_slice())?;
    match extent_chosen(found.as_slice(), ty) {
        None => unreachable!(),
        Some(extent) => {
            if extent.size > VALUE_SIZE_LIMIT {
                return Err(NoMemory);
            }
            build(
                alloc,
                table,
                found.as_slice(),
                ty,
                VALUE_HEIGHT_LIMIT as u32,
            )
        }
    }
}

/// How large and how high the default of a type is, where it has one.
pub fn default_extent(alloc: Global, table: &TypeTable, ty: Ty) -> Result<Option<Extent>, NoMemory>
    ensures extent { IfOk result (λ e. e ≡ option_map extent_of (default_if table.now (ty_of ty))) }
    ensures exists { IfOk result (λ e. IfSome e (λ _. default_if table.now (ty_of ty) ≢ None)) }
{
    let found = choice_rounds(alloc, table.as_slice())?;
    Ok(extent_chosen(found.as_slice(), ty))
}

fn extent_in(choice: &Option<Choice>) -> Option<Extent>
    ensures { result ≡ option_map (λ c. c.extent) choice.now }
{
    match choice {
        Some(choice) => Some(choice.extent),
        None => None,
    }
}

fn extents_in(alloc: Global, found: &[Option<Choice>]) -> Result<Items<Option<Extent>>, NoMemory>
    ensures { IfOk result (λ es. es ≡ map (option_map (λ c. c.extent)) found.now) }
{
    let mut extents = Items::new(alloc);
    for choice in found {
        extents.push(extent_in(choice))?;
    }
    Ok(extents)
}

/// How large and high the default of each type is, where it has one, in the order of the types.
pub fn default_extents(alloc: Global, table: &TypeTable) -> Result<Items<Option<Extent>>, NoMemory>
    ensures { IfOk result (λ es. es ≡ extents_of table.now) }
{
    let found = choice_rounds(alloc, table.as_slice())?;
    extents_in(alloc, found.as_slice())
}
