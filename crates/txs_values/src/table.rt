ghost use Rattle.std.specs.Prelude.{◌≡◌, ◌≤◌, ◌+◌, ◌++◌, ◌∷◌, [], ℕ, List, length, OnOk, OnErr, IfSome, MatchOption, slice_get, option_map};
ghost use Rattle.txs_values.specs.Spelling.{made_in, made_from};
ghost use Rattle.txs_values.specs.TableView.{cons_of, conses_of, type_of, table_of, first_of, constructor_count, constructor_limit};
ghost use Rattle.txs_values.specs.Value.{place_of};

use crate::{NoMemory, Text, Ty};
use sqlite_items::Items;
use std::alloc::Global;
use std::marker::Model;

/// The fields of a constructor, in order.
pub type FieldDefs = Items<FieldDef>;

/// The constructors of a type, in order.
pub type ConsDefs = Items<ConsDef>;

/// A field of a constructor.
#[derive(Debug, Drop)]
pub struct FieldDef {
    pub name: Text,
    pub ty: Ty,
}

/// A constructor, whose number is its place over the whole table.
#[derive(Debug, Drop)]
pub struct ConsDef {
    pub name: Text,
    pub fields: FieldDefs,
}

/// A type with its constructors.
#[derive(Debug, Drop)]
pub struct TypeDef {
    pub name: Text,
    pub cons: ConsDefs,
}

/// So many constructors can have a number.
const CONSTRUCTOR_LIMIT: usize = 4_294_967_296;

/// The types of a file, in order.
#[derive(Debug, Drop)]
pub struct TypeTable {
    defs: Items<TypeDef>,
    count: usize,
}

impl Model for TypeTable {
    ghost use Rattle.txs_values.specs.Value.{Table};

    ghost Value = { Table };

    ghost use Rattle.txs_values.specs.TableView.{IsCounted, table_of};

    ghost view = { λ t. table_of t.defs };

    ghost invariant = { λ t. IsCounted t.count (table_of t.defs) };
}

impl TypeTable {
    pub fn new(alloc: Global) -> TypeTable
        ensures { result ≡ [] }
    {
        TypeTable {
            defs: Items::new(alloc),
            count: 0,
        }
    }

    /// Puts a type behind the others. Want of memory is answered where no number, below 2^32, is left for a constructor.
    pub fn add(&mut self, def: TypeDef) -> Result<(), NoMemory>
        ensures ok { OnOk result (self.new ≡ self.old ++ type_of def ∷ []) }
        ensures err { OnErr result (self.new ≡ self.old) }
    {
        let count = def.cons.len();
        if count > CONSTRUCTOR_LIMIT - self.count {
            return Err(NoMemory);
        }
        self.defs.push(def)?;
        self.count += count;
        Ok(())
    }

    /// The types with their constructors.
    pub fn as_slice(&self) -> &[TypeDef]
        ensures defs { table_of result.now ≡ self.now }
        ensures counted { constructor_count self.now ≤ constructor_limit }
    {
        self.defs.as_slice()
    }

    /// The constructor of this number, with the place of its type.
    pub fn constructor_at(&self, id: u32) -> Option<(usize, &ConsDef)>
        ensures { MatchOption result (place_of self.now id ≡ None) (λ p. place_of self.now id
            ≡ Some (record { ty = p.0; constructor = cons_of p.1.now })) }
    {
        let mut left = id as usize;
        let mut ty = 0;
        for def in self.defs.as_slice() {
            if let Some(cons) = def.cons.get(left) {
                return Some((ty, cons));
            }
            left -= def.cons.len();
            ty += 1;
        }
        None
    }

    /// The constructors of a type, with the number of the first.
    pub fn constructors(&self, ty: u32) -> Option<(usize, &[ConsDef])>
        ensures constructors { MatchOption result (slice_get self.now ty ≡ None) (λ p.
            option_map (λ t. t.constructors) (slice_get self.now ty) ≡ Some (conses_of p.1.now)) }
        ensures first { MatchOption result (slice_get self.now ty ≡ None) (λ p. p.0 ≡ first_of self.now ty) }
        ensures numbers { IfSome result (λ p. p.0 + length p.1.now ≤ constructor_limit) }
        ensures made { (name : List ℕ) → MatchOption result (made_from 0 self.now ty name ≡ None) (λ p.
            made_from 0 self.now ty name ≡ made_in p.0 (conses_of p.1.now) name) }
    {
        let mut first = 0;
        let mut left = ty;
        for def in self.defs.as_slice() {
            if left == 0 {
                return Some((first, def.cons.as_slice()));
            }
            left -= 1;
            first += def.cons.len();
        }
        None
    }
}
