ghost use Rattle.std.specs.Prelude.{◌≡◌, MatchOption, None, Some};
ghost use Rattle.txs_typing.specs.Names as names;
ghost use Rattle.txs_typing.specs.inner.View.{global_of, globals_of};

use sqlite_items::Items;
use txs_values::{Text, Ty, Types};

/// What a name of the file, or of the language, means. Types and constructors go by their numbers.
#[derive(Clone, Copy)]
pub enum Meaning {
    Truth(bool),
    Constant {
        number: u32,
        ty: Ty,
    },
    Function {
        number: u32,
        gives: Ty,
    },
    Constructor {
        number: u32,
        of: u32,
    },
    Test {
        constructor: u32,
        of: u32,
    },
    Selector {
        constructor: u32,
        field: u32,
        of: u32,
        ty: Ty,
    },
    Not,
    ToText,
    FromText,
    Length,
    CharAt,
}

/// A name with what it means. A function and a constructor take arguments of these types.
#[derive(Drop)]
pub struct GlobalName {
    pub name: Text,
    pub means: Meaning,
    pub takes: Types,
}

/// The names of a file and of the language, in order.
#[derive(Drop)]
pub struct GlobalNames {
    pub list: Items<GlobalName>,
}

impl GlobalNames {
    /// What the name means: of two equal names the earlier holds.
    pub fn find(&self, name: &Text) -> Option<&GlobalName>
        ensures { MatchOption result (names.global_of name.now (globals_of self.now.list) ≡ None) (λ g.
            names.global_of name.now (globals_of self.now.list) ≡ Some ((global_of g.now).means)) }
    {
        for global in self.list.as_slice() {
            if global.name.is(name) {
                return Some(global);
            }
        }
        None
    }
}
