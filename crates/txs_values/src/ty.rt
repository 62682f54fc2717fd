use sqlite_items::Items;

/// Int, Bool, String, or a type of the table by its place.
#[derive(Clone, Copy, Debug, PartialEq, Eq)]
pub enum Ty {
    Int,
    Bool,
    Text,
    Named(u32),
}

/// The types of several positions, in order.
pub type Types = Items<Ty>;
