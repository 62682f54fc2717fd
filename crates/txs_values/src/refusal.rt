ghost use Rattle.std.specs.Prelude.{◌≡◌, ◌≢◌, ◌↔◌, ◌⊎◌, IsUtf8, MatchResult};
ghost use Rattle.txs_values.specs.declared.reading.Kind.TheVariants.{Wrong, Past, Deep, Broken};
ghost use Rattle.txs_values.specs.declared.refusal.ReadValueFault.{ReadValueFault as Fault};
ghost use Rattle.txs_values.specs.declared.refusal.ReadValueFault.TheVariants.{NotText, NoMemory};
ghost use Rattle.txs_values.specs.Faults.{IsReadable, Refuses};
ghost use Rattle.txs_values.specs.ReadingView.{fault_of};
ghost use Rattle.txs_values.specs.Spelled.{IsSpelling, IsNamed, IsAllowed};
ghost use Rattle.txs_values.specs.Value as value;
ghost use Rattle.txs_values.specs.View.{value_of, ty_of};

use crate::reading::{Kind, Stop, lone};
use crate::{Ty, TypeTable, VALUE_SIZE_LIMIT, Value, size_of};
use std::alloc::Global;
use thiserror::Error;

/// Why bytes are not read as a value of a type.
#[derive(Clone, Copy, Debug, PartialEq, Eq, Error)]
pub enum ReadValueFault {
    #[error("the text is not UTF-8: send it in that encoding")]
    NotText,
    #[error("no value of the type goes on so at byte {at}: mend the text there")]
    WrongForm { at: usize },
    #[error("the number at byte {at} is past the range of Int: keep it within -2^127 to 2^127 - 1")]
    Range { at: usize },
    #[error("the values behind the parenthesis at byte {at} stand at level 1,001: nest at most 1,000 levels")]
    TooDeep { at: usize },
    #[error("the value is larger than 16,384: make it smaller")]
    TooBig,
    #[error("memory ran out: free some and try again")]
    NoMemory,
}

/// The value of this type that the bytes spell.
pub fn read_value(
    alloc: Global,
    table: &TypeTable,
    ty: Ty,
    bytes: &[u8],
) -> Result<Value, ReadValueFault>
    ensures exact { MatchResult result
        (λ v. IsUtf8 bytes.now × IsSpelling table.now (ty_of ty) (value_of v) bytes.now × IsAllowed table.now (ty_of ty) (value_of v))
        (λ f. (f ≡ NoMemory) ⊎ (IsNamed table.now → (v : value.Value) → IsUtf8 bytes.now → IsSpelling table.now (ty_of ty) v bytes.now → IsAllowed table.now (ty_of ty) v → ⊥)) }
    ensures not_text { (result ≡ Err NotText) ↔ (IsUtf8 bytes.now → ⊥) }
    ensures refused { IsReadable table.now (ty_of ty) → result ≢ Err NoMemory → (f : Fault) → f ≢ NoMemory → (result ≡ Err f) ↔ Refuses table.now (ty_of ty) bytes.now f }
{
    match std::str::from_utf8(bytes) {
        Ok(_) => read_text(alloc, table, ty, bytes),
        Err(_) => Err(ReadValueFault::NotText),
    }
}

fn read_text(
    alloc: Global,
    table: &TypeTable,
    ty: Ty,
    bytes: &[u8],
) -> Result<Value, ReadValueFault>
    requires { IsUtf8 bytes.now }
    ensures exact { MatchResult result
        (λ v. IsUtf8 bytes.now × IsSpelling table.now (ty_of ty) (value_of v) bytes.now × IsAllowed table.now (ty_of ty) (value_of v))
        (λ f. (f ≡ NoMemory) ⊎ (IsNamed table.now → (v : value.Value) → IsUtf8 bytes.now → IsSpelling table.now (ty_of ty) v bytes.now → IsAllowed table.now (ty_of ty) v → ⊥)) }
    ensures text { result ≢ Err NotText }
    ensures refused { IsReadable table.now (ty_of ty) → result ≢ Err NoMemory → (f : Fault) → f ≢ NoMemory → (result ≡ Err f) ↔ Refuses table.now (ty_of ty) bytes.now f }
{
    match lone(alloc, table, ty, bytes) {
        Ok(value) => {
            if size_of(&value) > VALUE_SIZE_LIMIT {
                return Err(ReadValueFault::TooBig);
            }
            Ok(value)
        }
        Err(Stop::NoMemory) => Err(ReadValueFault::NoMemory),
        Err(Stop::At(kind, left)) => Err(fault(kind, bytes.len() - left)),
    }
}

fn fault(kind: Kind, at: usize) -> ReadValueFault
    requires { kind ≢ Broken }
    ensures { result ≡ fault_of kind at }
{
    match kind {
        Kind::Wrong => ReadValueFault::WrongForm { at },
        Kind::Past => ReadValueFault::Range { at },
        Kind::Deep => ReadValueFault::TooDeep { at },
        Kind::Broken => unreachable!(),
    }
}
