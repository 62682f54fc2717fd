ghost use Rattle.std.specs.Prelude.{◌≡◌, IfOk, OnOk, ℕ, List, MatchBool, Some, None, cond, bytes_eq, true};
ghost use Rattle.std.specs.BTreeSet.{contains_text};
ghost use Rattle.txs_typing.specs.declared.fault.TypeFault.TheVariants as fault;
ghost use Rattle.txs_types.specs.Files.{is_among};
ghost use Rattle.txs_typing.specs.inner.Told.{Finds};
ghost use Rattle.txs_types.specs.inner.Among.{IsTwice};

use crate::least::least;
use std::alloc::Global;
use std::collections::BTreeSet;
use txs_syntax::Name;
use txs_typing::TypeFault;
use txs_values::{NoMemory, Text};

/// Puts a text among those that stand before.
fn add_text(alloc: Global, seen: &mut BTreeSet<String>, text: &Text) -> Result<(), NoMemory>
    ensures { OnOk result ((x : List ℕ) → contains_text seen.new x ≡ cond (bytes_eq text.now x) true (contains_text seen.old x)) }
{
    seen.insert(String::from_str(alloc, text.as_str())?)?;
    Ok(())
}

/// The texts, as a set.
fn set_of(alloc: Global, texts: &[Text]) -> Result<BTreeSet<String>, NoMemory>
    ensures { IfOk result (λ s. (x : List ℕ) → contains_text s x ≡ is_among x texts.now) }
{
    let mut seen = BTreeSet::new(alloc);
    for text in texts {
        add_text(alloc, &mut seen, text)?;
    }
    Ok(seen)
}

/// The fault of a name that stands before already.
fn repeated_name(seen: &BTreeSet<String>, name: &Name) -> Option<TypeFault>
    ensures { MatchBool (contains_text seen.now name.now.text) (result ≡ Some (fault.Twice name.now.at)) (result ≡ None) }
{
    if seen.contains(name.text.as_str()) {
        Some(TypeFault::Twice { at: name.at })
    } else {
        None
    }
}

/// Of the names that stand before already, or are one of these, the fault of the one that decides.
pub fn repeated(
    alloc: Global,
    before: &[Text],
    names: &[Name],
) -> Result<Option<TypeFault>, NoMemory>
    ensures { IfOk result (λ f. Finds f (IsTwice before.now names.now)) }
{
    let mut seen = set_of(alloc, before)?;
    let mut fault = None;
    for name in names {
        fault = least(fault, repeated_name(&seen, name));
        add_text(alloc, &mut seen, &name.text)?;
    }
    Ok(fault)
}
