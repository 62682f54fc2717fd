ghost use Rattle.std.specs.Prelude.{◌≡◌, [], ◌∷◌, IfOk, List, map};
ghost use Rattle.txs_values.specs.Value.{Table, num};
ghost use Rattle.txs_terms.specs.Action.{IsAction, Scope};
ghost use Rattle.txs_terms.specs.Sets.{IsInt, IsIntAction};
ghost use Rattle.txs_terms.specs.View.{action_of, part_of};

use sqlite_items::Items;
use std::alloc::Global;
use txs_values::{NoMemory, Value, Values, copy_value};

/// Several channels, by their numbers.
pub type Channels = Items<u32>;

/// A channel with its values.
#[derive(Drop)]
pub struct Part {
    pub channel: u32,
    pub values: Values,
}

/// Ascending channels, each with its values.
#[derive(Drop)]
pub struct Action {
    parts: Items<Part>,
}

fn copy_values(alloc: Global, values: &[Value]) -> Result<Values, NoMemory>
    ensures { IfOk result (λ vs. vs ≡ values.now) }
{
    let mut copies = Items::new(alloc);
    for value in values {
        copies.push(copy_value(alloc, value)?)?;
    }
    Ok(copies)
}

fn copy_parts(alloc: Global, parts: &[Part]) -> Result<Items<Part>, NoMemory>
    ensures { IfOk result (λ ps. ps ≡ parts.now) }
{
    let mut copies = Items::new(alloc);
    for part in parts {
        let values = copy_values(alloc, part.values.as_slice())?;
        copies.push(Part {
            channel: part.channel,
            values,
        })?;
    }
    Ok(copies)
}

fn number_on(alloc: Global, channel: u32, value: i128) -> Result<Items<Part>, NoMemory>
    ensures { IfOk result (λ ps. map part_of ps
        ≡ record { channel = channel; values = num value ∷ [] } ∷ []) }
{
    let mut values = Items::new(alloc);
    values.push(Value::Int(value))?;
    let mut parts = Items::new(alloc);
    parts.push(Part { channel, values })?;
    Ok(parts)
}

impl Action {
    /// A number on one channel.
    pub fn on(alloc: Global, channel: u32, value: i128) -> Result<Action, NoMemory>
        ensures parts { IfOk result (λ a. action_of a
            ≡ record { channel = channel; values = num value ∷ [] } ∷ []) }
        ensures int { IfOk result (λ a. IsIntAction (action_of a)) }
        ensures action { IfOk result (λ a. (table : Table) (scope : Scope)
            → IsInt scope channel → IsAction table scope (action_of a)) }
    {
        let parts = number_on(alloc, channel, value)?;
        Ok(Action { parts })
    }

    pub fn parts(&self) -> &[Part]
        ensures { map part_of result.now ≡ action_of self.now }
    {
        self.parts.as_slice()
    }

    pub fn copy(&self, alloc: Global) -> Result<Action, NoMemory>
        ensures { IfOk result (λ a. action_of a ≡ action_of self.now) }
    {
        let parts = copy_parts(alloc, self.parts.as_slice())?;
        Ok(Action { parts })
    }
}
