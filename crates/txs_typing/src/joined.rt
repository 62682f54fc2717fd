ghost use Rattle.txs_typing.specs.inner.Told.{Joined};
ghost use Rattle.txs_typing.specs.inner.Parts as parts;

use crate::fault::{TypeFault, lesser};
use crate::typed::Typed;

/// Both, or of their faults the one that decides.
pub fn joined<A: Drop, B: Drop>(
    a: Result<A, TypeFault>,
    b: Result<B, TypeFault>,
) -> Result<(A, B), TypeFault>
    ensures { Joined a b result }
{
    match (a, b) {
        (Ok(a), Ok(b)) => Ok((a, b)),
        (Ok(_), Err(fault)) => Err(fault),
        (Err(fault), Ok(_)) => Err(fault),
        (Err(a), Err(b)) => Err(lesser(a, b)),
    }
}

/// The two, the other way round.
pub fn turned(found: Result<(Typed, Typed), TypeFault>) -> Result<(Typed, Typed), TypeFault>
    ensures { parts.Turned found result }
{
    match found {
        Ok((a, b)) => Ok((b, a)),
        Err(fault) => Err(fault),
    }
}
