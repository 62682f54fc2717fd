ghost use Rattle.txs_typing.specs.inner.Told.{Least};

use txs_typing::{TypeFault, lesser};

/// That of two faults which decides, if there are any.
pub fn least(a: Option<TypeFault>, b: Option<TypeFault>) -> Option<TypeFault>
    ensures { Least a b result }
{
    match a {
        None => b,
        Some(f) => match b {
            None => Some(f),
            Some(g) => Some(lesser(f, g)),
        },
    }
}
