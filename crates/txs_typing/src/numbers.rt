ghost use Rattle.std.specs.Prelude.{◌≡◌, ◌+◌, IfOk};

use txs_values::NoMemory;

/// A place in a list as a number. Want of memory is answered if it is not below 2^32.
pub fn number_of(place: usize) -> Result<u32, NoMemory>
    ensures { IfOk result (λ n. n ≡ place) }
{
    match u32::try_from(place) {
        Ok(number) => Ok(number),
        Err(_) => Err(NoMemory),
    }
}

/// The place after so many more. Want of memory is answered if it is not below 2^64.
pub fn place_after(place: usize, many: usize) -> Result<usize, NoMemory>
    ensures { IfOk result (λ p. p ≡ place + many) }
{
    match place.checked_add(many) {
        Some(after) => Ok(after),
        None => Err(NoMemory),
    }
}
