use crate::fault::CaseFault;
use std::alloc::Global;

/// The first word of a text, and what stands after the blank that ends it.
pub fn split_word(text: &str) -> (&str, &str) {
    text.split_once(' ').unwrap_or((text, ""))
}

/// The number that digits alone spell.
pub fn number_of(word: &str) -> Result<u64, CaseFault> {
    if word.starts_with('+') {
        return Err(CaseFault::Form);
    }
    match word.parse::<u64>() {
        Ok(number) => Ok(number),
        Err(_) => Err(CaseFault::Form),
    }
}

/// The numbers of a text, one blank between them.
pub fn numbers_of(alloc: Global, text: &str) -> Result<Vec<u64>, CaseFault> {
    let mut numbers = Vec::new(alloc);
    for word in text.split(' ') {
        numbers.push(number_of(word)?)?;
    }
    Ok(numbers)
}
