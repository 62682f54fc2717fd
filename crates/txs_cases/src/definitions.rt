use crate::called::has_names;
use crate::reader::file_of;
use crate::refusal::Refusal;
use std::alloc::Global;
use txs_terms::Defs;
use txs_types::type_defs;

/// The definitions of a text.
pub fn definitions_of(alloc: Global, text: &[u8]) -> Result<Defs, Refusal> {
    let file = file_of(alloc, text)?;
    if !has_names(&file) {
        return Err(Refusal::Unread);
    }
    Ok(type_defs(alloc, &file)?)
}
