ghost use Rattle.std.specs.Prelude.{◌≡◌, IsTrue};
ghost use Rattle.std.specs.List.{list_all};
ghost use Rattle.txs_values.specs.Spelling as spelling;
ghost use Rattle.txs_types.specs.Files.{FileHasNames};
ghost use Rattle.txs_cases.specs.Called as spec;

use txs_syntax::{ConDef, Def, File};

fn is_letter(byte: u8) -> bool
    ensures { result ≡ spelling.is_letter byte }
{
    (b'A' <= byte && byte <= b'Z') || (b'a' <= byte && byte <= b'z')
}

fn is_name_byte(byte: u8) -> bool
    ensures { result ≡ spelling.is_name_byte byte }
{
    is_letter(byte) || (b'0' <= byte && byte <= b'9') || byte == b'_'
}

fn are_name_bytes(bytes: &[u8]) -> bool
    ensures { result ≡ list_all spelling.is_name_byte bytes.now }
{
    bytes.iter().all(|byte| is_name_byte(*byte))
}

fn is_name(bytes: &[u8]) -> bool
    ensures { result ≡ spec.is_name bytes.now }
{
    match bytes {
        [first, rest @ ..] => is_letter(*first) && are_name_bytes(rest),
        [] => false,
    }
}

fn are_called_by_names(constructors: &[ConDef]) -> bool
    ensures { result ≡ list_all spec.is_called_by_name constructors.now }
{
    constructors
        .iter()
        .all(|constructor| is_name(constructor.name.text.as_bytes()))
}

fn definition_has_names(def: &Def) -> bool
    ensures { result ≡ spec.has_names def.now }
{
    match def {
        Def::TypeDef { constructors, .. } => are_called_by_names(constructors.as_slice()),
        Def::FuncDef { .. } => true,
        Def::ConstDef { .. } => true,
    }
}

fn have_names(defs: &[Def]) -> bool
    ensures { result ≡ list_all spec.has_names defs.now }
{
    defs.iter().all(|def| definition_has_names(def))
}

/// Whether each constructor of a file is called by a name.
pub fn has_names(file: &File) -> bool
    ensures { IsTrue result → FileHasNames file.now }
{
    have_names(file.defs.as_slice())
}
