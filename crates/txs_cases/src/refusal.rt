use std::alloc::{AllocError, AllocFailed, Global};
use std::fmt::Write;
use txs_case::CaseFault;
use txs_eval::EvalFault;
use txs_lexer::LexFault;
use txs_parse_expr::ParseFault;
use txs_types::TypeFault;
use txs_values::{NoMemory, ReadValueFault};
use txs_words::LoadFault;

/// Why a call has no other answer.
#[derive(Clone, Copy, Drop)]
pub enum Refusal {
    /// What the case gives is none of what the call takes.
    Unread,
    NoMemory,
    Value(ReadValueFault),
    Tokens(LexFault),
    Tree(ParseFault),
    Types(TypeFault),
    Evaluation(EvalFault),
    Load(LoadFault),
}

impl From<NoMemory> for Refusal {
    fn from(_e: NoMemory) -> Refusal {
        Refusal::NoMemory
    }
}

impl From<AllocError> for Refusal {
    fn from(_e: AllocError) -> Refusal {
        Refusal::NoMemory
    }
}

impl<T: Drop> From<AllocFailed<T>> for Refusal {
    fn from(_e: AllocFailed<T>) -> Refusal {
        Refusal::NoMemory
    }
}

impl From<CaseFault> for Refusal {
    fn from(fault: CaseFault) -> Refusal {
        match fault {
            CaseFault::Form => Refusal::Unread,
            CaseFault::NoMemory => Refusal::NoMemory,
        }
    }
}

impl From<ReadValueFault> for Refusal {
    fn from(fault: ReadValueFault) -> Refusal {
        Refusal::Value(fault)
    }
}

impl From<LexFault> for Refusal {
    fn from(fault: LexFault) -> Refusal {
        Refusal::Tokens(fault)
    }
}

impl From<ParseFault> for Refusal {
    fn from(fault: ParseFault) -> Refusal {
        Refusal::Tree(fault)
    }
}

impl From<TypeFault> for Refusal {
    fn from(fault: TypeFault) -> Refusal {
        Refusal::Types(fault)
    }
}

impl From<EvalFault> for Refusal {
    fn from(fault: EvalFault) -> Refusal {
        Refusal::Evaluation(fault)
    }
}

impl From<LoadFault> for Refusal {
    fn from(fault: LoadFault) -> Refusal {
        Refusal::Load(fault)
    }
}

/// The line that says why. Want of memory has none.
pub fn refusal_line(alloc: Global, refusal: Refusal) -> Result<String, NoMemory> {
    match refusal {
        Refusal::Unread => said(alloc, "unread"),
        Refusal::NoMemory => Err(NoMemory),
        Refusal::Value(fault) => of_value(alloc, fault),
        Refusal::Tokens(fault) => of_tokens(alloc, fault),
        Refusal::Tree(fault) => of_tree(alloc, fault),
        Refusal::Types(fault) => of_types(alloc, fault),
        Refusal::Evaluation(fault) => of_evaluation(alloc, fault),
        Refusal::Load(LoadFault::Later) => refused(alloc, "Later", 0),
        Refusal::Load(LoadFault::NoMemory) => Err(NoMemory),
    }
}

/// A line of this text.
fn said(alloc: Global, text: &str) -> Result<String, NoMemory> {
    let mut line = String::from_str(alloc, text)?;
    line.push('\n')?;
    Ok(line)
}

/// The line of a refusal with its place.
fn refused(alloc: Global, word: &str, at: usize) -> Result<String, NoMemory> {
    let mut line = String::new(alloc);
    writeln!(line, "REFUSED {word} {at}")?;
    Ok(line)
}

fn of_value(alloc: Global, fault: ReadValueFault) -> Result<String, NoMemory> {
    match fault {
        ReadValueFault::NotText => said(alloc, "REFUSED NotText"),
        ReadValueFault::WrongForm { at } => refused(alloc, "WrongForm", at),
        ReadValueFault::Range { at } => refused(alloc, "Range", at),
        ReadValueFault::TooDeep { at } => refused(alloc, "TooDeep", at),
        ReadValueFault::TooBig => said(alloc, "REFUSED TooBig"),
        ReadValueFault::NoMemory => Err(NoMemory),
    }
}

fn of_tokens(alloc: Global, fault: LexFault) -> Result<String, NoMemory> {
    match fault {
        LexFault::TooLong => said(alloc, "REFUSED TooLong"),
        LexFault::NotUtf8 { at } => refused(alloc, "NotUtf8", at),
        LexFault::BadChar { at } => refused(alloc, "BadChar", at),
        LexFault::OpenText { at } => refused(alloc, "OpenText", at),
        LexFault::OpenComment { at } => refused(alloc, "OpenComment", at),
        LexFault::Number { at } => refused(alloc, "Number", at),
        LexFault::NoMemory => Err(NoMemory),
    }
}

fn of_tree(alloc: Global, fault: ParseFault) -> Result<String, NoMemory> {
    match fault {
        ParseFault::Unexpected { at } => refused(alloc, "Parse", at),
        ParseFault::Deep { at } => refused(alloc, "Deep", at),
        ParseFault::NoMemory => Err(NoMemory),
    }
}

fn of_types(alloc: Global, fault: TypeFault) -> Result<String, NoMemory> {
    match fault {
        TypeFault::Twice { at } => refused(alloc, "Twice", at),
        TypeFault::Unknown { at } => refused(alloc, "Unknown", at),
        TypeFault::Arity { at } => refused(alloc, "Arity", at),
        TypeFault::Mismatch { at } => refused(alloc, "Mismatch", at),
        TypeFault::EmptyType { at } => refused(alloc, "EmptyType", at),
        TypeFault::BigType { at } => refused(alloc, "BigType", at),
        TypeFault::NoMemory => Err(NoMemory),
    }
}

fn of_evaluation(alloc: Global, fault: EvalFault) -> Result<String, NoMemory> {
    match fault {
        EvalFault::Division => said(alloc, "FAULT Division"),
        EvalFault::Range => said(alloc, "FAULT Range"),
        EvalFault::Selector => said(alloc, "FAULT Selector"),
        EvalFault::Form => said(alloc, "FAULT Form"),
        EvalFault::High => said(alloc, "FAULT High"),
        EvalFault::Long => said(alloc, "FAULT Long"),
        EvalFault::Size => said(alloc, "FAULT Size"),
        EvalFault::NoMemory => Err(NoMemory),
    }
}
