use crate::direct::{Direct, direct_of, is_direct};
use crate::run::{Run, run_of};
use crate::stop::Stop;
use crate::{answer, report};
use std::alloc::Global;
use txs_case::Lines;
use txs_values::{NoMemory, Text};

/// A case: a whole run, or a call of one layer.
#[derive(Drop)]
pub enum Case {
    Run(Run),
    Direct(Direct),
}

/// The case that these lines are.
pub fn case_of(alloc: Global, lines: &Lines) -> Result<Case, Stop> {
    let entries = lines.entries.as_slice();
    if is_direct(entries) {
        let direct = direct_of(alloc, entries, lines.end)?;
        return Ok(Case::Direct(direct));
    }
    let run = run_of(alloc, entries)?;
    Ok(Case::Run(run))
}

/// The first bad line of a case that is cut off at this line, which is bad itself.
pub fn bad_line(alloc: Global, lines: &Lines, number: u64) -> Stop {
    match case_of(alloc, lines) {
        Err(Stop::BadLine(first)) => Stop::BadLine(first.min(number)),
        Err(Stop::NoMemory) => Stop::NoMemory,
        Ok(_) => Stop::BadLine(number),
    }
}

/// What comes of a case.
pub fn result_of(alloc: Global, name: &Text, case: Case) -> Result<String, NoMemory> {
    match case {
        Case::Run(run) => report::result_of(alloc, name, run),
        Case::Direct(direct) => answer::result_of(alloc, name, &direct),
    }
}
