//! Runs the cases of a file: whole runs of the program over objects in memory, and calls of single layers.
#![tactic(auto)]

mod answer;
mod call;
mod called;
mod case;
mod definitions;
mod direct;
mod evaluation;
mod model;
mod reader;
mod refusal;
mod report;
mod run;
mod slow_source;
mod stop;
mod table;
mod term;
mod tokens;
mod tree;
mod value;

use case::{Case, bad_line, case_of, result_of};
use std::alloc::Global;
use std::io;
use std::io::{Read, Write};
use std::process::ExitCode;
use stop::Stop;
use txs_case::{CaseFault, Lines, Reader};

/// The result of the case of these lines.
fn run_case(alloc: Global, lines: &Lines) -> Result<String, Stop> {
    let case = case_of(alloc, lines)?;
    Ok(result_of(alloc, &lines.name, case)?)
}

/// Why reading stops at a line that is not of the form.
fn stop_of(alloc: Global, reader: &mut Reader, fault: CaseFault) -> Stop {
    let number = reader.number();
    match fault {
        CaseFault::NoMemory => Stop::NoMemory,
        CaseFault::Form => match reader.left() {
            Some(lines) => bad_line(alloc, &lines, number),
            None => Stop::BadLine(number),
        },
    }
}

/// Runs the cases of a file in order, and answers why it stopped before the end, if it did.
fn run_cases(alloc: Global, out: &mut impl Write, file: &[u8]) -> io::Result<Option<Stop>> {
    let mut reader = Reader::new(alloc);
    for line in file.split_inclusive(|byte| *byte == b'\n') {
        match reader.take(line) {
            Ok(None) => {}
            Ok(Some(lines)) => match run_case(alloc, &lines) {
                Ok(result) => out.write_all(result.as_bytes())?,
                Err(stop) => return Ok(Some(stop)),
            },
            Err(fault) => return Ok(Some(stop_of(alloc, &mut reader, fault))),
        }
    }
    Ok(left_over(alloc, &mut reader))
}

/// Why a file whose last case has no end is not of the form.
fn left_over(alloc: Global, reader: &mut Reader) -> Option<Stop> {
    let number = reader.number().saturating_add(1);
    match reader.left() {
        Some(lines) => Some(bad_line(alloc, &lines, number)),
        None => None,
    }
}

fn main(rt: HostRuntime) -> io::Result<ExitCode> {
    let alloc = rt.alloc();
    let mut file = Vec::new(alloc);
    rt.reader().read_to_end(&mut file)?;
    let mut out = io::writer(&rt);
    match run_cases(alloc, &mut out, file.as_slice())? {
        None => return Ok(ExitCode::SUCCESS),
        Some(Stop::BadLine(number)) => println!(rt; "bad case {number}")?,
        Some(Stop::NoMemory) => println!(rt; "out of memory")?,
    }
    Ok(ExitCode::FAILURE)
}
