//! Cases: lines of words over files in memory, with what they come to. The words of this program name files of cases,
//! which are gone through in their order; `data/known.cases` says at its head how a file of cases is written. Each case
//! that differs is printed, with what was wanted and what came, and for each file how many cases it has and how many
//! differ. It promises nothing: what a command does is said by the contract of `nif_tool::run`, and these cases show
//! that the definitions there mean what the format means.
#![tactic(auto)]

mod bytes;
mod cases;
mod faults;
mod reading;
mod running;
mod showing;

use anyhow::{Result, ensure};
use cases::Case;
use faults::Trouble;
use reading::Reader;
use running::holds;
use std::alloc::Global;
use std::rt::Files;
use std::{env, fs};

/// How many cases there are, and how many of them differ.
#[derive(Drop, Clone, Copy)]
struct Counts {
    cases: u64,
    differing: u64,
}

/// Runs a case, if there is one, and counts it.
fn count(
    alloc: Global,
    case: Option<Case>,
    counts: &mut Counts,
    report: &mut String,
) -> Result<(), Trouble> {
    let Some(case) = case else {
        return Ok(());
    };
    counts.cases = counts.cases.saturating_add(1);
    if !holds(alloc, &case, report)? {
        counts.differing = counts.differing.saturating_add(1);
    }
    Ok(())
}

/// Goes through the lines of a file of cases. The number of the line is the last that was read.
fn go_through(
    alloc: Global,
    reader: &mut Reader,
    text: &str,
    line_number: &mut u64,
    report: &mut String,
) -> Result<Counts, Trouble> {
    let mut counts = Counts {
        cases: 0,
        differing: 0,
    };
    for line in text.lines() {
        *line_number = line_number.saturating_add(1);
        let ended = reader.take(line)?;
        count(alloc, ended, &mut counts, report)?;
    }
    let ended = reader.finish()?;
    count(alloc, ended, &mut counts, report)?;
    Ok(counts)
}

/// Goes through a file of cases, prints what differs and the counts, and says how many cases differ.
fn go_through_file<R: Files + AllocGlobal + Print>(
    rt: &R,
    reader: &mut Reader,
    name: &str,
) -> Result<u64> {
    let text = fs::read_to_string(rt, name)?;
    let mut report = String::new(rt.alloc());
    let mut line_number = 0u64;
    let answer = go_through(
        rt.alloc(),
        reader,
        text.as_str(),
        &mut line_number,
        &mut report,
    );
    rt.print(report.as_str())?;
    match answer {
        Ok(counts) => {
            let Counts { cases, differing } = counts;
            println!(rt; "{name}: {cases} cases, {differing} differ")?;
            Ok(differing)
        }
        Err(trouble) => {
            println!(rt; "{name}: {trouble} at line {line_number}")?;
            Ok(1)
        }
    }
}

fn main(rt: HostRuntime) -> Result<()> {
    let mut reader = Reader::new(rt.alloc())?;
    let mut differing = 0u64;
    for name in env::args(&rt)?.skip(1) {
        let more = go_through_file(&rt, &mut reader, name.as_str())?;
        differing = differing.saturating_add(more);
    }
    ensure!(differing == 0, "{differing} differ");
    Ok(())
}
