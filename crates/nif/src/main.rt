//! `nif`: the words after the program's name are a command, which `nif_tool` runs over the system's files and
//! standard output; its status is the exit status. Words that are no UTF-8 are answered as no words at all. It promises
//! nothing itself: what a command does is said by the contract of `nif_tool::run`.
#![tactic(auto)]

use nif_tool::{Fault, RealShelf, Report, WriterSink, refuse, run};
use std::env;
use std::process::ExitCode;

fn main(rt: HostRuntime) -> ExitCode {
    let mut out = WriterSink::new(rt.stdout());
    let mut words = Vec::new(rt.alloc());
    if let Ok(all) = env::args(&rt) {
        for word in all.skip(1) {
            if words.push(word).is_err() {
                let report = Report::of(refuse(Fault::NoMemory, &mut out));
                return ExitCode::from(report.status as u8);
            }
        }
    }
    let mut shelf = RealShelf::new(&rt);
    let report = run(rt.alloc(), words.as_slice(), &mut shelf, &mut out);
    ExitCode::from(report.status as u8)
}
