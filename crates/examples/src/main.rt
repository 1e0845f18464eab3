//! Runs the cases of `data/`, and compares what each gives with what it wants: `README.md` there says how a case of the program is
//! written, `REQUESTS.md` how one of requests for the database alone. A line is printed for each file of cases: how many passed. One
//! more is printed for each case that differs, and the program ends with status 1 where one does.
#![tactic(auto)]

mod case;
mod running;

use running::run_case;
use std::alloc::AllocError;
use std::process::ExitCode;
use std::rt::Files;
use std::sync::Wait;
use std::thread::Threads;
use std::{fs, io};
use test_files::{Report, blocks, names};

fn main(rt: HostRuntime) -> io::Result<ExitCode> {
    let are_same = run_scripts(&rt)? & run_requests(&rt)?;
    Ok(ExitCode::from(if are_same { 0 } else { 1 }))
}

// Runs each file of cases of the program, and returns whether none differs.
fn run_scripts<
    R: Files + Print + Threads + Wait + Sync + AllocGlobal + Clone + Drop + Send + 'static,
>(rt: &R) -> io::Result<bool> {
    let mut are_same = true;
    let files = names::ending_with(rt, ".cases")?;
    for file in files.iter() {
        let text = fs::read(rt, file.as_str())?;
        let report = run_cases(rt, text.as_slice())?;
        are_same = are_same && report.is_same();
        print(rt, file.as_str(), &report)?;
    }
    Ok(are_same)
}

// Runs each file of cases of requests, and returns whether none differs.
fn run_requests<R: Files + Print + AllocGlobal + Clone + Drop>(rt: &R) -> io::Result<bool> {
    let mut are_same = true;
    let files = names::ending_with(rt, ".requests")?;
    for file in files.iter() {
        let text = fs::read(rt, file.as_str())?;
        let report = test_requests::run_text(rt.alloc(), text.as_slice())?;
        are_same = are_same && report.is_same();
        print(rt, file.as_str(), &report)?;
    }
    Ok(are_same)
}

fn print(rt: &impl Print, name: &str, report: &Report) -> io::Result<()> {
    let (passed, all) = (report.passed, report.all);
    println!(rt;
        "{name}: {passed} of {all} passed{}",
        report.differences.as_str()
    )
}

// Runs each case in a text.
fn run_cases<R: Files + Threads + Wait + Sync + AllocGlobal + Clone + Drop + Send + 'static>(
    rt: &R,
    text: &[u8],
) -> Result<Report, AllocError> {
    let mut report = Report::new(rt.alloc());
    let starts = blocks::starts(rt.alloc(), text)?;
    for place in 0..starts.len() {
        let block = blocks::block(text, starts.as_slice(), place);
        let difference = run_case(rt, block)?;
        report.note(blocks::name_of(block), difference.as_ref())?;
    }
    Ok(report)
}
