//! Runs cases of requests, for the program `examples`, whose `data/REQUESTS.md` says how a case is written: a core takes the requests
//! of each one after the other, and each reply is compared with the one that is wanted.
#![tactic(auto)]

mod asking;
mod counted_words;
mod directing;
mod loading;
mod session;
mod spell_fault;
mod spelling;
mod telling;

use session::run_requests;
use std::alloc::{AllocError, Global};
use test_files::{Report, blocks};

/// Runs each case in a text, and returns the report on them.
pub fn run_text(alloc: Global, text: &[u8]) -> Result<Report, AllocError> {
    let mut report = Report::new(alloc);
    let starts = blocks::starts(alloc, text)?;
    for place in 0..starts.len() {
        let block = blocks::block(text, starts.as_slice(), place);
        let difference = run_requests(alloc, block)?;
        report.note(blocks::name_of(block), difference.as_ref())?;
    }
    Ok(report)
}
