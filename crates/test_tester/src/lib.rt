//! Trials of the top call: whole runs, each beside what it must write and how it must end.
//!
//! They call `tester` and nothing else of tester_run, so they stand apart from it: its own functions aren't proved again with them.
#![tactic(auto)]

#[cfg(test)]
mod tests;
