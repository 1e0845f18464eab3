//! Trials of threads that meet: futures that are set once, posts over a line, machines that ask a service, and machines that start
//! machines.
//!
//! They stand apart from the crates that they try: none of these is proved again with them.
#![tactic(auto)]

#[cfg(test)]
mod tests;
