//! Trials of `serve`: frames that were spelled by hand after the tables of the tuple layer, and what comes of a bad one and of a source
//! or a sink that fails.
#![tactic(auto)]

#[cfg(test)]
mod tests;
