//! Trials of instruction text: public calls alone, each call once with memory, and the pairs and places that come from
//! outside.
#![tactic(auto)]

#[cfg(test)]
mod tests;
