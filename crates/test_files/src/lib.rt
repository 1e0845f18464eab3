//! What programs that run cases as data share: the files of the folder that they run in, the cases of a file, and the report on
//! them. A file of cases is a text in which each case begins with a line `case NAME`.
#![tactic(auto)]

pub mod blocks;
pub mod names;
mod report;

pub use report::Report;
