//! Lines on err: the name of the program, a text, and a line feed.
//!
//! `specs/Told.antt` says what a line on err is, and how it comes to stand behind what err held: whole, or a front of it where err
//! has counted a fault. A failure of err is told nowhere.
#![tactic(auto)]

mod limit;
mod telling;

pub use limit::limit_line;
pub use telling::tell;
