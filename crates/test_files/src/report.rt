//! What is told of the cases of a file.

ghost use Rattle.std.specs.Prelude.{◌≡◌, ◌+◌, ◌==◌, ◌++◌, ◌∷◌, [], min, is_none, if◌then◌else◌, IfSome, OnOk, MatchOption, codes, string_bytes};

use std::alloc::{AllocError, Global};
use std::fmt::{Display, Write};

/// How many cases there are and how many passed, and a line for each that differs, with a line feed before it.
#[derive(Debug, Drop)]
pub struct Report {
    pub all: usize,
    pub passed: usize,
    pub differences: String,
}

impl Report {
    /// Makes the report on no case.
    pub fn new(alloc: Global) -> Report
        ensures all { result.all ≡ 0 }
        ensures passed { result.passed ≡ 0 }
        ensures differences { string_bytes result.differences ≡ [] }
    {
        Report {
            all: 0,
            passed: 0,
            differences: String::new(alloc),
        }
    }

    /// Returns whether no case differs.
    pub fn is_same(&self) -> bool
        ensures { result ≡ (self.now.passed == self.now.all) }
    {
        self.passed == self.all
    }

    /// Notes what differs in the case of this name, where something does.
    pub fn note<D: Display>(&mut self, name: &str, difference: Option<&D>) -> Result<(), AllocError>
        ensures all { self.new.all ≡ min (self.old.all + 1) usize.MAX }
        ensures passed { self.new.passed ≡ (if is_none difference.entry then min (self.old.passed + 1) usize.MAX else self.old.passed) }
        ensures told { MatchOption difference.entry (self.new.differences ≡ self.old.differences)
            (λ d. OnOk result (IfSome (D.output d.now) (λ text. string_bytes self.new.differences
            ≡ string_bytes self.old.differences ++ (10 ∷ codes "  case ") ++ name.now ++ codes ": " ++ text))) }
    {
        self.all = self.all.saturating_add(1);
        match difference {
            None => {
                self.passed = self.passed.saturating_add(1);
                Ok(())
            }
            Some(difference) => write!(&mut self.differences, "\n  case {name}: {difference}"),
        }
    }
}
