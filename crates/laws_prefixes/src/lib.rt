//! What holds of the numbers that allocators grant, in every history that requests leave: those that one allocator granted in
//! transactions that committed are distinct, and no packed one begins with another.
//!
//! It is so under a premise on the allocator's subspace: every write past the first commit that touches one of its keys was made
//! by a call of the allocator on it that granted a number (`specs/Prefixes.antt`). Calls of directory layers call the allocator. It is a
//! law of the definitions, proved once: for any requests, and for the runs of machines.
#![tactic(auto)]

ghost use Rattle.laws_prefixes.specs.Prefixes.{ArePrefixesApart, RunsArePrefixesApart};

/// Shows to a proof that the numbers which an allocator granted in transactions that committed are apart. It
/// does nothing when it runs.
pub fn prefixes_are_apart()
    ensures requests { ArePrefixesApart }
    ensures runs { RunsArePrefixesApart }
{}
