//! The write conflict ranges of a commit, and its versionstamp.

ghost use Rattle.std.specs.Prelude.{◌≡◌, ◌++◌, zip, OnOk, IfOk};
ghost use Rattle.model_database.specs.Histories.{write_range, stamp_of};
ghost use Rattle.txn_parts.specs.WriteConflicts.{write_conflicts_among};
ghost use Rattle.write_map.specs.Mutations.{mutation_of, mutations_of};

use byteorder::{BigEndian, ByteOrder};
use conflict_ranges::RangeSet;
use key_bytes::KeyRange;
use std::alloc::AllocError;
use write_map::Mutation;

// The batch of each commit, since a version is that of one commit alone.
const BATCH: u16 = 0;

/// Returns the versionstamp of the commit that makes a version: the version, and the batch.
#[tactic(auto, using(model_database::proofs::Stamps::stamp_is))]
pub fn stamp_of(version: u64) -> [u8; 10]
    ensures { result ≡ stamp_of version }
{
    let mut stamp = [0; 10];
    BigEndian::write_u64(&mut stamp[..8], version);
    BigEndian::write_u16(&mut stamp[8..], BATCH);
    stamp
}

// The keys that a mutation writes.
fn written(mutation: &Mutation) -> Result<KeyRange, AllocError>
    ensures { IfOk result (λ range. range ≡ write_range (mutation_of mutation.now)) }
{
    match mutation {
        Mutation::Set { key, .. } | Mutation::Clear { key } | Mutation::Atomic { key, .. } => {
            KeyRange::single(key.allocator(), key)
        }
        Mutation::ClearRange { range } => {
            let begin = range.begin.copy()?;
            let end = range.end.copy()?;
            Ok(KeyRange { begin, end })
        }
    }
}

/// Adds the write conflict ranges of those of the mutations that have one.
pub fn push_written(
    ranges: &mut Vec<KeyRange>,
    mutations: &[Mutation],
    adds_conflict: &[bool],
) -> Result<(), AllocError>
    ensures { OnOk result (ranges.new.items ≡ ranges.old.items ++ write_conflicts_among (mutations_of mutations.now) adds_conflict.now) }
{
    for (mutation, adds_conflict) in mutations.iter().zip(adds_conflict) {
        if *adds_conflict {
            ranges.push(written(mutation)?)?;
        }
    }
    Ok(())
}

/// Adds the ranges of a set.
pub fn push_ranges(ranges: &mut Vec<KeyRange>, set: &RangeSet) -> Result<(), AllocError>
    ensures { OnOk result (ranges.new.items ≡ ranges.old.items ++ set.now) }
{
    for (begin, end) in set.ranges() {
        let begin = begin.copy()?;
        let end = end.copy()?;
        ranges.push(KeyRange { begin, end })?;
    }
    Ok(())
}
