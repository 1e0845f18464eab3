//! The pairs that are loaded.

ghost use Rattle.std.specs.Prelude.{◌≡◌, ◌≤◌, ◌∷◌, [], ◌++◌, ℕ, List, OnOk, IfOk, pos};
ghost use Rattle.std.specs.List.{AllByRecursion};
ghost use Rattle.model_lines.specs.Inputs.{IsSmall};
ghost use Rattle.fdb_tuple.specs.declared.tuple.Elem.TheVariants.{Bytes as BytesElem};
ghost use Rattle.fdb_tuple.specs.Listed.{tuple_of};
ghost use Rattle.fdb_tuple.specs.Spelling.{spelling};
ghost use Rattle.generator.specs.Generated.{placed, instruction_key, gen_pairs, worker_pairs, busy_pairs};

use crate::names::{busy_key, worker_prefix};
use crate::worker::{main_script, worker_script};
use fdb_tuple::{Elem, pack_element, pack_element_into};
use key_bytes::{Bytes, Pair, Pairs};
use std::alloc::{AllocError, Global};

/// Makes what a run of main and `count` workers loads: the packed instructions of main under `g`, those of each
/// worker w from 1 on under `w` and its number, and for each worker the key `busy` and its number, with an
/// empty value; in this order. An input may have these pairs where there are at most 30 workers. It is refused
/// for want of memory alone.
pub fn gen_pairs(alloc: Global, count: u32) -> Result<Pairs, AllocError>
    ensures made { IfOk result (λ pairs. pairs ≡ gen_pairs count) }
    ensures small { IfOk result (λ pairs. count ≤ 30 → AllByRecursion IsSmall pairs) }
{
    let pairs = all_pairs(alloc, count)?;
    Ok(pairs)
}

// The same, of any number of workers.
fn all_pairs(alloc: Global, count: u32) -> Result<Pairs, AllocError>
    ensures { IfOk result (λ pairs. pairs ≡ gen_pairs count) }
{
    let mut pairs = Pairs::new(alloc);
    let main = Bytes::from_slice(alloc, b"g")?;
    place(
        &mut pairs,
        alloc,
        &main,
        main_script(alloc, count)?.as_slice(),
    )?;
    add_workers(&mut pairs, alloc, count)?;
    add_busy_keys(&mut pairs, alloc, count)?;
    Ok(pairs)
}

// Adds the instructions of workers 1 to `count`.
fn add_workers(pairs: &mut Pairs, alloc: Global, count: u32) -> Result<(), AllocError>
    ensures { OnOk result (pairs.new ≡ pairs.old ++ worker_pairs count) }
{
    for before in 0..count {
        let prefix = worker_prefix(alloc, before + 1)?.into_bytes();
        place(
            pairs,
            alloc,
            &prefix,
            worker_script(alloc, before + 1)?.as_slice(),
        )?;
    }
    Ok(())
}

// Adds the keys that main waits for.
fn add_busy_keys(pairs: &mut Pairs, alloc: Global, count: u32) -> Result<(), AllocError>
    ensures { OnOk result (pairs.new ≡ pairs.old ++ busy_pairs count) }
{
    for before in 0..count {
        pairs.push(Pair {
            key: busy_key(alloc, before + 1)?,
            value: Bytes::new(alloc),
        })?;
    }
    Ok(())
}

// Adds packed instructions under a prefix.
fn place(
    pairs: &mut Pairs,
    alloc: Global,
    prefix: &Bytes,
    script: &[Bytes],
) -> Result<(), AllocError>
    ensures { OnOk result (pairs.new ≡ pairs.old ++ placed prefix.now 0 script.now) }
{
    let begin = packed_prefix(alloc, prefix)?;
    let mut scratch = Vec::new(alloc);
    for at in 0..script.len() {
        pairs.push(Pair {
            key: instruction_key(alloc, &mut scratch, &begin, at)?,
            value: script[at].copy()?,
        })?;
    }
    Ok(())
}

// What the keys under a prefix begin with.
fn packed_prefix(alloc: Global, prefix: &Bytes) -> Result<Bytes, AllocError>
    ensures { IfOk result (λ begin. begin ≡ spelling (tuple_of (BytesElem prefix.now ∷ []))) }
{
    pack_element(alloc, &Elem::Bytes(prefix.copy()?))
}

// The key of an instruction under a prefix, which is packed already. It is packed in `scratch`.
fn instruction_key(
    alloc: Global,
    scratch: &mut Vec<u8>,
    begin: &Bytes,
    place: usize,
) -> Result<Bytes, AllocError>
    ensures { IfOk result (λ key. (prefix : List ℕ) → begin.now ≡ spelling (tuple_of (BytesElem prefix ∷ []))
        → key ≡ instruction_key prefix place) }
{
    scratch.clear();
    scratch.extend_from_slice(begin.as_slice())?;
    pack_element_into(scratch, &Elem::Int(place as i128))?;
    Bytes::from_slice(alloc, scratch.as_slice())
}
