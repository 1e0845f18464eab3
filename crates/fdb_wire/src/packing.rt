//! Elements behind bytes, as they are packed.

ghost use Rattle.std.specs.Prelude.{◌≡◌, [], ◌∷◌, ◌++◌, flat_map, OnOk};
ghost use Rattle.fdb_tuple.specs.declared.tuple.Elem.TheVariants as elem;
ghost use Rattle.fdb_wire.specs.Elements.{packed, count, optional, pair_elements, path_elements, range_elements, selector_elements, options_elements, mode_number};

use directory_types::Path;
use fdb_tuple::{Elem, Text, pack_element_into};
use key_bytes::{Bytes, KeyRange, Pair, Pairs};
use model_database::{Mode, RangeOptions, Selector};
use std::alloc::AllocError;

#[tactic(auto, unfolding(crate::specs::Elements::packed))]
fn add(to: &mut Vec<u8>, element: &Elem) -> Result<(), AllocError>
    ensures { OnOk result (to.new.items ≡ to.old.items ++ packed (element.now ∷ [])) }
{
    pack_element_into(to, element)
}

pub(crate) fn add_bytes(to: &mut Vec<u8>, bytes: &Bytes) -> Result<(), AllocError>
    ensures { OnOk result (to.new.items ≡ to.old.items ++ packed (elem.Bytes bytes.now ∷ [])) }
{
    add(to, &Elem::Bytes(bytes.copy()?))
}

// Adds bytes that are few, so that a copy of them takes no memory.
pub(crate) fn add_slice(to: &mut Vec<u8>, bytes: &[u8]) -> Result<(), AllocError>
    ensures { OnOk result (to.new.items ≡ to.old.items ++ packed (elem.Bytes bytes.now ∷ [])) }
{
    let bytes = Bytes::from_slice(*to.allocator(), bytes)?;
    add(to, &Elem::Bytes(bytes))
}

pub(crate) fn add_int(to: &mut Vec<u8>, number: i128) -> Result<(), AllocError>
    ensures { OnOk result (to.new.items ≡ to.old.items ++ packed (elem.Int number ∷ [])) }
{
    add(to, &Elem::Int(number))
}

pub(crate) fn add_count(to: &mut Vec<u8>, number: u64) -> Result<(), AllocError>
    ensures { OnOk result (to.new.items ≡ to.old.items ++ packed (count number ∷ [])) }
{
    add_int(to, i128::from(number))
}

pub(crate) fn add_flag(to: &mut Vec<u8>, flag: bool) -> Result<(), AllocError>
    ensures { OnOk result (to.new.items ≡ to.old.items ++ packed (elem.Bool flag ∷ [])) }
{
    add(to, &Elem::Bool(flag))
}

pub(crate) fn add_optional(to: &mut Vec<u8>, bytes: &Option<Bytes>) -> Result<(), AllocError>
    ensures { OnOk result (to.new.items ≡ to.old.items ++ packed (optional bytes.now ∷ [])) }
{
    match bytes {
        None => add(to, &Elem::Null),
        Some(bytes) => add_bytes(to, bytes),
    }
}

pub(crate) fn add_range(to: &mut Vec<u8>, range: &KeyRange) -> Result<(), AllocError>
    ensures { OnOk result (to.new.items ≡ to.old.items ++ packed (range_elements range.now)) }
{
    add_bytes(to, &range.begin)?;
    add_bytes(to, &range.end)
}

fn add_i32(to: &mut Vec<u8>, number: &i32) -> Result<(), AllocError>
    ensures { OnOk result (to.new.items ≡ to.old.items ++ packed (elem.Int number.now ∷ [])) }
{
    add(to, &Elem::Int(*number as i128))
}

pub(crate) fn add_i64(to: &mut Vec<u8>, number: &i64) -> Result<(), AllocError>
    ensures { OnOk result (to.new.items ≡ to.old.items ++ packed (elem.Int number.now ∷ [])) }
{
    add(to, &Elem::Int(*number as i128))
}

pub(crate) fn add_u16(to: &mut Vec<u8>, number: u16) -> Result<(), AllocError>
    ensures { OnOk result (to.new.items ≡ to.old.items ++ packed (count number ∷ [])) }
{
    add_count(to, u64::from(number))
}

pub(crate) fn add_u32(to: &mut Vec<u8>, number: u32) -> Result<(), AllocError>
    ensures { OnOk result (to.new.items ≡ to.old.items ++ packed (count number ∷ [])) }
{
    add_count(to, u64::from(number))
}

pub(crate) fn add_selector(to: &mut Vec<u8>, selector: &Selector) -> Result<(), AllocError>
    ensures { OnOk result (to.new.items ≡ to.old.items ++ packed (selector_elements selector.now)) }
{
    add_bytes(to, &selector.key)?;
    add_flag(to, selector.or_equal)?;
    add_i32(to, &selector.offset)
}

fn mode_number(mode: Mode) -> i128
    ensures { result ≡ mode_number mode }
{
    match mode {
        Mode::WantAll => -2,
        Mode::Iterator => -1,
        Mode::Exact => 0,
        Mode::Small => 1,
        Mode::Medium => 2,
        Mode::Large => 3,
        Mode::Serial => 4,
    }
}

fn add_mode(to: &mut Vec<u8>, mode: Mode) -> Result<(), AllocError>
    ensures { OnOk result (to.new.items ≡ to.old.items ++ packed (elem.Int (mode_number mode) ∷ [])) }
{
    add(to, &Elem::Int(mode_number(mode)))
}

pub(crate) fn add_options(to: &mut Vec<u8>, options: RangeOptions) -> Result<(), AllocError>
    ensures { OnOk result (to.new.items ≡ to.old.items ++ packed (options_elements options)) }
{
    add_u32(to, options.limit)?;
    add_flag(to, options.reverse)?;
    add_mode(to, options.mode)
}

fn add_pair(to: &mut Vec<u8>, pair: &Pair) -> Result<(), AllocError>
    ensures { OnOk result (to.new.items ≡ to.old.items ++ packed (elem.Bytes pair.now.key ∷ elem.Bytes pair.now.value ∷ [])) }
{
    add_bytes(to, &pair.key)?;
    add_bytes(to, &pair.value)
}

fn add_each_pair(to: &mut Vec<u8>, pairs: &[Pair]) -> Result<(), AllocError>
    ensures { OnOk result (to.new.items ≡ to.old.items ++ flat_map (λ pair. packed (elem.Bytes pair.key ∷ elem.Bytes pair.value ∷ [])) pairs.now) }
{
    for pair in pairs {
        add_pair(to, pair)?;
    }
    Ok(())
}

#[tactic(auto, using(crate::proofs::Packed::packed_pairs))]
pub(crate) fn add_pairs(to: &mut Vec<u8>, pairs: &Pairs) -> Result<(), AllocError>
    ensures { OnOk result (to.new.items ≡ to.old.items ++ packed (pair_elements pairs.now)) }
{
    add_each_pair(to, pairs.as_slice())
}

fn add_text(to: &mut Vec<u8>, text: &Text) -> Result<(), AllocError>
    ensures { OnOk result (to.new.items ≡ to.old.items ++ packed (elem.Text text.now ∷ [])) }
{
    add(to, &Elem::Text(text.copy()?))
}

fn add_each_name(to: &mut Vec<u8>, names: &[Text]) -> Result<(), AllocError>
    ensures { OnOk result (to.new.items ≡ to.old.items ++ flat_map (λ name. packed (elem.Text name ∷ [])) names.now) }
{
    for name in names {
        add_text(to, name)?;
    }
    Ok(())
}

#[tactic(auto, using(crate::proofs::Packed::packed_names))]
pub(crate) fn add_path(to: &mut Vec<u8>, path: &Path) -> Result<(), AllocError>
    ensures { OnOk result (to.new.items ≡ to.old.items ++ packed (path_elements path.now)) }
{
    add_each_name(to, path.as_slice())
}

pub(crate) fn add_counts(to: &mut Vec<u8>, numbers: &[u32]) -> Result<(), AllocError>
    ensures { OnOk result (to.new.items ≡ to.old.items ++ flat_map (λ number. packed (count number ∷ [])) numbers.now) }
{
    for number in numbers {
        add_u32(to, *number)?;
    }
    Ok(())
}
