use fdb_tuple::{Elem, Text, Versionstamp};
use key_bytes::{Bytes, Pair, Pairs};
use model_database::Api;
use model_machine::MachineOptions;
use stack_items::{Item, ItemValue, Stack, StackFault};
use std::alloc::{AllocError, Global};

mod directories;
mod items;
mod machines;
mod suspended_machines;

// An item of a stack, as a test writes it. A stamp is incomplete, and has this user order.
#[derive(Clone, Copy)]
enum Lying {
    Null,
    Int(i128),
    Str(&'static [u8]),
    Name(&'static str),
    Stamp(u16),
    Waits(u64),
}

// Options with so many polls for each wait.
fn options(polls: u32) -> MachineOptions {
    MachineOptions {
        api: Api::V630,
        polls,
    }
}

fn push_bytes(alloc: Global, stack: &mut Stack, bytes: &[u8]) -> Result<(), StackFault> {
    let bytes = Bytes::from_slice(alloc, bytes)?;
    stack.push(Elem::Bytes(bytes), 0)
}

fn push_text(alloc: Global, stack: &mut Stack, text: &str) -> Result<(), StackFault> {
    let text = Text::from_str(alloc, text)?;
    stack.push(Elem::Text(text), 0)
}

fn stamp(user: u16) -> Versionstamp {
    Versionstamp {
        stamp: [0xFF; 10],
        user,
    }
}

fn lay(alloc: Global, stack: &mut Stack, item: Lying) -> Result<(), StackFault> {
    match item {
        Lying::Null => stack.push(Elem::Null, 0),
        Lying::Int(number) => stack.push(Elem::Int(number), 0),
        Lying::Str(bytes) => push_bytes(alloc, stack, bytes),
        Lying::Name(text) => push_text(alloc, stack, text),
        Lying::Stamp(user) => stack.push(Elem::Stamp(stamp(user)), 0),
        Lying::Waits(life) => stack.push_waiting(life, 0),
    }
}

// Lays these items on a stack, the first the lowest.
fn lay_all(alloc: Global, stack: &mut Stack, items: &[Lying]) -> Result<(), StackFault> {
    for item in items {
        lay(alloc, stack, *item)?;
    }
    Ok(())
}

fn is_element(element: &Elem, wanted: &Lying) -> bool {
    match (element, wanted) {
        (Elem::Null, Lying::Null) => true,
        (Elem::Int(number), Lying::Int(wanted)) => number == wanted,
        (Elem::Bytes(bytes), Lying::Str(wanted)) => bytes.as_slice() == *wanted,
        (Elem::Text(text), Lying::Name(wanted)) => text.as_str() == *wanted,
        _ => false,
    }
}

fn is_item(item: &Item, wanted: &Lying) -> bool {
    match (&item.value, wanted) {
        (ItemValue::Known(element), _) => is_element(element, wanted),
        (ItemValue::Waits(life), Lying::Waits(wanted)) => life == wanted,
        _ => false,
    }
}

// Whether the items of a stack are these, the first the lowest.
fn are_items(stack: &Stack, wanted: &[Lying]) -> bool {
    let items = stack.as_slice();
    items.len() == wanted.len()
        && items
            .iter()
            .zip(wanted)
            .all(|(item, wanted)| is_item(item, wanted))
}

fn put_pair(alloc: Global, pairs: &mut Pairs, value: &[u8]) -> Result<(), AllocError> {
    let value = Bytes::from_slice(alloc, value)?;
    let key = Bytes::new(alloc);
    pairs.push(Pair { key, value })
}

// Pairs with these values.
fn pairs_of(alloc: Global, values: &[&[u8]]) -> Result<Pairs, AllocError> {
    let mut pairs = Pairs::new(alloc);
    for value in values {
        put_pair(alloc, &mut pairs, value)?;
    }
    Ok(pairs)
}

fn values_of(alloc: Global, values: &[&[u8]]) -> Result<Vec<Bytes>, AllocError> {
    let mut copies = Vec::new(alloc);
    for value in values {
        copies.push(Bytes::from_slice(alloc, value)?)?;
    }
    Ok(copies)
}
