//! A machine's list of directories, and what each operation on it comes to.

use super::*;
use DirectoryOperation as operation;
use Lying::{Int, Name, Null, Str};
use directory_types::{DirFault, DirKind, Layer, Path};
use fdb_calls::{Code, Request};
use model_directory::is_partition;
use model_machine::{DirectoryOperation, Object, Scope};
use stack_directories::{
    Directed, Directories, ListFault, digits_of, directed, directory_of, fault_name,
};
use stack_items::Operands;

fn subspace_of(alloc: Global) -> Result<Object, AllocError> {
    let prefix = Bytes::from_slice(alloc, b"s")?;
    Ok(Object::Subspace { prefix })
}

fn layer_of(alloc: Global) -> Result<Layer, AllocError> {
    let node = Bytes::from_slice(alloc, b"n")?;
    let content = Bytes::from_slice(alloc, b"c")?;
    Ok(Layer {
        node,
        content,
        manual: true,
    })
}

fn path_of(alloc: Global) -> Result<Path, AllocError> {
    let mut path = Path::new(alloc);
    path.push(Text::from_str(alloc, "d")?)?;
    Ok(path)
}

// A directory of the path ("d",).
fn directory(alloc: Global) -> Result<Object, AllocError> {
    let (layer, path) = (layer_of(alloc)?, path_of(alloc)?);
    let prefix = Bytes::from_slice(alloc, b"p")?;
    directory_of(alloc, &layer, &path, &prefix, &Bytes::new(alloc))
}

fn append_all(alloc: Global, list: &mut Directories) -> Result<(), AllocError> {
    list.append(subspace_of(alloc)?)?;
    list.append(directory(alloc)?)?;
    list.append(Object::Null)
}

// The default layer, a subspace, a directory and null, of which the object at this place is the current one.
fn list_at(alloc: Global, index: usize) -> Result<Directories, AllocError> {
    let mut list = Directories::new(alloc)?;
    append_all(alloc, &mut list)?;
    list.fall_to(1);
    list.choose(index);
    Ok(list)
}

// What an operation comes to, as a test writes it. Of a call of a layer there are the kind, whether it is by name and by
// snapshot, and how many names each path has.
#[derive(Clone, Copy)]
enum Told {
    Subspace(&'static [u8]),
    Layer(&'static [u8], &'static [u8]),
    Gives(&'static [Lying]),
    Chooses(usize),
    FallsTo(usize),
    Faults(ListFault),
    Asks(DirKind, bool, bool, [usize; 2]),
    Logs,
}

fn is_object(object: &Object, told: Told) -> bool {
    match (object, told) {
        (Object::Subspace { prefix }, Told::Subspace(wanted)) => prefix.as_slice() == wanted,
        (Object::Layer(layer), Told::Layer(node, content)) => {
            layer.node.as_slice() == node && layer.content.as_slice() == content
        }
        _ => false,
    }
}

fn are_elements(elements: &[Elem], wanted: &[Lying]) -> bool {
    elements.len() == wanted.len()
        && elements
            .iter()
            .zip(wanted)
            .all(|(element, wanted)| is_element(element, wanted))
}

fn is_asked(request: &Request, told: Told) -> bool {
    match (request, told) {
        (
            Request::Directory {
                name,
                kind,
                args,
                ..
            },
            Told::Asks(wanted, by_name, by_snapshot, names),
        ) => {
            let args = args.get();
            *kind == wanted
                && name.is_some() == by_name
                && args.snapshot == by_snapshot
                && [args.path.len(), args.new_path.len()] == names
        }
        (Request::On { .. }, Told::Logs) => true,
        _ => false,
    }
}

fn is_told(directed: &Directed, told: Told) -> bool {
    match (directed, told) {
        (Directed::Appends(object), _) => is_object(object, told),
        (Directed::Gives(elements), Told::Gives(wanted)) => {
            are_elements(elements.as_slice(), wanted)
        }
        (Directed::Chooses(index), Told::Chooses(wanted)) => *index == wanted,
        (Directed::FallsTo(index), Told::FallsTo(wanted)) => *index == wanted,
        (Directed::Faults(fault), Told::Faults(wanted)) => *fault == wanted,
        (Directed::Asks(request, _), _) => is_asked(request, told),
        _ => false,
    }
}

// An operation, its form, the index of the current object, the items that it pops, and what it comes to.
type Row = (DirectoryOperation, Scope, usize, &'static [Lying], Told);

const T: Scope = Scope::Transaction;

const S: Scope = Scope::Snapshot;

const D: Scope = Scope::Database;

const ONE: &[Lying] = &[Name("e"), Int(1)];

const TWO: &[Lying] = &[Name("f"), Int(1), Name("e"), Int(1)];

const OPERATIONS: [Row; 24] = [
    (
        operation::CreateSubspace,
        T,
        0,
        &[Str(b"r"), Int(5), Int(1)],
        Told::Subspace(b"r\x15\x05"),
    ),
    (
        operation::CreateLayer,
        T,
        0,
        &[Int(1), Int(2), Int(1)],
        Told::Layer(b"s", b"p"),
    ),
    (
        operation::CreateOrOpen,
        D,
        2,
        &[Null, Name("e"), Int(1)],
        Told::Asks(DirKind::CreateOrOpen, false, false, [2, 0]),
    ),
    (
        operation::Create,
        T,
        0,
        &[Null, Null, Name("e"), Int(1)],
        Told::Asks(DirKind::Create, true, false, [1, 0]),
    ),
    (
        operation::Open,
        S,
        0,
        &[Null, Name("e"), Int(1)],
        Told::Asks(DirKind::Open, true, true, [1, 0]),
    ),
    (
        operation::Open,
        T,
        1,
        &[Null, Int(0)],
        Told::Faults(ListFault::NotADirectory),
    ),
    (operation::Change, T, 0, &[Int(2)], Told::Chooses(2)),
    (operation::Change, T, 0, &[Int(3)], Told::Chooses(1)),
    (operation::SetErrorIndex, T, 0, &[Int(3)], Told::FallsTo(3)),
    (
        operation::Move,
        T,
        2,
        TWO,
        Told::Asks(DirKind::MoveTo, true, false, [2, 2]),
    ),
    (
        operation::MoveTo,
        D,
        2,
        ONE,
        Told::Asks(DirKind::MoveTo, false, false, [1, 1]),
    ),
    (
        operation::MoveTo,
        T,
        0,
        ONE,
        Told::Faults(ListFault::RootCannotMove),
    ),
    (
        operation::Remove,
        T,
        2,
        &[Int(0)],
        Told::Asks(DirKind::Remove, true, false, [1, 0]),
    ),
    (
        operation::RemoveIfExists,
        T,
        2,
        &[Name("e"), Int(1), Int(1)],
        Told::Asks(DirKind::RemoveIfExists, true, false, [2, 0]),
    ),
    (
        operation::List,
        S,
        0,
        &[Int(0)],
        Told::Asks(DirKind::List, true, true, [0, 0]),
    ),
    (
        operation::Exists,
        D,
        0,
        &[Int(0)],
        Told::Asks(DirKind::Exists, false, false, [0, 0]),
    ),
    (
        operation::PackKey,
        T,
        1,
        &[Int(5), Int(1)],
        Told::Gives(&[Str(b"s\x15\x05")]),
    ),
    (
        operation::UnpackKey,
        T,
        1,
        &[Str(b"s\x15\x05")],
        Told::Gives(&[Int(5)]),
    ),
    (
        operation::Range,
        T,
        2,
        &[Int(0)],
        Told::Gives(&[Str(b"p\0"), Str(b"p\xFF")]),
    ),
    (
        operation::Contains,
        T,
        1,
        &[Str(b"sx")],
        Told::Gives(&[Int(1)]),
    ),
    (
        operation::OpenSubspace,
        T,
        2,
        &[Int(5), Int(1)],
        Told::Subspace(b"p\x15\x05"),
    ),
    (operation::LogSubspace, T, 1, &[Str(b"l")], Told::Logs),
    (
        operation::LogDirectory,
        T,
        2,
        &[Str(b"l")],
        Told::Asks(DirKind::Log, true, false, [1, 0]),
    ),
    (
        operation::StripPrefix,
        T,
        1,
        &[Str(b"sx")],
        Told::Gives(&[Str(b"x")]),
    ),
];

// Whether an operation comes to what its row says, and pops so many items.
fn comes_to(
    operands: &mut Operands<'_>,
    alloc: Global,
    list: &Directories,
    row: Row,
) -> Result<bool, StackFault> {
    let (operation, scope, _, items, told) = row;
    let name = Bytes::from_slice(alloc, b"t")?;
    let directed = directed(operands, alloc, operation, scope, &name, list)?;
    Ok(is_told(&directed, told) && operands.popped() == items.len())
}

fn comes_to_on(
    alloc: Global,
    stack: &mut Stack,
    list: &Directories,
    row: Row,
) -> Result<bool, StackFault> {
    lay_all(alloc, stack, row.3)?;
    let mut operands = stack.operands();
    comes_to(&mut operands, alloc, list, row)
}

fn is_so(alloc: Global, row: Row) -> Result<bool, StackFault> {
    let list = list_at(alloc, row.2)?;
    let mut stack = Stack::new(alloc);
    let comes_to = comes_to_on(alloc, &mut stack, &list, row);
    drop(stack);
    drop(list);
    comes_to
}

// The place of the first operation that comes to something else.
fn first_other_operation(alloc: Global) -> Result<Option<usize>, StackFault> {
    for (place, row) in OPERATIONS.iter().enumerate() {
        if !is_so(alloc, *row)? {
            return Ok(Some(place));
        }
    }
    Ok(None)
}

#[test]
fn operations_come_to_what_is_said(rt: HostRuntime) {
    assert_eq!(rt; first_other_operation(rt.alloc()), Ok(None));
}

fn is_directory(object: Option<&Object>) -> bool {
    matches!(object, Some(Object::Directory { .. }))
}

// The indices of the list, and whether the current object, the one that a number means, and the one at a place are the
// directory.
fn seen(list: &Directories) -> ([usize; 2], [bool; 3]) {
    let null = Object::Null;
    let at = match list.index_in(2) {
        Some(index) => is_directory(Some(list.at(index))),
        None => false,
    };
    let current = is_directory(Some(list.current_or(&null)));
    let numbered = is_directory(list.object_at(2));
    ([list.index(), list.error_index()], [current, numbered, at])
}

fn see(alloc: Global) -> Result<([usize; 2], [bool; 3]), AllocError> {
    let list = list_at(alloc, 2)?;
    let seen = seen(&list);
    drop(list);
    Ok(seen)
}

#[test]
fn a_list_has_objects_and_two_indices(rt: HostRuntime) {
    assert_eq!(rt; see(rt.alloc()), Ok(([2, 1], [true; 3])));
}

fn is_name(name: Result<Bytes, AllocError>, wanted: &[u8]) -> Result<bool, AllocError> {
    Ok(name?.as_slice() == wanted)
}

fn are_named(alloc: Global) -> Result<[bool; 4], AllocError> {
    Ok([
        is_name(fault_name(alloc, &DirFault::Missing), b"Missing")?,
        is_name(fault_name(alloc, &DirFault::Tr(Code(1020))), b"1020")?,
        is_name(digits_of(alloc, 2017), b"2017")?,
        ListFault::NotInside.name() == b"NotInside".as_slice(),
    ])
}

#[test]
fn faults_have_names(rt: HostRuntime) {
    assert_eq!(rt; are_named(rt.alloc()), Ok([true; 4]));
}

#[test]
fn a_partition_has_its_layer_name(rt: HostRuntime) -> Result<(), AllocError> {
    let layer_name = Bytes::from_slice(rt.alloc(), b"partition")?;
    assert!(rt; is_partition(&layer_name) && !is_partition(&Bytes::new(rt.alloc())));
    Ok(())
}
