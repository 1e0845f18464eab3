//! Dumps and printable text that are read.

use dump_reading::{Line, LineFault, PrintableFault, read_dump, read_printable};
use dump_text::write_line;
use key_bytes::Bytes;
use std::alloc::{AllocError, Global};
use std::test::Fail;

// ---- printable text

// A text, the byte that is escaped too, and the bytes that it spells, or the place of its first fault.
type Printable = (
    &'static [u8],
    Option<u8>,
    Result<&'static [u8], PrintableFault>,
);

const PRINTABLES: &[Printable] = &[
    (b"", None, Ok(b"")),
    (b"a\\\\\\x00~'", None, Ok(b"a\\\x00~'")),
    (b"\\x27\\\\\\xff", Some(b'\''), Ok(b"'\\\xff")),
    (b"\\x5c", Some(b'\\'), Ok(b"\\")),
    (b"a\\x", None, Err(PrintableFault::Bad { place: 1 })),
    (b"\\x27", None, Err(PrintableFault::Bad { place: 0 })),
    (b"ab'", Some(b'\''), Err(PrintableFault::Bad { place: 2 })),
    (b"\\xFF", None, Err(PrintableFault::Bad { place: 0 })),
    (b"a\x7f", None, Err(PrintableFault::Bad { place: 1 })),
    (
        b"\\q\\x",
        Some(b'\''),
        Err(PrintableFault::Bad { place: 0 }),
    ),
];

fn is_printable(alloc: Global, row: Printable) -> bool {
    let (text, escaped, wanted) = row;
    match (read_printable(alloc, text, escaped), wanted) {
        (Ok(bytes), Ok(wanted)) => bytes.as_slice() == wanted,
        (Err(fault), Err(wanted)) => fault == wanted,
        _ => false,
    }
}

// The first text that is read otherwise.
fn first_other_printable(alloc: Global) -> Option<usize> {
    for (place, row) in PRINTABLES.iter().enumerate() {
        if !is_printable(alloc, *row) {
            return Some(place);
        }
    }
    None
}

fn text_of(alloc: Global, fault: PrintableFault) -> Result<String, Fail> {
    Ok(format!(in alloc; "{fault}")?)
}

#[test]
fn printable_text(rt: HostRuntime) -> Result<(), Fail> {
    assert_eq!(rt; first_other_printable(rt.alloc()), None);
    let bad = text_of(rt.alloc(), PrintableFault::Bad { place: 5 })?;
    assert_eq!(rt; bad.as_str(), "the byte at 5 fits no rule");
    Ok(())
}

// ---- dumps

fn fault_of(alloc: Global, dump: &[u8]) -> Option<LineFault> {
    read_dump(alloc, dump).err()
}

// Dumps with the line and the place of their first fault.
const BAD: &[(&[u8], u32, u32)] = &[
    (b"M 0 ended", 1, 9),
    (b"M 0 ended 0\n", 1, 11),
    (b"M 0 ended 0 a\\=\n", 1, 13),
    (b"M 65536 ended 0 \n", 1, 2),
    (b"M 07 ended 0 \n", 1, 3),
    (b"M 0 finished 0 \n", 1, 4),
    (b"M 0 ended 18446744073709551616 \n", 1, 10),
    (b"S 0 0 0 \\x41\n", 1, 8),
    (b"S 0 -1 0 a\n", 1, 4),
    (b"E 0 1 \n", 1, 6),
    (b"E 0 1 a_\n", 1, 7),
    (b"O 1 \n", 1, 3),
    (b"O 00\n", 1, 3),
    (b"K \\xff\\=b\n", 1, 2),
    (b"K a\\=b", 1, 6),
    (b"X 0\n", 1, 0),
    (b"O 0\nM 0 ended 0 \n", 2, 0),
    (b"M 0 ended 0 \nS 0 0 0 \nO 0\nE 0 0 1\n", 4, 0),
];

// The first dump with another fault, or none.
fn first_other_fault(alloc: Global) -> Option<usize> {
    for (i, &(dump, line, place)) in BAD.iter().enumerate() {
        if fault_of(alloc, dump) != Some(LineFault::BadLine { line, place }) {
            return Some(i);
        }
    }
    None
}

// The fault of a dump of one line of a letter that is no kind's.
fn fault_of_line(alloc: Global, len: usize) -> Result<Option<LineFault>, AllocError> {
    let dump = vec![in alloc; b'a'; len]?;
    Ok(fault_of(alloc, dump.as_slice()))
}

#[test]
fn bad_dumps(rt: HostRuntime) -> Result<(), Fail> {
    assert_eq!(rt; first_other_fault(rt.alloc()), None);
    assert_eq!(rt;
        fault_of_line(rt.alloc(), 440_005)?,
        Some(LineFault::TooLong { line: 1 })
    );
    Ok(())
}

// A dump with each kind of line, and the greatest machine of an order.
const DUMP: &[u8] =
    b"M 0 ended 4 p\nM 1 underflow 18446744073709551615 w1\\xff\nS 0 0 3 \\x01WAITED_FOR_EMPTY\\x00\nE 1 8 NoSuchIndex\nO 0\nO 63\nK a b\\==\\\\=\nK \\=\n";

// The lines of a dump, written again.
fn written_again(alloc: Global, dump: &[u8]) -> Result<Bytes, LineFault> {
    let lines = read_dump(alloc, dump)?;
    let mut text = Bytes::new(alloc);
    for line in lines.as_slice() {
        write_line(&mut text, line)?;
    }
    Ok(text)
}

// The fields of the one line on an item of a dump, but for its bytes.
fn item_of(alloc: Global, dump: &[u8]) -> Option<(u16, u64, u64)> {
    match read_dump(alloc, dump).ok()?.as_slice() {
        [
            Line::S {
                machine,
                place,
                instruction,
                bytes: _,
            },
        ] => Some((*machine, *place, *instruction)),
        _ => None,
    }
}

#[test]
fn dumps_come_back(rt: HostRuntime) -> Result<(), Fail> {
    assert_eq!(rt; written_again(rt.alloc(), DUMP)?.as_slice(), DUMP);
    assert_eq!(rt;
        item_of(rt.alloc(), b"S 65535 10 907 \\x00\\\\ \n"),
        Some((65_535, 10, 907))
    );
    Ok(())
}
