//! Texts and their pairs.

use fdb_tuple::Elem;
use instr_grammar::{
    FieldFault, instruction_of, is_name, prefix_of, write_name, write_prefix, write_push,
};
use instr_text::{DisFault, LineFault, assemble, disassemble};
use key_bytes::{Bytes, Pair, Pairs};
use laws_instr::{calls_undo_each_other, texts_are_instructions};
use std::alloc::{AllocError, Global};
use std::test::Fail;
use text_commands::{asm, disasm};

// A text, and its pairs or its first fault.
type Row = (
    &'static [u8],
    Result<&'static [(&'static [u8], &'static [u8])], LineFault>,
);

const ROWS: &[Row] = &[
    (b"", Ok(&[])),
    (
        b"@ p\nPUSH b'v'\nPUSH b'k'\nSET\nCOMMIT\n",
        Ok(&[
            (b"\x01p\x00\x14", b"\x02PUSH\x00\x01v\x00"),
            (b"\x01p\x00\x15\x01", b"\x02PUSH\x00\x01k\x00"),
            (b"\x01p\x00\x15\x02", b"\x02SET\x00"),
            (b"\x01p\x00\x15\x03", b"\x02COMMIT\x00"),
        ]),
    ),
    (
        b"@ p\nPUSH (null u'x' ())\n",
        Ok(&[(
            b"\x01p\x00\x14",
            b"\x02PUSH\x00\x05\x00\xff\x02x\x00\x05\x00\x00",
        )]),
    ),
    (
        b"@ \\x00\nDIRECTORY_EXISTS_SNAPSHOT\n",
        Ok(&[(
            b"\x01\x00\xff\x00\x14",
            b"\x02DIRECTORY_EXISTS_SNAPSHOT\x00",
        )]),
    ),
    (
        b"@ p\nPUSH -0\n",
        Err(LineFault::BadLine { line: 2, place: 6 }),
    ),
    (
        b"@ w1\n@ y\nPUSH b''\nPUSH 1",
        Err(LineFault::BadLine { line: 2, place: 0 }),
    ),
    (
        b"@ p\nGET_SNAPSHOT_DATABASE\n",
        Err(LineFault::BadLine { line: 2, place: 12 }),
    ),
    (
        b"@ p\nPUSH u'\\xff\\q'\n",
        Err(LineFault::BadLine { line: 2, place: 5 }),
    ),
    (
        b"@ p\nSET\n@ p",
        Err(LineFault::BadLine { line: 3, place: 2 }),
    ),
];

fn are_pairs(pairs: &Pairs, wanted: &[(&[u8], &[u8])]) -> bool {
    let pairs = pairs.as_slice();
    pairs.len() == wanted.len()
        && pairs.iter().zip(wanted).all(|(pair, row)| pair.key.as_slice() == row.0
            && pair.value.as_slice() == row.1)
}

// Whether pairs are taken apart as this text; there are few of them.
fn comes_back(alloc: Global, pairs: &Pairs, wanted: &[u8]) -> bool {
    if pairs.len() > 100 {
        return false;
    }
    match disassemble(alloc, pairs) {
        Ok(text) => text.as_slice() == wanted,
        Err(_) => false,
    }
}

fn is_assembled(alloc: Global, row: Row) -> bool {
    match (assemble(alloc, row.0), row.1) {
        (Ok(pairs), Ok(wanted)) => are_pairs(&pairs, wanted) && comes_back(alloc, &pairs, row.0),
        (Err(fault), Err(wanted)) => fault == wanted,
        _ => false,
    }
}

// The first text that is assembled otherwise.
fn first_other(alloc: Global) -> Option<usize> {
    for (place, row) in ROWS.iter().enumerate() {
        if !is_assembled(alloc, *row) {
            return Some(place);
        }
    }
    None
}

// The fault of two pairs, of which the second is no instruction.
fn second_refused(alloc: Global) -> Result<Option<DisFault>, AllocError> {
    let mut pairs = Pairs::new(alloc);
    let key = Bytes::from_slice(alloc, b"\x01p\x00\x14")?;
    let value = Bytes::from_slice(alloc, b"\x02SET\x00")?;
    pairs.push(Pair { key, value })?;
    let key = Bytes::from_slice(alloc, b"a")?;
    let value = Bytes::from_slice(alloc, b"b")?;
    pairs.push(Pair { key, value })?;
    if pairs.len() > 100 {
        return Ok(None);
    }
    Ok(disassemble(alloc, &pairs).err())
}

#[test]
fn texts_and_pairs(rt: HostRuntime) -> Result<(), Fail> {
    assert_eq!(rt; first_other(rt.alloc()), None);
    let fault = second_refused(rt.alloc())?;
    assert_eq!(rt; fault, Some(DisFault::NotInstruction { line: 2 }));
    Ok(())
}

fn reads_its_line(alloc: Global) -> bool {
    match instruction_of(alloc, b"PUSH -7") {
        Ok((name, Some(Elem::Int(number)))) => name == b"PUSH".as_slice() && number == -7,
        _ => false,
    }
}

fn reads_its_prefix(alloc: Global) -> bool {
    match prefix_of(alloc, b"@ a\\x00") {
        Ok(prefix) => prefix.as_slice() == b"a\x00".as_slice(),
        Err(_) => false,
    }
}

fn tells_where_a_name_ends(alloc: Global) -> bool {
    matches!(instruction_of(alloc, b"GETX"), Err(FieldFault::Bad(1)))
}

#[test]
fn lines_are_read_and_written(rt: HostRuntime) -> Result<(), Fail> {
    let alloc = rt.alloc();
    assert!(rt; reads_its_line(alloc));
    assert!(rt; reads_its_prefix(alloc));
    assert!(rt; tells_where_a_name_ends(alloc));
    assert!(rt; is_name(b"GET_DATABASE") && !is_name(b"PUSH"));
    let mut text = Vec::new(alloc);
    write_prefix(&mut text, b"p'\xff")?;
    write_push(&mut text, &Elem::Bool(true))?;
    write_name(&mut text, b"POP")?;
    assert_eq!(rt; text.as_slice(), b"@ p'\\xff\nPUSH true\nPOP\n".as_slice());
    Ok(())
}

#[test]
fn lines_of_pairs_stand_for_a_text(rt: HostRuntime) {
    let lines = asm(rt.alloc(), b"@ p\nPOP\n");
    let text = disasm(rt.alloc(), b"K \\x01p\\x00\\x14\\=\\x02POP\\x00\n");
    assert!(rt;
        matches!(&lines, Ok(lines) if lines.as_slice() == b"K \\x01p\\x00\\x14\\=\\x02POP\\x00\n".as_slice())
    );
    assert!(rt; matches!(&text, Ok(text) if text.as_slice() == b"@ p\nPOP\n".as_slice()));
    texts_are_instructions();
    calls_undo_each_other();
}
