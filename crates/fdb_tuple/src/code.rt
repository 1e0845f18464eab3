//! What the code of an element says.

ghost use Rattle.std.specs.Prelude.{◌≡◌};
ghost use Rattle.fdb_tuple.specs.Kinds.{kind_of};

/// What begins with a code: an element of this kind, as the table of the tuple layer has it (tuple.md).
#[derive(Clone, Copy, Debug, PartialEq, Eq)]
pub enum Kind {
    Null,
    Bytes,
    Text,
    Nested,
    /// An integer whose magnitude has so many bytes, 8 at most.
    ShortInt { negative: bool, size: u8 },
    /// An integer whose number of bytes follows.
    LongInt { negative: bool },
    Bool(bool),
    Uuid,
    Stamp,
}

// The kind of a code; None where the byte is no code.
pub(crate) fn kind_of(code: u8) -> Option<Kind>
    ensures { result ≡ kind_of code }
{
    match code {
        0x00 => Some(Kind::Null),
        0x01 => Some(Kind::Bytes),
        0x02 => Some(Kind::Text),
        0x05 => Some(Kind::Nested),
        0x0B => Some(Kind::LongInt { negative: true }),
        0x0C..=0x13 => Some(Kind::ShortInt {
            negative: true,
            size: 0x14 - code,
        }),
        0x14..=0x1C => Some(Kind::ShortInt {
            negative: false,
            size: code - 0x14,
        }),
        0x1D => Some(Kind::LongInt { negative: false }),
        0x26 => Some(Kind::Bool(false)),
        0x27 => Some(Kind::Bool(true)),
        0x30 => Some(Kind::Uuid),
        0x33 => Some(Kind::Stamp),
        _ => None,
    }
}
