//! A Unicode string.

ghost use Rattle.std.specs.Prelude.{◌≡◌, ◌++◌, IfOk, OnOk, OnErr, MatchOption, IsTrue, IsFalse, IsUtf8};
ghost use Rattle.std.specs.Str.{is_utf8};

use key_bytes::Bytes;
use std::alloc::{AllocError, Global};
use std::marker::Model;

/// A Unicode string. Contracts see the list of the bytes of its UTF-8.
#[derive(Debug, Drop)]
pub struct Text {
    content: Bytes,
}

impl Model for Text {
    ghost use Rattle.std.specs.Prelude.{ℕ, List, IsUtf8};

    ghost Value = { List ℕ };

    ghost view = { λ text. text.content };

    ghost invariant = { λ text. IsUtf8 text.content };
}

impl Text {
    /// Makes a Unicode string, a copy of `s`.
    pub fn from_str(alloc: Global, s: &str) -> Result<Text, AllocError>
        ensures { IfOk result (λ text. text ≡ s.now) }
    {
        Ok(Text {
            content: Bytes::from_slice(alloc, s.as_bytes())?,
        })
    }

    // The text with these bytes, if they are UTF-8.
    pub(crate) fn from_utf8(content: Bytes) -> Option<Text>
        ensures { MatchOption result (IsFalse (is_utf8 content)) (λ text. (text ≡ content) × IsTrue (is_utf8 content)) }
    {
        match str::from_utf8(content.as_slice()) {
            Ok(_) => Some(Text { content }),
            Err(_) => None,
        }
    }

    /// Returns the text.
    pub fn as_str(&self) -> &str
        ensures { result.now ≡ self.now }
    {
        // The bytes are UTF-8, as the type's invariant says.
        unsafe { str::from_utf8_unchecked(self.content.as_slice()) }
    }

    /// Returns the bytes of the text's UTF-8.
    pub fn as_bytes(&self) -> &[u8]
        ensures value { result.now ≡ self.now }
        ensures utf8 { IsUtf8 self.now }
    {
        self.content.as_slice()
    }

    /// Turns the Unicode string into the bytes of its UTF-8.
    pub fn into_bytes(self) -> Bytes
        ensures { result ≡ self }
    {
        self.content
    }

    /// Adds another text at the end. After a refusal this text is unchanged.
    pub fn append(&mut self, other: &Text) -> Result<(), AllocError>
        ensures ok { OnOk result (self.new ≡ self.old ++ other.now) }
        ensures err { OnErr result (self.new ≡ self.old) }
    {
        let bytes = other.as_bytes();
        self.content.extend(bytes)?;
        Ok(())
    }

    /// Returns a copy of this Unicode string.
    pub fn copy(&self) -> Result<Text, AllocError>
        ensures { IfOk result (λ copy. copy ≡ self.now) }
    {
        Ok(Text {
            content: self.content.copy()?,
        })
    }
}
