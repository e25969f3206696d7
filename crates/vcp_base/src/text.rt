//! Texts, which are lists of bytes.

ghost use Rattle.std.specs.Prelude.{◌≡◌, ◌<◌, ◌↔◌, Some, IfOk, IsTrue, bytes_eq, length, slice_get};
ghost use Rattle.vcp_base.specs.Names.{SameName, is_same_name as is_same_name_of};

use crate::memory::Memory;
use std::alloc::Global;
use std::marker::Model;

/// A text, seen as the list of its bytes.
pub struct Text {
    content: Vec<u8>,
}

impl Drop for Text {
    fn drop(self) {
        let Text { content: _ } = self;
    }
}

impl Model for Text {
    ghost use Rattle.std.specs.Prelude.{List, ℕ};

    ghost Value = { List ℕ };

    ghost view = { λ t. t.content.items };
}

impl Text {
    /// A copy of the bytes; `Memory` where there is no room for it.
    pub fn copy_of(alloc: Global, bytes: &[u8]) -> Result<Text, Memory>
        ensures { IfOk result (λ t. t ≡ bytes.now) }
    {
        Ok(Text {
            content: bytes.to_vec(alloc)?,
        })
    }

    /// The text of a vector's bytes. It takes no memory.
    pub fn from_vec(content: Vec<u8>) -> Text
        ensures { result ≡ content.items }
    {
        Text { content }
    }

    /// The bytes of the text.
    pub fn bytes(&self) -> &[u8]
        ensures { result.now ≡ self.now }
    {
        &self.content
    }

    /// How many bytes there are.
    pub fn len(&self) -> usize
        ensures { result ≡ length self.now }
    {
        self.content.len()
    }

    /// The byte at place `i`, counted from 0, where `i` is less than `len`.
    pub fn at(&self, i: usize) -> u8
        requires { i < length self.now }
        ensures { slice_get self.now i ≡ Some result }
    {
        self.content[i]
    }
}

/// Whether two names are one: names are compared without regard to the case of ASCII letters. A to Z are
/// taken as a to z.
pub fn same_name(a: &Text, b: &Text) -> bool
    ensures { IsTrue result ↔ SameName a.now b.now }
{
    is_same_name(a.bytes(), b.bytes())
}

/// Whether two names are one, given by their bytes.
pub fn is_same_name(a: &[u8], b: &[u8]) -> bool
    ensures test { result ≡ is_same_name_of a.now b.now }
    ensures same { IsTrue result ↔ SameName a.now b.now }
{
    a.eq_ignore_ascii_case(b)
}

/// Whether two texts are the same bytes.
pub fn same_bytes(a: &[u8], b: &[u8]) -> bool
    ensures { result ≡ bytes_eq a.now b.now }
{
    a == b
}
