//! Fields, written one after another.

ghost use Rattle.std.specs.Prelude.{◌≡◌, ◌<◌, ◌∷◌, [], false};
ghost use Rattle.std.specs.Int.{w16, w32, w64, to_be_bytes, cast_unsigned};
ghost use Rattle.vcp_base.specs.Code.{modulus};
ghost use Rattle.vcp_base.specs.Spellings.{ty_code as ty_code_of, kind_code as kind_code_of};
ghost use Rattle.image_file.specs.Codes.{correction_width};
ghost use Rattle.image_file.specs.Written.{Writes};

use std::alloc::Global;
use vcp_base::{Kind, Profile, Residue, Ty, kind_code, ty_code};

/// The bytes of a writer. They are a type of their own, since a loop that gives on what holds a `Vec` itself gets no proof.
#[derive(Drop)]
pub struct Bytes {
    pub(crate) list: Vec<u8>,
}

/// Bytes that are written field by field. Where memory runs out it has failed, from then on, and its bytes lack some.
#[derive(Drop)]
pub struct Writer {
    pub(crate) bytes: Bytes,
    pub(crate) has_failed: bool,
}

impl Writer {
    /// No bytes.
    pub fn new(alloc: Global) -> Writer
        ensures bytes { result.bytes.list.items ≡ [] }
        ensures sound { result.has_failed ≡ false }
    {
        Writer {
            bytes: Bytes {
                list: Vec::new(alloc),
            },
            has_failed: false,
        }
    }

    /// Appends bytes.
    pub fn put(mut self, more: &[u8]) -> Writer
        ensures { Writes self result more.now }
    {
        match self.bytes.list.extend_from_slice(more) {
            Ok(()) => {}
            Err(_) => self.has_failed = true,
        }
        self
    }

    /// Appends the code of a type, one byte.
    pub fn put_ty(self, ty: Ty) -> Writer
        ensures { Writes self result (ty_code_of ty ∷ []) }
    {
        self.put(&[ty_code(ty)])
    }

    /// Appends the code of a kind, one byte.
    pub fn put_kind(self, kind: Kind) -> Writer
        ensures { Writes self result (kind_code_of kind ∷ []) }
    {
        self.put(&[kind_code(kind)])
    }

    /// Appends a number of two bytes.
    pub fn put_u16(self, n: u16) -> Writer
        ensures { Writes self result (to_be_bytes w16 n) }
    {
        self.put(&n.to_be_bytes())
    }

    /// Appends a number of four bytes.
    pub fn put_u32(self, n: u32) -> Writer
        ensures { Writes self result (to_be_bytes w32 n) }
    {
        self.put(&n.to_be_bytes())
    }

    /// Appends a number with a sign, of eight bytes.
    pub fn put_i64(self, v: i64) -> Writer
        ensures { Writes self result (to_be_bytes w64 (cast_unsigned w64 v)) }
    {
        let n = v.cast_unsigned();
        self.put(&n.to_be_bytes())
    }

    /// Appends a residue: four bytes in the narrow code, and eight in the wide one.
    pub fn put_residue(self, profile: Profile, n: Residue) -> Writer
        requires { n < modulus profile }
        ensures { Writes self result (to_be_bytes (correction_width profile) n) }
    {
        match profile {
            Profile::Narrow => self.put_u32(n as u32),
            Profile::Wide => self.put(&n.to_be_bytes()),
        }
    }
}
