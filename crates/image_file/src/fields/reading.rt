//! Fields, read one after another.

ghost use Rattle.std.specs.Prelude.{◌≡◌, ◌≤◌, ◌<◌, ◌&&◌, ◌++◌, ◌∷◌, [], ℕ, None, get_or, nat_lt, nat_le, true, false};
ghost use Rattle.std.specs.Int.{w16, w32, w64};
ghost use Rattle.vcp_base.specs.Types.{fits as fits_of};
ghost use Rattle.image_file.specs.declared.fields.fault.FieldFault.TheVariants as fault;
ghost use Rattle.image_file.specs.declared.fields.fault.ReadError.TheVariants as errors;
ghost use Rattle.image_file.specs.Pieces.{byte_at, number_at, text_field};
ghost use Rattle.image_file.specs.Codes.{type_of, correction_width};
ghost use Rattle.image_file.specs.Fields.{number, signed, type_field, kind_field};
ghost use Rattle.image_file.specs.Readings.{Takes, Keeps, kept};

use crate::fields::fault::{FieldFault, ReadError};
use std::alloc::Global;
use vcp_base::{Kind, Profile, Residue, Text, Ty, admits, fits, kind_of_code, ty_of_code};

/// What is left of bytes that are read field by field, and why they could not be read. The first fault is kept, and what
/// is read from then on says nothing.
#[derive(Drop)]
pub struct Reader<'a> {
    pub(crate) left: &'a [u8],
    pub(crate) fault: Option<ReadError>,
}

impl<'a> Reader<'a> {
    /// Keeps a fault, unless one is kept.
    pub fn refuse(&mut self, error: ReadError)
        ensures left { self.new.left.now ≡ self.old.left.now }
        ensures fault { self.new.fault ≡ kept self.old.fault false error }
    {
        match self.fault {
            None => self.fault = Some(error),
            Some(_) => {}
        }
    }

    /// Keeps a fault where a test failed, unless one is kept.
    pub fn check(&mut self, passes: bool, fault: FieldFault)
        ensures left { self.new.left.now ≡ self.old.left.now }
        ensures fault { self.new.fault ≡ kept self.old.fault passes (errors.FieldFault fault) }
    {
        if !passes {
            self.refuse(ReadError::FieldFault(fault));
        }
    }

    /// Appends an entry that was read, where there is memory.
    pub fn push<T: Drop>(&mut self, list: &mut Vec<T>, entry: T)
        ensures keeps { Keeps self.old self.new }
        ensures pushed { self.new.fault ≡ None → list.new.items ≡ list.old.items ++ entry ∷ [] }
    {
        match list.push(entry) {
            Ok(()) => {}
            Err(_) => self.refuse(ReadError::Memory),
        }
    }

    /// A copy of a text that was read, where there is memory.
    pub fn copy(&mut self, alloc: Global, text: &[u8]) -> Text
        ensures keeps { Keeps self.old self.new }
        ensures copied { self.new.fault ≡ None → result ≡ text.now }
    {
        match Text::copy_of(alloc, text) {
            Ok(copy) => copy,
            Err(_) => {
                self.refuse(ReadError::Memory);
                Text::from_vec(Vec::new(alloc))
            }
        }
    }

    /// So many bytes; `Short` where they are fewer.
    pub fn take(&mut self, n: usize) -> &'a [u8]
        ensures { Takes self.old self.new (text_field n (λ t. true) (λ left. fault.Field left)).read result.now }
    {
        if self.left.len() < n {
            self.refuse(ReadError::FieldFault(FieldFault::Short));
            return self.left;
        }
        let (front, rest) = self.left.split_at(n);
        self.left = rest;
        front
    }

    /// The next byte; `Short` where there is none.
    pub fn read_u8(&mut self) -> u8
        ensures { Takes self.old self.new byte_at result }
    {
        match self.left {
            [] => {
                self.refuse(ReadError::FieldFault(FieldFault::Short));
                0
            }
            [number, rest @ ..] => {
                self.left = rest;
                *number
            }
        }
    }

    /// The number of the next two bytes; `Short` where they are fewer.
    pub fn read_u16(&mut self) -> u16
        ensures { Takes self.old self.new (number_at w16) result }
    {
        if self.left.len() < 2 {
            self.refuse(ReadError::FieldFault(FieldFault::Short));
            return 0;
        }
        let (front, rest) = self.left.split_at(2);
        self.left = rest;
        u16::from_be_bytes([front[0], front[1]])
    }

    /// The number of the next four bytes; `Short` where they are fewer.
    pub fn read_u32(&mut self) -> u32
        ensures { Takes self.old self.new (number_at w32) result }
    {
        if self.left.len() < 4 {
            self.refuse(ReadError::FieldFault(FieldFault::Short));
            return 0;
        }
        let (front, rest) = self.left.split_at(4);
        self.left = rest;
        u32::from_be_bytes([front[0], front[1], front[2], front[3]])
    }

    /// The number of the next eight bytes; `Short` where they are fewer.
    pub fn read_u64(&mut self) -> u64
        ensures { Takes self.old self.new (number_at w64) result }
    {
        if self.left.len() < 8 {
            self.refuse(ReadError::FieldFault(FieldFault::Short));
            return 0;
        }
        let (front, rest) = self.left.split_at(8);
        self.left = rest;
        u64::from_be_bytes([
            front[0], front[1], front[2], front[3], front[4], front[5], front[6], front[7],
        ])
    }

    /// The next residue: four bytes in the narrow code, and eight in the wide one.
    pub fn read_residue(&mut self, profile: Profile) -> Residue
        ensures { Takes self.old self.new (number_at (correction_width profile)) result }
    {
        match profile {
            Profile::Narrow => self.read_u32() as Residue,
            Profile::Wide => self.read_u64(),
        }
    }

    /// Any kind.
    pub(crate) fn any_kind(&mut self) -> Kind
        ensures { Takes self.old self.new (kind_field (λ k. true)).read result }
    {
        let left = self.left.len();
        let n = self.read_u8();
        match kind_of_code(n) {
            Some(kind) => kind,
            None => {
                self.refuse(ReadError::FieldFault(FieldFault::Field { left }));
                Kind::Const
            }
        }
    }

    /// Any type.
    pub(crate) fn any_ty(&mut self, profile: Profile) -> Ty
        ensures { Takes self.old self.new (type_field profile (λ t. true)).read result }
    {
        let left = self.left.len();
        let n = self.read_u8();
        match ty_named(profile, n) {
            Some(ty) => ty,
            None => {
                self.refuse(ReadError::FieldFault(FieldFault::Field { left }));
                Ty::Bool
            }
        }
    }

    /// A number of four bytes below a limit; another one is `Field`.
    pub fn below(&mut self, limit: u32) -> u32
        ensures { Takes self.old self.new (number (λ n. nat_lt n limit)).read result }
    {
        let left = self.left.len();
        let n = self.read_u32();
        self.check(n < limit, FieldFault::Field { left });
        n
    }

    /// A number of four bytes up to a limit; another one is `Field`. What is answered is within the limit, even then.
    pub fn at_most(&mut self, limit: u32) -> u32
        ensures is { Takes self.old self.new (number (λ n. nat_le n limit)).read result }
        ensures below { result ≤ limit }
    {
        self.between(0, limit)
    }

    /// A number of four bytes from one to another; another one is `Field`. What is answered is within the limit, even then.
    pub fn between(&mut self, low: u32, high: u32) -> u32
        ensures is { Takes self.old self.new (number (λ n. nat_le low n && nat_le n high)).read result }
        ensures below { result ≤ high }
    {
        let left = self.left.len();
        let n = self.read_u32();
        if low <= n && n <= high {
            n
        } else {
            self.refuse(ReadError::FieldFault(FieldFault::Field { left }));
            0
        }
    }

    /// A value of a type.
    pub(crate) fn value(&mut self, ty: Ty) -> i64
        ensures { Takes self.old self.new (signed (fits_of ty)).read result }
    {
        let left = self.left.len();
        let v = self.any_value();
        self.check(fits(ty, v as i128), FieldFault::Field { left });
        v
    }

    /// Any value.
    pub(crate) fn any_value(&mut self) -> i64
        ensures { Takes self.old self.new (signed (λ v. true)).read result }
    {
        self.read_u64().cast_signed()
    }
}

/// Each of these is a byte. It does nothing: it states what their type says.
pub fn are_bytes(bytes: &[u8])
    ensures { (i : ℕ) → get_or bytes.now i 0 < 256 }
{}

/// The type with the code, where the profile has words of it: LINT in the wide code alone.
pub fn ty_named(profile: Profile, n: u8) -> Option<Ty>
    ensures { result ≡ type_of profile n }
{
    match ty_of_code(n) {
        None => None,
        Some(ty) => if admits(profile, ty) { Some(ty) } else { None },
    }
}
