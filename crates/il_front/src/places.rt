//! Where results are kept.

ghost use Rattle.std.specs.Prelude.{◌≡◌, ◌+◌, ◌≤◌, [], ◌∷◌, ◌++◌, cond};
ghost use Rattle.vcp_base.specs.Limits.{most_names};
ghost use Rattle.vcp_base.specs.declared.ty.Ty.TheVariants as ty_;
ghost use Rattle.il_front.specs.TypedForm.{hidden_slot as hidden_slot_of, hidden_slots, all_types, uses as uses_of, used_by};
ghost use Rattle.il_front.specs.Places.{used_in, place_in};
ghost use Rattle.st_types.specs.Full.{UnlessFull};

use crate::instruction::Instruction;
use crate::types::next_type;
use st_tree::Section;
use std::alloc::Global;
use vcp_base::{Memory, Spot, Text, Ty, same_type};
use vcp_typed::{Slot, Slots};

/// The hidden variables behind the declared ones: of which types there are some.
#[derive(Clone, Copy)]
pub struct Places {
    /// How many variables are declared.
    pub declared: u32,
    pub bools: bool,
    pub ints: bool,
    pub dints: bool,
    pub lints: bool,
}

// Whether a result of the type stands behind one of the instructions.
fn uses(code: &[Instruction], ty: Ty) -> bool
    ensures { result ≡ uses_of code.now ty_.Bool ty }
{
    let mut kept = Ty::Bool;
    'each: for i in code {
        kept = next_type(kept, i.action);
        if same_type(kept, ty) {
            return true;
        }
    }
    false
}

/// The hidden variables of these instructions, behind so many declared ones.
pub fn places_of(declared: u32, code: &[Instruction]) -> Places
    ensures declared { result.declared ≡ declared }
    ensures used { used_in result ≡ used_by code.now }
{
    Places {
        declared,
        bools: uses(code, Ty::Bool),
        ints: uses(code, Ty::Int),
        dints: uses(code, Ty::Dint),
        lints: uses(code, Ty::Lint),
    }
}

// 1 or 0.
fn one_if(b: bool) -> u32
    ensures is { result ≡ cond b 1 0 }
    ensures small { result ≤ 1 }
{
    if b { 1 } else { 0 }
}

impl Places {
    /// The number of the slot that keeps a result of the type.
    pub fn place(self, ty: Ty) -> u32
        requires { self.declared ≤ most_names }
        ensures { result ≡ place_in self ty }
    {
        match ty {
            Ty::Bool => self.declared,
            Ty::Int => self.declared + one_if(self.bools),
            Ty::Dint => self.declared + one_if(self.bools) + one_if(self.ints),
            Ty::Lint => {
                self.declared + one_if(self.bools) + one_if(self.ints) + one_if(self.dints)
            }
        }
    }
}

// Appends the variable that keeps a result of the type, where it is used.
fn add_hidden(alloc: Global, slots: &mut Slots, used: bool, ty: Ty, full: &mut bool)
    ensures { UnlessFull full.old full.new
        (slots.new.items.items ≡ slots.old.items.items ++ cond used (hidden_slot_of ty ∷ []) []) }
{
    if !used {
        return;
    }
    let name: &[u8] = match ty {
        Ty::Bool => b"_acc_bool",
        Ty::Int => b"_acc_int",
        Ty::Dint => b"_acc_dint",
        Ty::Lint => b"_acc_lint",
    };
    match Text::copy_of(alloc, name) {
        Ok(name) => match slots.push(Slot {
            name,
            spot: Spot { line: 0, col: 0 },
            section: Section::Local,
            ty,
            init: 0,
        }) {
            Ok(()) => {}
            Err(Memory) => *full = true,
        },
        Err(Memory) => *full = true,
    }
}

/// Appends the hidden variables. The flag is set where memory runs out, and then some may be missing.
pub fn add_all_hidden(alloc: Global, slots: &mut Slots, places: Places, full: &mut bool)
    ensures { UnlessFull full.old full.new
        (slots.new.items.items ≡ slots.old.items.items ++ hidden_slots (used_in places) all_types) }
{
    add_hidden(alloc, slots, places.bools, Ty::Bool, full);
    add_hidden(alloc, slots, places.ints, Ty::Int, full);
    add_hidden(alloc, slots, places.dints, Ty::Dint, full);
    add_hidden(alloc, slots, places.lints, Ty::Lint, full);
}
