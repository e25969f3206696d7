//! What operands mean.

ghost use Rattle.std.specs.Prelude.{◌≡◌, ◌≤◌, [], IfOk, List, option_map, length};
ghost use Rattle.vcp_base.specs.Limits.{most_names};
ghost use Rattle.st_types.specs.ExprTyping.{literal_type as literal_type_of};
ghost use Rattle.vcp_typed.specs.declared.slot.Slot.{Slot as SlotOf};
ghost use Rattle.vcp_typed.specs.Checked.{SlotsFit};
ghost use Rattle.il_front.specs.Judging.{variable_from, meant_variable, meant_number as meant_number_of, meant as meant_of};
ghost use Rattle.il_front.specs.Tables.{Tells};
ghost use Rattle.il_front.specs.Writings.{InsideWriting, written_in};

use crate::instruction::Operand;
use crate::line::Writing;
use st_types::{Entry, Names, is_set, literal_type};
use std::alloc::Global;
use vcp_base::{Memory, Text, Ty};
use vcp_typed::Slots;

/// What an operand means: a variable or a literal, and whether it may be set.
#[derive(Clone, Copy)]
pub struct Meant {
    pub operand: Operand,
    pub set: bool,
}

/// The table of the variables.
pub fn table_of(alloc: Global, slots: &Slots) -> Result<Names, Memory>
    requires fit { SlotsFit [] slots.now.items.items }
    requires few { length slots.now.items.items ≤ most_names }
    ensures { IfOk result (λ names. Tells names slots.now.items.items) }
{
    let mut names = Names::new(alloc);
    for i in 0..slots.len() {
        let slot = slots.at(i);
        match Text::copy_of(alloc, slot.name.bytes()) {
            Ok(name) => match names.declare(Entry {
                name,
                section: slot.section,
                ty: slot.ty,
                value: 0,
                slot: i as u32,
            }) {
                Ok(_) => {}
                Err(Memory) => return Err(Memory),
            },
            Err(Memory) => return Err(Memory),
        }
    }
    Ok(names)
}

// The variable of a name.
fn variable(names: &Names, name: &[u8]) -> Option<Meant>
    ensures { (slots : List SlotOf) → Tells names.now slots → result ≡ option_map meant_variable (variable_from 0 slots name.now) }
{
    match names.find(name) {
        None => None,
        Some(x) => Some(Meant {
            operand: Operand::Variable {
                slot: x.slot,
                ty: x.ty,
            },
            set: is_set(x.section),
        }),
    }
}

// A literal, which nothing sets; none where it is outside its type.
fn number(ty: Option<Ty>, value: i64) -> Option<Meant>
    ensures { result ≡ option_map (meant_number_of value) (literal_type_of ty value) }
{
    match literal_type(ty, value) {
        None => None,
        Some(ty) => Some(Meant {
            operand: Operand::Number { ty, value },
            set: false,
        }),
    }
}

/// What a written operand means; none where its name is no variable, or its literal isn't in its type.
pub fn meaning(text: &[u8], names: &Names, operand: Writing) -> Option<Meant>
    requires { InsideWriting text.now operand }
    ensures { (slots : List SlotOf) → Tells names.now slots → result ≡ meant_of slots (written_in text.now operand) }
{
    match operand {
        Writing::Nothing => Some(Meant {
            operand: Operand::Number {
                ty: Ty::Bool,
                value: 0,
            },
            set: false,
        }),
        Writing::Name(t) => variable(names, &text[t.from as usize..t.to as usize]),
        Writing::Number { ty, value } => number(ty, value),
        Writing::Negative { value } => match value.checked_neg() {
            None => None,
            Some(value) => number(None, value),
        },
    }
}
