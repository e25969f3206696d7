//! The variables that statements set.

ghost use Rattle.std.specs.Prelude.{◌≡◌, ◌⊎◌, IfOk, option_map};
ghost use Rattle.vcp_typed.specs.Checked.{is_set as is_set_of};
ghost use Rattle.st_types.specs.declared.fault.Rule.TheVariants as rule_;
ghost use Rattle.st_types.specs.Faults.{fault};
ghost use Rattle.st_types.specs.Notes.{Notes};
ghost use Rattle.st_types.specs.StmtTyping.{is_free as is_free_of, is_constant as is_constant_of, entry_type, held_in as held_in_of};
ghost use Rattle.st_types.specs.StmtTyping.{NameFault, IsBool};

use crate::fault::{Fault, Rule};
use crate::names::Entry;
use crate::note::note;
use st_tree::Section;
use std::alloc::Global;
use vcp_base::{Memory, Spot, Ty, append, is_bool};

/// Whether statements may set variables of the section.
pub fn is_set(section: Section) -> bool
    ensures { result ≡ is_set_of section }
{
    match section {
        Section::Output | Section::Local | Section::Retain => true,
        Section::Input | Section::Constant => false,
    }
}

/// Whether names of the section are constants.
pub(crate) fn is_constant(section: Section) -> bool
    ensures { result ≡ is_constant_of section }
{
    match section {
        Section::Constant => true,
        Section::Input | Section::Output | Section::Local | Section::Retain => false,
    }
}

/// Whether the variable may be set inside FORs over these slots.
pub(crate) fn is_free(held: &[u32], x: &Entry) -> bool
    ensures { result ≡ is_free_of held.now x.now }
{
    is_set(x.section) && !held.contains(&x.slot)
}

/// Notes what speaks against setting what was found.
pub(crate) fn name_fault(held: &[u32], x: Option<&Entry>, spot: Spot, first: &mut Option<Fault>)
    ensures { Notes first.old first.new (NameFault held.now (option_map (λ e. e.now) x.entry) spot) }
{
    match x {
        None => note(first, Rule::Unknown, spot),
        Some(x) => {
            if !is_free(held, x) {
                note(first, Rule::Assign, spot);
            }
        }
    }
}

/// The type of what was found as a control variable: notes what speaks against setting it, and that it is BOOL.
pub(crate) fn control_type(
    held: &[u32],
    x: Option<&Entry>,
    spot: Spot,
    first: &mut Option<Fault>,
) -> Option<Ty>
    ensures notes { Notes first.old first.new
        (λ f. NameFault held.now (option_map (λ e. e.now) x.entry) spot f ⊎ ((f ≡ fault rule_.Mismatch spot) × IsBool result)) }
    ensures ty { result ≡ entry_type (option_map (λ e. e.now) x.entry) }
{
    name_fault(held, x, spot, first);
    let Some(x) = x else {
        return None;
    };
    if !is_bool(x.ty) {
        return Some(x.ty);
    }
    note(first, Rule::Mismatch, spot);
    Some(x.ty)
}

/// The slots of the FORs round the body of one over what was found.
pub(crate) fn held_in(alloc: Global, held: &[u32], x: Option<&Entry>) -> Result<Vec<u32>, Memory>
    ensures { IfOk result (λ r. r.items ≡ held_in_of held.now (option_map (λ e. e.now) x.entry)) }
{
    let Ok(mut inner) = held.to_vec(alloc) else {
        return Err(Memory);
    };
    if let Some(x) = x {
        if !is_constant(x.section) {
            match append(&mut inner, x.slot) {
                Ok(()) => {}
                Err(Memory) => return Err(Memory),
            }
        }
    }
    Ok(inner)
}
