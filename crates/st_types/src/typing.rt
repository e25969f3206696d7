//! The typing of programs.

ghost use Rattle.std.specs.Prelude.{◌≡◌, IfErr, IfOk, None, Some, false};
ghost use Rattle.st_tree.specs.ProgramTree.{ProgramTree};
ghost use Rattle.st_tree.specs.ProgramViews.{program_tree};
ghost use Rattle.vcp_typed.specs.SourceRun.{Program as TypedProgram};
ghost use Rattle.vcp_typed.specs.TStmtViews.{tstmt_trees};
ghost use Rattle.st_types.specs.declared.fault.TypeFault.TheVariants as told_;
ghost use Rattle.st_tree.specs.Declarable.{HasNames};
ghost use Rattle.st_types.specs.Faults.{IsLeast};
ghost use Rattle.st_types.specs.Notes.{Notes};
ghost use Rattle.st_types.specs.Typing.{FaultAt, IsFaultless, IsTyped, Refuses, typed_of};

use crate::declaration::declared;
use crate::environment::Environment;
use crate::fault::{Fault, Rule, TypeFault};
use crate::note::Noted;
use crate::place::name_at;
use crate::refusals::discard_body;
use st_tree::Program;
use std::alloc::Global;
use vcp_base::{MOST_NAMES, MOST_SIZE};
use vcp_typed::{Slots, TStmts, Typed, size_of};

// The answer that tells a fault.
fn told(fault: Fault) -> TypeFault
    ensures { (p : ProgramTree) → IsLeast (FaultAt p) fault → Refuses p result }
{
    let spot = fault.spot;
    match fault.rule {
        Rule::Duplicate => TypeFault::Duplicate { spot },
        Rule::Unknown => TypeFault::Unknown { spot },
        Rule::Mismatch => TypeFault::Mismatch { spot },
        Rule::Assign => TypeFault::Assign { spot },
        Rule::Bound => TypeFault::Bound { spot },
        Rule::Label => TypeFault::Label { spot },
        Rule::Call => TypeFault::Call { spot },
        Rule::Literal => TypeFault::Literal { spot },
    }
}

// The checked program of one without a fault, where it is within the limits.
fn limited(program: &Program, slots: Slots, body: TStmts) -> Result<Typed, TypeFault>
    requires names { HasNames (program_tree program.now) }
    requires faultless { IsFaultless (program_tree program.now) }
    requires is { typed_of (program_tree program.now) ≡ Some (record { slots = slots.items.items; body = tstmt_trees body.items.items }) }
    ensures ok { IfOk result (λ t. IsTyped (program_tree program.now) t) }
    ensures err { IfErr result (Refuses (program_tree program.now)) }
{
    if let Some(spot) = name_at(&program.blocks.items, MOST_NAMES as usize) {
        return Err(TypeFault::Names { spot });
    }
    let size = size_of(&slots, &body);
    if size > MOST_SIZE {
        return Err(TypeFault::Size);
    }
    Ok(Typed::new(slots, body))
}

// The least fault that was noted; else the checked program.
fn answered(program: &Program, slots: Slots, body: TStmts, noted: Noted) -> Result<Typed, TypeFault>
    requires names { HasNames (program_tree program.now) }
    requires notes { noted.full ≡ false → Notes None noted.first (FaultAt (program_tree program.now)) }
    requires is { noted.full ≡ false → noted.first ≡ None
        → typed_of (program_tree program.now) ≡ Some (record { slots = slots.items.items; body = tstmt_trees body.items.items }) }
    ensures ok { IfOk result (λ t. IsTyped (program_tree program.now) t) }
    ensures err { IfErr result (Refuses (program_tree program.now)) }
{
    if noted.full {
        discard_body(body);
        return Err(TypeFault::Memory);
    }
    match noted.first {
        Some(fault) => {
            discard_body(body);
            Err(told(fault))
        }
        None => limited(program, slots, body),
    }
}

/// The checked program of a tree: it has no fault, declares at most 1,024 names and has a Size of at most 65,536.
///
/// Each declared name has 1 to 1,048,576 bytes: a letter or `_`, and then letters, digits and `_`. Else the answer is the
/// fault whose place and number are least; where there is none, `Names` at the 1,025th name; then `Size`. `Memory` where
/// there is no room.
///
/// Slots are in order of declaration, widenings are put in, constants are replaced by their values, and
/// each FOR has its first value, step and number of turns. A checked program that the tree has is answered,
/// or `Memory`.
pub fn typed(alloc: Global, program: &Program) -> Result<Typed, TypeFault>
    requires names { HasNames (program_tree program.now) }
    ensures ok { IfOk result (λ t. IsTyped (program_tree program.now) t) }
    ensures err { IfErr result (Refuses (program_tree program.now)) }
    ensures only { (t : TypedProgram) → IsTyped (program_tree program.now) t → IfErr result (λ e. e ≡ told_.Memory) }
{
    let mut noted = Noted {
        first: None,
        full: false,
    };
    let made = declared(alloc, &program.blocks.items, &mut noted);
    let whole = Environment {
        alloc,
        names: &made.names,
        held: &[],
    };
    let body = whole.type_stmts(&program.body.items, &mut noted);
    answered(program, made.slots, body, noted)
}
