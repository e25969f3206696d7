//! The reading of instruction lists.

ghost use Rattle.std.specs.Prelude.{◌≡◌, ◌≤◌, IfErr, IfOk, ℕ, List, All, length};
ghost use Rattle.vcp_base.specs.Limits.{most_names};
ghost use Rattle.st_lexer.specs.Reading.{Reads, IsInside};
ghost use Rattle.st_lexer.specs.Spots.{spot_at};
ghost use Rattle.vcp_typed.specs.TStmtViews.{tstmt_trees};
ghost use Rattle.il_front.specs.declared.fault.IlFault.TheVariants as il_;
ghost use Rattle.il_front.specs.Accumulator.{Il};
ghost use Rattle.il_front.specs.Answers.{most_il_bytes, IsIl, NotIl};
ghost use Rattle.il_front.specs.Heads.{IsHeadOf};
ghost use Rattle.il_front.specs.Outcomes.{IsBeyond, Builds, IsTypedIl, RunsAsListed};

use crate::fault::IlFault;
use crate::head::{head, head_count};
use crate::instruction::Instruction;
use crate::judging::listed;
use crate::laws::{accumulator_runs, il_answers_are_one};
use crate::places::{add_all_hidden, places_of};
use crate::statements::statements;
use st_lexer::{Tokens, lex};
use st_types::{
    TypeFault, faultless_programs_are_checked, slots_have_declared_names, widened_parts_are_checked,
};
use std::alloc::Global;
use vcp_base::{MOST_NAMES, MOST_SIZE, Spot};
use vcp_typed::{Slots, TStmts, Typed, size_of};

/// The most bytes of a text of instructions: those of a source without the twelve that are added behind it.
pub const MOST_IL_BYTES: u64 = 1_048_564;

// Appends the hidden variables of these instructions to the declared ones, and gives the statements, where the typed program
// is within the limits.
fn built(alloc: Global, slots: &mut Slots, code: &[Instruction]) -> Result<TStmts, IlFault>
    requires { length slots.old.items.items ≤ most_names }
    ensures ok { IfOk result
        (λ b. Builds (record { slots = slots.old.items.items; code = code.now }) slots.new.items.items (tstmt_trees b.items.items)) }
    ensures err { IfErr result (IsBeyond (record { slots = slots.old.items.items; code = code.now })) }
{
    let places = places_of(slots.len() as u32, code);
    let mut full = false;
    add_all_hidden(alloc, slots, places, &mut full);
    if full {
        return Err(IlFault::Memory);
    }
    if slots.len() > MOST_NAMES as usize {
        return Err(IlFault::Types(TypeFault::Names {
            spot: Spot { line: 1, col: 1 },
        }));
    }
    // the Size of each statement is 1 or more, so none is made of too many
    if code.len() > MOST_SIZE as usize {
        return Err(IlFault::Types(TypeFault::Size));
    }
    let body = statements(alloc, places, code, &mut full);
    if full {
        return Err(IlFault::Memory);
    }
    if size_of(slots, &body) > MOST_SIZE {
        return Err(IlFault::Types(TypeFault::Size));
    }
    Ok(body)
}

// The typed program of a text whose head is this one.
fn behind(alloc: Global, text: &[u8], tokens: &Tokens, head: Typed) -> Result<Typed, IlFault>
    requires head { IsHeadOf text.now tokens.now.tokens head }
    requires inside { All (IsInside text.now) tokens.now.tokens }
    requires end { tokens.now.end ≡ spot_at text.now (length text.now) }
    ensures ok { IfOk result (IsTypedIl text.now) }
    ensures err { IfErr result (NotIl text.now) }
{
    widened_parts_are_checked();
    slots_have_declared_names();
    faultless_programs_are_checked();
    let code = match listed(alloc, text, head.slots(), tokens, head_count(tokens)) {
        Ok(code) => code,
        Err(fault) => return Err(fault),
    };
    let mut slots = head.into_slots();
    match built(alloc, &mut slots, &code) {
        Ok(body) => Ok(Typed::new(slots, body)),
        Err(fault) => Err(fault),
    }
}

// The typed program of a text of instructions, or its first fault.
fn read(alloc: Global, text: &[u8]) -> Result<Typed, IlFault>
    requires { length text.now ≤ most_il_bytes }
    ensures ok { IfOk result (IsTypedIl text.now) }
    ensures err { IfErr result (NotIl text.now) }
{
    let tokens = match lex(alloc, text) {
        Ok(tokens) => tokens,
        Err(fault) => return Err(IlFault::from(fault)),
    };
    match head(alloc, text, &tokens) {
        Ok(head) => behind(alloc, text, &tokens, head),
        Err(fault) => Err(fault),
    }
}

/// The typed program of a text of instructions, or its first fault; or want of memory.
///
/// The text has at most 1,048,564 bytes, so that with END_PROGRAM behind it it is a source. Time is linear in the text, but for a
/// look-up of a name in each instruction.
///
/// The program has the head's variables, the hidden ones, and one statement an instruction; over every list
/// of rows it has the rows and the end of the run on an accumulator. Of faults the first is answered: of
/// tokens, of the head, of its names, of the first line that has one, of the limits. An instruction list is
/// answered, or `Memory`.
pub fn read_il(alloc: Global, text: &[u8]) -> Result<Typed, IlFault>
    requires { length text.now ≤ most_il_bytes }
    ensures ok { IfOk result (IsTypedIl text.now) }
    ensures runs { IfOk result (RunsAsListed text.now) }
    ensures err { IfErr result (NotIl text.now) }
    ensures only { (i : Il) → IsIl text.now i → IfErr result (λ e. e ≡ il_.Memory) }
{
    accumulator_runs();
    il_answers_are_one();
    read(alloc, text)
}
