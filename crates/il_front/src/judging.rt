//! The judging of lines.

ghost use Rattle.std.specs.Prelude.{◌≡◌, ◌⊎◌, ◌≤◌, [], IfErr, IfOk, List, Ok, Err, All, drop, length};
ghost use Rattle.std.specs.Prelude.{OnOk};
ghost use Rattle.vcp_base.specs.Limits.{most_names};
ghost use Rattle.st_lexer.specs.declared.token.Token.{Token as TokenOf};
ghost use Rattle.st_lexer.specs.Reading.{IsInside};
ghost use Rattle.vcp_typed.specs.declared.slot.Slot.{Slot as SlotOf};
ghost use Rattle.vcp_typed.specs.Checked.{SlotsFit};
ghost use Rattle.il_front.specs.declared.fault.IlFault.TheVariants as fault_;
ghost use Rattle.il_front.specs.Judging.{type_behind as type_behind_of, typed_line, placed_line, judged as judged_of};
ghost use Rattle.il_front.specs.Judging.{listed as listed_of};
ghost use Rattle.il_front.specs.Lines.{lines_of};
ghost use Rattle.il_front.specs.Outcomes.{Judges};
ghost use Rattle.il_front.specs.Tables.{Tells};
ghost use Rattle.il_front.specs.Writings.{AreWords, AreInside};

use crate::fault::IlFault;
use crate::instruction::{Action, Instruction};
use crate::line::{Words, is_last_word, line_end, line_of, line_words};
use crate::operand::{meaning, table_of};
use crate::operator::sets;
use crate::types::{action_of, type_behind};
use st_lexer::Tokens;
use st_types::Names;
use std::alloc::Global;
use vcp_base::{Memory, Spot, Ty};
use vcp_typed::Slots;

/// An instruction, with the type of the result behind it.
#[derive(Clone, Copy)]
pub struct Taken {
    pub instruction: Instruction,
    pub ty: Ty,
}

// An instruction behind a result of this type.
fn typed_as(ty: Ty, instruction: Instruction) -> Result<Taken, IlFault>
    ensures { Judges result (typed_line instruction (type_behind_of ty instruction.action)) }
{
    match type_behind(ty, instruction.action) {
        None => Err(IlFault::Mismatch {
            spot: instruction.spot,
        }),
        Some(ty) => Ok(Taken { instruction, ty }),
    }
}

// An instruction behind a result of the type `before`, or as the first one.
fn placed(before: Option<Ty>, instruction: Instruction) -> Result<Taken, IlFault>
    ensures { Judges result (placed_line before instruction) }
{
    match before {
        None => match instruction.action {
            Action::Load { .. } => typed_as(Ty::Bool, instruction),
            Action::Store { .. }
            | Action::Put { .. }
            | Action::Complement
            | Action::Combine { .. } => Err(IlFault::Empty {
                spot: instruction.spot,
            }),
        },
        Some(ty) => typed_as(ty, instruction),
    }
}

// A line of these tokens, the first of which stands at `spot`.
fn judged(
    text: &[u8],
    names: &Names,
    before: Option<Ty>,
    words: Words,
    spot: Spot,
) -> Result<Taken, IlFault>
    requires { AreInside text.now words }
    ensures { (slots : List SlotOf) (l : List TokenOf) → Tells names.now slots → AreWords words l → Judges result (judged_of text.now slots before spot l) }
{
    let Some(line) = line_of(text, words) else {
        return Err(IlFault::Instruction { spot });
    };
    let Some(meant) = meaning(text, names, line.operand) else {
        return Err(IlFault::Operand { spot: line.at });
    };
    if sets(line.operator) && !meant.set {
        return Err(IlFault::Target { spot: line.at });
    }
    placed(
        before,
        Instruction {
            action: action_of(line.operator, meant.operand),
            spot: line.spot,
            at: line.at,
        },
    )
}

// Appends the instructions of the lines of the tokens from place `from` on.
fn append_lines(
    text: &[u8],
    names: &Names,
    tokens: &Tokens,
    from: usize,
    code: &mut Vec<Instruction>,
) -> Result<(), IlFault>
    requires none { code.old.items ≡ [] }
    requires inside { All (IsInside text.now) tokens.now.tokens }
    requires from { from ≤ length tokens.now.tokens }
    ensures ok { (slots : List SlotOf) → Tells names.now slots
        → OnOk result (listed_of text.now slots tokens.now.end None (lines_of (drop from tokens.now.tokens)) ≡ Ok code.new.items) }
    ensures err { (slots : List SlotOf) → Tells names.now slots → IfErr result (λ f. (f ≡ fault_.Memory)
        ⊎ (listed_of text.now slots tokens.now.end None (lines_of (drop from tokens.now.tokens)) ≡ Err f)) }
{
    let mut before = None;
    let mut at = from;
    'lines: while at < tokens.len() {
        let spot = tokens.at(at).spot;
        let to = line_end(tokens, at);
        let line = line_words(tokens, at, to);
        if is_last_word(line) {
            if to < tokens.len() {
                return Err(IlFault::Instruction { spot });
            }
            return Ok(());
        }
        match judged(text, names, before, line, spot) {
            Ok(taken) => match code.push(taken.instruction) {
                Ok(()) => {
                    before = Some(taken.ty);
                    at = to;
                }
                Err(_) => return Err(IlFault::Memory),
            },
            Err(fault) => return Err(fault),
        }
    }
    Err(IlFault::Instruction { spot: tokens.end() })
}

/// The instructions of the lines of the tokens from place `from` on, or the fault of the first line that has one. The last line
/// is END_PROGRAM alone.
pub fn listed(
    alloc: Global,
    text: &[u8],
    slots: &Slots,
    tokens: &Tokens,
    from: usize,
) -> Result<Vec<Instruction>, IlFault>
    requires fit { SlotsFit [] slots.now.items.items }
    requires few { length slots.now.items.items ≤ most_names }
    requires inside { All (IsInside text.now) tokens.now.tokens }
    requires from { from ≤ length tokens.now.tokens }
    ensures ok { IfOk result (λ code. listed_of text.now slots.now.items.items tokens.now.end None (lines_of (drop from tokens.now.tokens)) ≡ Ok code.items) }
    ensures err { IfErr result (λ f. (f ≡ fault_.Memory)
        ⊎ (listed_of text.now slots.now.items.items tokens.now.end None (lines_of (drop from tokens.now.tokens)) ≡ Err f)) }
{
    let names = match table_of(alloc, slots) {
        Ok(names) => names,
        Err(Memory) => return Err(IlFault::Memory),
    };
    let mut code = Vec::new(alloc);
    match append_lines(text, &names, tokens, from, &mut code) {
        Ok(()) => Ok(code),
        Err(fault) => Err(fault),
    }
}
