//! An instruction list's typed program, written as a program in Structured Text. Nothing is promised of the text here: it is read back before it is shown.

ghost use Rattle.std.specs.Prelude.{◌≤◌, length};
ghost use Rattle.il_front.specs.Answers.{most_il_bytes};

use itoa::Buffer;
use st_lexer::{LexFault, lex};
use st_tree::{Section, UnOp};
use st_writer::operator_text;
use std::alloc::Global;
use vcp_base::{Memory, Text, Ty, ty_name};
use vcp_typed::{Slot, TArm, TExpr, TStmt, Typed};

/// A text that grows at its end, until memory is wanted: it is given up then, and nothing more is put to it.
#[derive(Drop)]
struct Growing {
    bytes: Vec<u8>,
    is_given_up: bool,
}

/// The program that a list with this text and this typed program is, a statement an instruction, under the name that the list has.
pub(crate) fn rough_text(alloc: Global, list: &[u8], program: &Typed) -> Result<Text, Memory>
    requires { length list.now ≤ most_il_bytes }
{
    let text = Growing {
        bytes: Vec::new(alloc),
        is_given_up: false,
    };
    let slots = program.slots().items.as_slice();
    let mut text = text
        .put(b"PROGRAM ")
        .program_name(alloc, list)
        .put(b"\n")
        .blocks(slots);
    for stmt in &program.body().items {
        text = match stmt {
            TStmt::If { arms, .. } => match arms.items.as_slice() {
                [arm] => text.conditional(slots, arm),
                _ => text,
            },
            _ => text.assignment(slots, stmt),
        };
    }
    let Growing { bytes, is_given_up } = text.put(b"END_PROGRAM\n");
    if is_given_up {
        Err(Memory)
    } else {
        Ok(Text::from_vec(bytes))
    }
}

impl Growing {
    fn put(mut self, bytes: &[u8]) -> Growing {
        if self.is_given_up {
            return self;
        }
        match self.bytes.extend_from_slice(bytes) {
            Ok(()) => {}
            Err(_) => self.is_given_up = true,
        }
        self
    }

    /// The name of the program whose text this is: its second word.
    fn program_name(mut self, alloc: Global, list: &[u8]) -> Growing
        requires { length list.now ≤ most_il_bytes }
    {
        match lex(alloc, list) {
            Ok(tokens) => if tokens.len() >= 2 {
                let name = tokens.at(1);
                match list.get(name.from as usize..name.to as usize) {
                    Some(bytes) => self.put(bytes),
                    None => self,
                }
            } else {
                self
            },
            Err(LexFault::Memory) => {
                self.is_given_up = true;
                self
            }
            Err(_) => self,
        }
    }

    /// The declarations: a block for variables of one section that follow one another.
    fn blocks(self, slots: &[Slot]) -> Growing {
        let mut text = self;
        let mut open: &'static [u8] = b"";
        for slot in slots {
            let words: &'static [u8] = match slot.section {
                Section::Input => b"VAR_INPUT",
                Section::Output => b"VAR_OUTPUT",
                Section::Local => b"VAR",
                Section::Retain => b"VAR RETAIN",
                Section::Constant => b"VAR CONSTANT",
            };
            if words != open {
                text = text.end_block(open).put(words).put(b"\n");
                open = words;
            }
            text = text.declaration(slot);
        }
        text.end_block(open)
    }

    /// Ends a block, where one is open.
    fn end_block(self, open: &[u8]) -> Growing {
        if open.is_empty() {
            self
        } else {
            self.put(b"END_VAR\n")
        }
    }

    /// A variable with its type and, where that isn't 0, its initial value.
    fn declaration(self, slot: &Slot) -> Growing {
        let text = self
            .put(slot.name.bytes())
            .put(b" : ")
            .put(ty_name(slot.ty));
        let text = if slot.init == 0 {
            text
        } else {
            text.put(b" := ").literal(slot.ty, slot.init, true)
        };
        text.put(b";\n")
    }

    /// A value; without its type where that is plain.
    fn literal(self, ty: Ty, value: i64, plain: bool) -> Growing {
        if ty == Ty::Bool {
            return self.put(if value == 0 { b"FALSE" } else { b"TRUE" });
        }
        let text = if plain {
            self
        } else {
            self.put(ty_name(ty)).put(b"#")
        };
        text.put(Buffer::new().format(value).as_bytes())
    }

    /// A variable's name.
    fn variable(self, slots: &[Slot], slot: u32) -> Growing {
        match slots.get(slot as usize) {
            Some(slot) => self.put(slot.name.bytes()),
            None => self,
        }
    }

    /// What is assigned: a variable or a literal, which may be widened or behind a NOT, or an operator between two such operands.
    fn value(self, slots: &[Slot], value: &TExpr) -> Growing {
        match value {
            TExpr::Lit { ty, value, .. } => {
                // Whether a literal of the value that is written without a type has this one.
                let is_plain = match *ty {
                    Ty::Bool => false,
                    Ty::Int => true,
                    Ty::Dint => *value < -32768 || *value > 32767,
                    Ty::Lint => *value < -2147483648 || *value > 2147483647,
                };
                self.literal(*ty, *value, is_plain)
            }
            TExpr::Get { slot, .. } => self.variable(slots, *slot),
            TExpr::Widen { arg, .. } => self.value(slots, arg),
            TExpr::Unary {
                op: UnOp::Not,
                arg,
                ..
            } => self.put(b"NOT ").value(slots, arg),
            TExpr::Binary {
                op,
                left,
                right,
                ..
            } => {
                self.value(slots, left)
                    .put(operator_text(*op))
                    .value(slots, right)
            }
            _ => self,
        }
    }

    /// An assignment.
    fn assignment(self, slots: &[Slot], stmt: &TStmt) -> Growing {
        match stmt {
            TStmt::Assign { slot, value, .. } => {
                self.variable(slots, *slot)
                    .put(b" := ")
                    .value(slots, value)
                    .put(b";\n")
            }
            _ => self,
        }
    }

    /// IF with one condition, and assignments in its body.
    fn conditional(self, slots: &[Slot], arm: &TArm) -> Growing {
        let mut text = self.put(b"IF ").value(slots, &arm.cond).put(b" THEN\n");
        for stmt in &arm.body.items {
            text = text.assignment(slots, stmt);
        }
        text.put(b"END_IF;\n")
    }
}
