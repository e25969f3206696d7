//! An instruction list as a program in Structured Text that has the same run.

ghost use Rattle.std.specs.Prelude.{◌≤◌, IfOk, IfSome, IsTrue, length};
ghost use Rattle.il_front.specs.Answers.{most_il_bytes};
ghost use Rattle.vcp_study_core.specs.ListTexts.{IsCanonicalOf, IsItsCanonical, IsTextFor, HasSameGraph, HaveSameGraph};

use crate::rough_text::rough_text;
use crate::same_graphs::same_but_for_places;
use st_writer::write_program;
use std::alloc::Global;
use vcp_base::{MOST_SOURCE_BYTES, Memory, Text};
use vcp_inputs::{HowOften, NoInput, graph_of, program_of, typed_of};
use vcp_typed::Typed;

/// The canonical text of the program that a text is; None where it is none.
fn canonical_of(alloc: Global, text: &Text) -> Result<Option<Text>, Memory>
    ensures { IfOk result (λ found. IfSome found (λ t. IsCanonicalOf text.now t)) }
{
    if text.len() as u64 > MOST_SOURCE_BYTES {
        return Ok(None);
    }
    match program_of(alloc, text.bytes()) {
        Ok(program) => match write_program(alloc, &program) {
            Ok(canonical) => Ok(Some(canonical)),
            Err(Memory) => Err(Memory),
        },
        Err(NoInput::Memory) => Err(Memory),
        Err(_) => Ok(None),
    }
}

/// Whether a text is the canonical text of the program that it is, as far as is found.
fn is_canonical(alloc: Global, text: &Text) -> Result<bool, Memory>
    ensures { IfOk result (λ is. IsTrue is → IsItsCanonical text.now) }
{
    match canonical_of(alloc, text) {
        Ok(Some(canonical)) => Ok(canonical.bytes() == text.bytes()),
        Ok(None) => Ok(false),
        Err(Memory) => Err(Memory),
    }
}

/// Whether two programs have the same graph, but for places, as far as is found.
fn have_same_graph(alloc: Global, program: &Typed, other: &Typed) -> Result<bool, Memory>
    ensures { IfOk result (λ is. IsTrue is → HaveSameGraph program.now other.now) }
{
    match graph_of(alloc, program) {
        Ok(graph) => match graph_of(alloc, other) {
            Ok(beside) => Ok(same_but_for_places(&graph, &beside)),
            Err(Memory) => Err(Memory),
        },
        Err(Memory) => Err(Memory),
    }
}

/// Whether a text is a program in Structured Text with the graph that this one has, but for places, as far as is found.
fn has_same_graph(alloc: Global, text: &Text, program: &Typed) -> Result<bool, Memory>
    ensures { IfOk result (λ is. IsTrue is → HasSameGraph program.now text.now) }
{
    match typed_of(alloc, text, HowOften::Once) {
        Ok(other) => have_same_graph(alloc, program, &other),
        Err(NoInput::Memory) => Err(Memory),
        Err(_) => Ok(false),
    }
}

/// The canonical text of a program in Structured Text that has the run of a list with this text and this typed program; None where none is found.
pub(crate) fn text_for(alloc: Global, list: &[u8], program: &Typed) -> Result<Option<Text>, Memory>
    requires { length list.now ≤ most_il_bytes }
    ensures { IfOk result (λ found. IfSome found (IsTextFor program.now)) }
{
    let rough = match rough_text(alloc, list, program) {
        Ok(rough) => rough,
        Err(Memory) => return Err(Memory),
    };
    let text = match canonical_of(alloc, &rough) {
        Ok(Some(text)) => text,
        Ok(None) => return Ok(None),
        Err(Memory) => return Err(Memory),
    };
    if !is_canonical(alloc, &text)? {
        return Ok(None);
    }
    match has_same_graph(alloc, &text, program) {
        Ok(true) => Ok(Some(text)),
        Ok(false) => Ok(None),
        Err(Memory) => Err(Memory),
    }
}
