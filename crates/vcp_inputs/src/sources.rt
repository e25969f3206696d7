//! Sources: the program of a file, and its typed program.

ghost use Rattle.std.specs.Prelude.{◌≡◌, ◌≢◌, ◌≤◌, ℕ, IfErr, IfOk, IfSome, List, OnOk, Some, Err, length};
ghost use Rattle.std.specs.Io.KnownBytes.{IsAtEnd};
ghost use Rattle.vcp_base.specs.Limits.{most_source_bytes};
ghost use Rattle.vcp_outside.specs.Counts.{Rose};
ghost use Rattle.st_tree.specs.ProgramViews.{program_tree};
ghost use Rattle.vcp_inputs.specs.Files.{Untaken, LeavesLong, Loads};
ghost use Rattle.vcp_inputs.specs.Programs.{IsProgram, NoProgram, NotTyped, TypedOf, IsTreeOf};
ghost use Rattle.vcp_inputs.specs.Refusals.{IsCaused};
ghost use Rattle.vcp_inputs.specs.declared.refusal.NoInput.TheVariants as input;
ghost use Rattle.vcp_inputs.specs.declared.refusal.Refusal.{Refusal as RefusalOf};
ghost use Rattle.vcp_inputs.specs.declared.refusal.Refusal.TheVariants as refusal;

use crate::alike::taken_beside;
use crate::reading::read_file;
use crate::refusal::{NoInput, Refusal};
use st_lexer::{LexFault, lex};
use st_parser::{SyntaxFault, parse};
use st_tree::{Program, spelled_names_are_declarable};
use st_types::{TypeFault, typed};
use std::alloc::Global;
use vcp_base::{MOST_SOURCE_BYTES, Text};
use vcp_outside::Files;
use vcp_typed::Typed;

/// The program of a source, taken through the refusals of the lexer and the parser.
pub fn program_of(alloc: Global, source: &[u8]) -> Result<Program, NoInput>
    requires short { length source.now ≤ most_source_bytes }
    ensures ok { IfOk result (λ p. IsProgram source.now (program_tree p)) }
    ensures err { IfErr result (Untaken (NoProgram source.now)) }
    ensures caused { IfErr result IsCaused }
{
    let tokens = match lex(alloc, source) {
        Ok(tokens) => tokens,
        Err(LexFault::Memory) => return Err(NoInput::Memory),
        Err(fault) => return Err(NoInput::Refused(Refusal::Lexing(fault))),
    };
    match parse(alloc, source, &tokens) {
        Ok(program) => Ok(program),
        Err(SyntaxFault::Memory) => Err(NoInput::Memory),
        Err(fault) => Err(NoInput::Refused(Refusal::Parsing(fault))),
    }
}

/// How often a typed program is made of its source before it is taken.
#[derive(Clone, Copy)]
pub enum HowOften {
    /// Once.
    Once,
    /// Twice, and it is taken where both have the same operations, which they have. Where the processor erred in one of the two, they
    /// may not, and then it isn't taken, as for want of memory.
    Twice,
}

/// The typed program of a source, or why there is none, made as often as is wanted.
fn typed_program(alloc: Global, source: &[u8], how_often: HowOften) -> Result<Typed, NoInput>
    requires short { length source.now ≤ most_source_bytes }
    ensures ok { IfOk result (TypedOf source.now) }
    ensures err { IfErr result (Untaken (NotTyped source.now)) }
    ensures caused { IfErr result IsCaused }
{
    let program = match typed_once(alloc, source) {
        Ok(program) => program,
        Err(input) => return Err(input),
    };
    match how_often {
        HowOften::Once => Ok(program),
        HowOften::Twice => match typed_once(alloc, source) {
            Ok(again) => taken_beside(alloc, program, &again),
            Err(input) => Err(input),
        },
    }
}

/// The typed program of a source, or why there is none.
fn typed_once(alloc: Global, source: &[u8]) -> Result<Typed, NoInput>
    requires short { length source.now ≤ most_source_bytes }
    ensures ok { IfOk result (TypedOf source.now) }
    ensures err { IfErr result (Untaken (NotTyped source.now)) }
    ensures caused { IfErr result IsCaused }
{
    // So each declared name is one that may be.
    spelled_names_are_declarable();
    match program_of(alloc, source) {
        Ok(program) => match typed(alloc, &program) {
            Ok(typed) => Ok(typed),
            Err(TypeFault::Memory) => Err(NoInput::Memory),
            Err(fault) => Err(NoInput::Refused(Refusal::Typing(fault))),
        },
        Err(input) => Err(input),
    }
}

/// The typed program of a source that no file holds, taken through all refusals of a file's: first
/// `Bytes`.
pub fn typed_of(alloc: Global, source: &Text, how_often: HowOften) -> Result<Typed, NoInput>
    ensures loads { (name : List ℕ) (broken : ℕ) → Loads TypedOf NotTyped (λ _. Some source.now) name most_source_bytes broken broken result }
    ensures read { result ≢ Err input.Unread }
    ensures caused { IfErr result IsCaused }
{
    if source.len() as u64 > MOST_SOURCE_BYTES {
        return Err(NoInput::Refused(Refusal::Bytes));
    }
    typed_program(alloc, source.bytes(), how_often)
}

/// The program of the file under a name, which is read whole and checked for the faults of the lexer and
/// the parser. The program is the one that the tokens spell; or the first fault is answered: its length, then
/// the lexer's, the parser's.
pub fn load_program<F: Files>(alloc: Global, files: &mut F, name: &Text) -> Result<Program, NoInput>
    // What is answered: the file's program, or why there is none.
    ensures loads { IfSome (F.seen files.old).held (λ h. Loads IsTreeOf NoProgram h name.now most_source_bytes (F.seen files.old).broken (F.seen files.new).broken result) }
    ensures unread { result ≡ Err input.Unread → Rose (F.seen files.old).faults (F.seen files.new).faults }
    // Where it is refused, that is no want of memory, whatever the files tell.
    ensures caused { IfErr result IsCaused }
    // What was taken of the file: all, unless it has too many bytes.
    ensures ended { OnOk result (IsAtEnd (F.seen files.new).rest) }
    ensures whole { (r : RefusalOf) → result ≡ Err (input.Refused r) → r ≢ refusal.Bytes → IsAtEnd (F.seen files.new).rest }
    ensures left { result ≡ Err (input.Refused refusal.Bytes) → IfSome (F.seen files.old).held (LeavesLong name.now most_source_bytes (F.seen files.new).rest) }
    // What stays.
    ensures stayed { result ≢ Err input.Unread → (F.seen files.new).faults ≡ (F.seen files.old).faults }
    ensures held { (F.seen files.new).held ≡ (F.seen files.old).held }
    ensures later { (F.seen files.old).faults ≤ (F.seen files.new).faults }
    ensures broken_later { (F.seen files.old).broken ≤ (F.seen files.new).broken }
{
    match read_file(alloc, files, name, MOST_SOURCE_BYTES) {
        Ok(source) => program_of(alloc, source.bytes()),
        Err(input) => Err(input),
    }
}

/// The typed program of the file under a name, which is read whole, or why there is none. Its
/// text and tokens are not kept. It is the checked program of the one program that the tokens spell; or the
/// first fault is answered: its length, then the lexer's, the parser's, typing's.
pub fn load_typed<F: Files>(
    alloc: Global,
    files: &mut F,
    name: &Text,
    how_often: HowOften,
) -> Result<Typed, NoInput>
    // What is answered: the file's typed program, or why there is none.
    ensures loads { IfSome (F.seen files.old).held (λ h. Loads TypedOf NotTyped h name.now most_source_bytes (F.seen files.old).broken (F.seen files.new).broken result) }
    ensures unread { result ≡ Err input.Unread → Rose (F.seen files.old).faults (F.seen files.new).faults }
    // Where it is refused, that is no want of memory, whatever the files tell.
    ensures caused { IfErr result IsCaused }
    // What was taken of the file: all, unless it has too many bytes.
    ensures ended { OnOk result (IsAtEnd (F.seen files.new).rest) }
    ensures whole { (r : RefusalOf) → result ≡ Err (input.Refused r) → r ≢ refusal.Bytes → IsAtEnd (F.seen files.new).rest }
    ensures left { result ≡ Err (input.Refused refusal.Bytes) → IfSome (F.seen files.old).held (LeavesLong name.now most_source_bytes (F.seen files.new).rest) }
    // What stays.
    ensures stayed { result ≢ Err input.Unread → (F.seen files.new).faults ≡ (F.seen files.old).faults }
    ensures held { (F.seen files.new).held ≡ (F.seen files.old).held }
    ensures later { (F.seen files.old).faults ≤ (F.seen files.new).faults }
    ensures broken_later { (F.seen files.old).broken ≤ (F.seen files.new).broken }
{
    match read_file(alloc, files, name, MOST_SOURCE_BYTES) {
        Ok(source) => typed_program(alloc, source.bytes(), how_often),
        Err(input) => Err(input),
    }
}
