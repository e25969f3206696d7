//! Instruction lists: the typed program of a file.

ghost use Rattle.std.specs.Prelude.{◌≡◌, ◌≢◌, ◌≤◌, IfErr, IfOk, IfSome, OnOk, Err, length};
ghost use Rattle.std.specs.Io.KnownBytes.{IsAtEnd};
ghost use Rattle.vcp_outside.specs.Counts.{Rose};
ghost use Rattle.il_front.specs.Answers.{most_il_bytes};
ghost use Rattle.il_front.specs.Outcomes.{IsTypedIl};
ghost use Rattle.vcp_inputs.specs.Files.{Untaken, LeavesLong, Loads};
ghost use Rattle.vcp_inputs.specs.Listings.{NotListing};
ghost use Rattle.vcp_inputs.specs.Refusals.{IsCaused};
ghost use Rattle.vcp_inputs.specs.declared.refusal.NoInput.TheVariants as input;
ghost use Rattle.vcp_inputs.specs.declared.refusal.Refusal.{Refusal as RefusalOf};
ghost use Rattle.vcp_inputs.specs.declared.refusal.Refusal.TheVariants as refusal;

use crate::alike::taken_beside;
use crate::reading::read_file;
use crate::refusal::{NoInput, Refusal};
use il_front::{IlFault, MOST_IL_BYTES, read_il};
use std::alloc::Global;
use vcp_base::Text;
use vcp_outside::Files;
use vcp_typed::Typed;

/// The typed program of a text of instructions, or why there is none.
pub fn listed_program(alloc: Global, text: &[u8]) -> Result<Typed, NoInput>
    requires short { length text.now ≤ most_il_bytes }
    ensures ok { IfOk result (IsTypedIl text.now) }
    ensures err { IfErr result (Untaken (NotListing text.now)) }
    ensures caused { IfErr result IsCaused }
{
    match read_il(alloc, text) {
        Ok(program) => Ok(program),
        Err(IlFault::Memory) => Err(NoInput::Memory),
        Err(fault) => Err(NoInput::Refused(Refusal::Listing(fault))),
    }
}

/// That program, made twice, and taken where both have the same operations, which they have. Where the processor erred in one of the
/// two, they may not, and then it isn't taken, as for want of memory.
fn listed_twice(alloc: Global, text: &[u8]) -> Result<Typed, NoInput>
    requires short { length text.now ≤ most_il_bytes }
    ensures ok { IfOk result (IsTypedIl text.now) }
    ensures err { IfErr result (Untaken (NotListing text.now)) }
    ensures caused { IfErr result IsCaused }
{
    match listed_program(alloc, text) {
        Ok(program) => match listed_program(alloc, text) {
            Ok(again) => taken_beside(alloc, program, &again),
            Err(input) => Err(input),
        },
        Err(input) => Err(input),
    }
}

/// The typed program of the instruction list under a name, which is read whole, or why
/// there is none. Its text and tokens are not kept. It is refused by its length, and then by its first fault as
/// `read_il` has it.
pub fn load_il<F: Files>(alloc: Global, files: &mut F, name: &Text) -> Result<Typed, NoInput>
    // What is answered: the typed program of the file's instruction list, or why there is none.
    ensures loads { IfSome (F.seen files.old).held (λ h. Loads IsTypedIl NotListing h name.now most_il_bytes (F.seen files.old).broken (F.seen files.new).broken result) }
    ensures unread { result ≡ Err input.Unread → Rose (F.seen files.old).faults (F.seen files.new).faults }
    // Where it is refused, that is no want of memory, whatever the files tell.
    ensures caused { IfErr result IsCaused }
    // What was taken of the file: all, unless it has too many bytes.
    ensures ended { OnOk result (IsAtEnd (F.seen files.new).rest) }
    ensures whole { (r : RefusalOf) → result ≡ Err (input.Refused r) → r ≢ refusal.Bytes → IsAtEnd (F.seen files.new).rest }
    ensures left { result ≡ Err (input.Refused refusal.Bytes) → IfSome (F.seen files.old).held (LeavesLong name.now most_il_bytes (F.seen files.new).rest) }
    // What stays.
    ensures stayed { result ≢ Err input.Unread → (F.seen files.new).faults ≡ (F.seen files.old).faults }
    ensures held { (F.seen files.new).held ≡ (F.seen files.old).held }
    ensures later { (F.seen files.old).faults ≤ (F.seen files.new).faults }
    ensures broken_later { (F.seen files.old).broken ≤ (F.seen files.new).broken }
{
    match read_file(alloc, files, name, MOST_IL_BYTES) {
        Ok(text) => listed_twice(alloc, text.bytes()),
        Err(input) => Err(input),
    }
}
