//! Scripts of a wire.

ghost use Rattle.std.specs.Prelude.{◌≡◌, ◌≢◌, ◌≤◌, IfErr, IfOk, IfSome, OnOk, Err};
ghost use Rattle.std.specs.Io.KnownBytes.{IsAtEnd};
ghost use Rattle.vcp_base.specs.Limits.{most_source_bytes};
ghost use Rattle.vcp_outside.specs.Counts.{Rose};
ghost use Rattle.telegram.specs.ScriptOf.{ScriptFits};
ghost use Rattle.vcp_inputs.specs.Files.{LeavesLong, Loads};
ghost use Rattle.vcp_inputs.specs.Wires.{WireOf, NotWire};
ghost use Rattle.vcp_inputs.specs.Refusals.{IsCaused};
ghost use Rattle.vcp_inputs.specs.declared.refusal.NoInput.TheVariants as input;
ghost use Rattle.vcp_inputs.specs.declared.refusal.Refusal.{Refusal as RefusalOf};
ghost use Rattle.vcp_inputs.specs.declared.refusal.Refusal.TheVariants as refusal;

use crate::reading::read_file;
use crate::refusal::NoInput;
use std::alloc::Global;
use telegram::{WireScript, read_wire};
use vcp_base::{MOST_SOURCE_BYTES, Text};
use vcp_outside::Files;

/// The script of a wire under a name: the file is read whole, and has at most 1,048,576 bytes. Its numbers
/// are in their ranges, and it hands what was sent; or it is refused: its length, then its first refused line
/// with its one reason.
pub fn load_wire<F: Files>(alloc: Global, files: &mut F, name: &Text) -> Result<WireScript, NoInput>
    // What is answered: the script that the file is, or why there is none.
    ensures loads { IfSome (F.seen files.old).held (λ h. Loads WireOf NotWire h name.now most_source_bytes
        (F.seen files.old).broken (F.seen files.new).broken result) }
    // Its numbers are in their ranges, and what it delivers was sent, whatever the files tell.
    ensures fits { IfOk result ScriptFits }
    ensures unread { result ≡ Err input.Unread → Rose (F.seen files.old).faults (F.seen files.new).faults }
    // Where it is refused, that is no want of memory, whatever the files tell.
    ensures caused { IfErr result IsCaused }
    // What was taken of the file: all, unless it has too many bytes.
    ensures ended { OnOk result (IsAtEnd (F.seen files.new).rest) }
    ensures whole { (r : RefusalOf) → result ≡ Err (input.Refused r) → r ≢ refusal.Bytes → IsAtEnd (F.seen files.new).rest }
    ensures left { result ≡ Err (input.Refused refusal.Bytes) → IfSome (F.seen files.old).held (LeavesLong name.now most_source_bytes (F.seen files.new).rest) }
    // What stays.
    ensures stayed { result ≢ Err input.Unread → (F.seen files.new).faults ≡ (F.seen files.old).faults }
    ensures held { (F.seen files.new).held ≡ (F.seen files.old).held }
    ensures later { (F.seen files.old).faults ≤ (F.seen files.new).faults }
    ensures broken_later { (F.seen files.old).broken ≤ (F.seen files.new).broken }
{
    match read_file(alloc, files, name, MOST_SOURCE_BYTES) {
        Ok(text) => match read_wire(alloc, text.bytes()) {
            Ok(script) => Ok(script),
            Err(fault) => Err(NoInput::from(fault)),
        },
        Err(input) => Err(input),
    }
}
