//! Scripts of faults.

ghost use Rattle.std.specs.Prelude.{◌≡◌, ◌≢◌, ◌≤◌, All, IfErr, IfOk, IfSome, OnOk, Err, length};
ghost use Rattle.std.specs.Io.KnownBytes.{IsAtEnd};
ghost use Rattle.vcp_base.specs.Limits.{most_source_bytes};
ghost use Rattle.vcp_outside.specs.Counts.{Rose};
ghost use Rattle.fault_script.specs.Groups.{GroupFits};
ghost use Rattle.fault_script.specs.ScriptOf.{most_faults};
ghost use Rattle.vcp_inputs.specs.Files.{LeavesLong, Loads};
ghost use Rattle.vcp_inputs.specs.Scripts.{ScriptOf, NotScript};
ghost use Rattle.vcp_inputs.specs.Refusals.{IsCaused};
ghost use Rattle.vcp_inputs.specs.declared.refusal.NoInput.TheVariants as input;
ghost use Rattle.vcp_inputs.specs.declared.refusal.Refusal.{Refusal as RefusalOf};
ghost use Rattle.vcp_inputs.specs.declared.refusal.Refusal.TheVariants as refusal;

use crate::reading::read_file;
use crate::refusal::NoInput;
use fault_script::{Script, read_script};
use op_graph::Graph;
use std::alloc::Global;
use vcp_base::{MOST_SOURCE_BYTES, Text};
use vcp_outside::Files;

/// The script under a name, for a graph: the file is read whole, and has at most 1,048,576 bytes. What is
/// loaded are its groups, which fit that graph and have at most 10,000 faults; or it is refused: its length,
/// then its first refused line with its one reason.
pub fn load_script<F: Files>(
    alloc: Global,
    files: &mut F,
    name: &Text,
    graph: &Graph,
) -> Result<Script, NoInput>
    // What is answered: the script that the file is, or why there is none.
    ensures loads { IfSome (F.seen files.old).held (λ h. Loads (ScriptOf graph.now) (NotScript graph.now) h name.now most_source_bytes
        (F.seen files.old).broken (F.seen files.new).broken result) }
    // Its groups fit the graph and are few, whatever the files tell.
    ensures fits { IfOk result (λ s. All (GroupFits graph.now) s) }
    ensures few { IfOk result (λ s. length s ≤ most_faults) }
    ensures unread { result ≡ Err input.Unread → Rose (F.seen files.old).faults (F.seen files.new).faults }
    // Where it is refused, that is no want of memory, whatever the files tell.
    ensures caused { IfErr result IsCaused }
    // What was taken of the file: all, unless it has too many bytes.
    ensures ended { OnOk result (IsAtEnd (F.seen files.new).rest) }
    ensures whole { (r : RefusalOf) → result ≡ Err (input.Refused r) → r ≢ refusal.Bytes → IsAtEnd (F.seen files.new).rest }
    ensures left { result ≡ Err (input.Refused refusal.Bytes) → IfSome (F.seen files.old).held (LeavesLong name.now most_source_bytes (F.seen files.new).rest) }
    // What stays.
    ensures stayed { result ≢ Err input.Unread → (F.seen files.new).faults ≡ (F.seen files.old).faults }
    ensures held { (F.seen files.new).held ≡ (F.seen files.old).held }
    ensures later { (F.seen files.old).faults ≤ (F.seen files.new).faults }
    ensures broken_later { (F.seen files.old).broken ≤ (F.seen files.new).broken }
{
    match read_file(alloc, files, name, MOST_SOURCE_BYTES) {
        Ok(text) => match read_script(alloc, text.bytes(), graph) {
            Ok(script) => Ok(script),
            Err(fault) => Err(NoInput::from(fault)),
        },
        Err(input) => Err(input),
    }
}
