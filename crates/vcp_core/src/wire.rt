//! The command `wire`, up to the line of its fault.

ghost use Rattle.std.specs.Prelude.{◌≡◌};
ghost use Rattle.vcp_inputs.specs.Forms.{wire};
ghost use Rattle.vcp_inputs.specs.Abouts.{about};
ghost use Rattle.vcp_inputs.specs.Performing.{Performs};
ghost use Rattle.coded_machine.specs.Moments.{moment};
ghost use Rattle.vcp_core.specs.Faults.{wire_end};
ghost use Rattle.vcp_core.specs.Tasks.{TaskOf};
ghost use Rattle.vcp_core.specs.Reach.{told_line, told_status};

use crate::ending::Ending;
use crate::fault::Fault;
use coded_unit::Unit;
use std::alloc::Global;
use telegram::{WireEnd, WireRunFault, run_wire};
use vcp_base::Text;
use vcp_inputs::load_wire;
use vcp_outside::{Files, Sink};

/// Does what the words `wire F` say, and writes to `out` alone: F is read whole and
/// checked; and then its values are sent on the unit, its telegrams taken, and the lines of these written.
pub fn wire_command<'a, F: Files, U: Unit, O: Sink>(
    alloc: Global,
    script: &'a Text,
    files: &mut F,
    unit: &mut U,
    out: &mut O,
) -> Result<Ending, Fault<'a>>
    ensures { Performs (about (wire script.now)) (TaskOf (wire script.now)) (F.seen files.old) (F.seen files.new)
        (moment (U.seen unit.old) (O.seen out.old)) (moment (U.seen unit.new) (O.seen out.new)) (told_line result) (told_status result) }
{
    match load_wire(alloc, files, script) {
        Ok(loaded) => wire_ended(run_wire(alloc, out, &loaded, unit)),
        Err(input) => Err(Fault::Input {
            name: script.bytes(),
            input,
        }),
    }
}

/// How the command ends whose script was run to its end, or to a sending that was answered by no word, or was given up.
fn wire_ended<'a>(ended: Result<WireEnd, WireRunFault>) -> Result<Ending, Fault<'a>>
    ensures { result ≡ wire_end ended }
{
    match ended {
        Ok(WireEnd::Complete) => Ok(Ending::Done),
        Ok(WireEnd::Unsent { .. }) => Ok(Ending::Refused),
        Err(WireRunFault::Write) => Err(Fault::Write),
        Err(WireRunFault::Memory) => Err(Fault::Memory),
    }
}
