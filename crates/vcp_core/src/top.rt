//! The top call.

ghost use Rattle.std.specs.Prelude.{◌≡◌, IfSome, None, true};
ghost use Rattle.vcp_outside.specs.Counts.{Rose};
ghost use Rattle.vcp_inputs.specs.Forms.{form, form_of, IsSound};
ghost use Rattle.vcp_inputs.specs.Abouts.{about};
ghost use Rattle.vcp_inputs.specs.Clauses.{GetsUsage};
ghost use Rattle.vcp_inputs.specs.Performing.{Performs};
ghost use Rattle.coded_machine.specs.Moments.{moment};
ghost use Rattle.vcp_inputs.specs.Seen.{outside};
ghost use Rattle.vcp_core.specs.Performed.{Performed};
ghost use Rattle.vcp_core.specs.Tasks.{TaskOf};
ghost use Rattle.vcp_core.specs.Reach.{told_line, told_status};

use crate::demo::demo_command;
use crate::ending::{Ending, status_of};
use crate::fault::Fault;
use crate::format::format_command;
use crate::image::image_command;
use crate::image_run::image_run_command;
use crate::program_run::program_run_command;
use crate::source::source_command;
use crate::telling::{fault_status, tell};
use crate::wire::wire_command;
use coded_unit::Unit;
use std::alloc::Global;
use vcp_base::Words;
use vcp_inputs::{Command, command_of, usage};
use vcp_outside::{Failed, Files, Sink, write_all};

/// The status where a sink failed.
const WRITE_FAULT: u8 = 6;

/// The status where an error of the processor showed: by the proof it never comes so.
const ERRED: u8 = 3;

/// Does all that the program does, and answers its status: what the words say, on the files, with
/// the unit, writing to `out`, and the line of a fault to `err`.
///
/// | status | comes |
/// |---|---|
/// | 0 | the Size, the text, the image, the lines or the verdicts were printed, or the run came to the end of its rows |
/// | 1 | a file is refused, or a row of one |
/// | 2 | the run stopped |
/// | 3 | an output was refused, or the channels of a pair disagreed, or a telegram wasn't sent; with an honest unit never |
/// | 4 | the words are none of the forms |
/// | 5 | a file failed |
/// | 6 | a sink failed |
/// | 7 | memory was wanted: at any time, as far as is proved, where the words are one of the forms |
///
/// By its clauses:
/// - `usage`: Words that are none of the forms get the usage line with status 4, and nothing else that contracts see changes; or its sink failed
///   in it, with status 6.
/// - `performed`: Words that are a command's have it performed: as far as it came, for the one task to which they lead with what is held; and the
///   line of its fault printed, if it ended by one. How far that is and what each command keeps: `Performs`, in `vcp_inputs`; to which task each
///   command leads: `TaskOf`.
///
/// What follows from these is said by laws: `a_performed_command` of how a command serves and completes, what it keeps and which statuses it has;
/// `one_task` of the tasks; `written_images_are_taken` of the images that commands write and others read; `accepted_outputs_are_released`,
/// `stale_operands_are_seen`, `accumulator_runs` and `wires_deliver` of faults, lists and telegrams.
pub fn vcp<F: Files, U: Unit, O: Sink, E: Sink>(
    alloc: Global,
    words: &Words,
    files: &mut F,
    unit: &mut U,
    out: &mut O,
    err: &mut E,
) -> u8
    // Words that are none of the forms get the usage line, and nothing else is done.
    ensures usage { form_of words.now ≡ None → GetsUsage
        (outside (F.seen files.old) (U.seen unit.old) (O.seen out.old) (E.seen err.old))
        (outside (F.seen files.new) (U.seen unit.new) (O.seen out.new) (E.seen err.new)) result }

    // A command is performed, for the task to which its words lead with what is held, and the line of its fault is printed.
    ensures performed { IfSome (form_of words.now) (λ f. Performed f
        (outside (F.seen files.old) (U.seen unit.old) (O.seen out.old) (E.seen err.old))
        (outside (F.seen files.new) (U.seen unit.new) (O.seen out.new) (E.seen err.new)) result) }
{
    match command_of(words) {
        Some(command) => serve(alloc, &command, files, unit, out, err),
        None => match write_all(err, usage()) {
            Ok(()) => 4,
            Err(Failed) => 6,
        },
    }
}

/// Does a command and, where it ends by a fault, tells the fault's line.
fn serve<F: Files, U: Unit, O: Sink, E: Sink>(
    alloc: Global,
    command: &Command<'_>,
    files: &mut F,
    unit: &mut U,
    out: &mut O,
    err: &mut E,
) -> u8
    requires sound { IsSound (form command.now) }
    ensures { Performed (form command.now)
        (outside (F.seen files.old) (U.seen unit.old) (O.seen out.old) (E.seen err.old))
        (outside (F.seen files.new) (U.seen unit.new) (O.seen out.new) (E.seen err.new)) result }
{
    let before = out.faults();
    match perform(alloc, command, files, unit, out) {
        Ok(end) => status_of(end),
        Err(fault) => {
            if fault_status(&fault) == WRITE_FAULT && !has_risen(before, out.faults()) {
                return ERRED;
            }
            match tell(err, &fault) {
                Ok(()) => fault_status(&fault),
                Err(Failed) => WRITE_FAULT,
            }
        }
    }
}

/// Whether the count of failed writes rose. Where a command ended by one it did, says the proof; where the processor erred in a line, it may not have.
fn has_risen(before: u64, after: u64) -> bool
    requires { Rose before after }
    ensures { result ≡ true }
{
    before < after || after == u64::MAX
}

/// Does what a command says, and writes to `out` alone.
fn perform<'a, F: Files, U: Unit, O: Sink>(
    alloc: Global,
    command: &Command<'a>,
    files: &mut F,
    unit: &mut U,
    out: &mut O,
) -> Result<Ending, Fault<'a>>
    requires sound { IsSound (form command.now) }
    ensures { Performs (about (form command.now)) (TaskOf (form command.now))
        (F.seen files.old) (F.seen files.new) (moment (U.seen unit.old) (O.seen out.old)) (moment (U.seen unit.new) (O.seen out.new))
        (told_line result) (told_status result) }
{
    match command {
        Command::Source { source, text } => source_command(alloc, source, *text, files, out),
        Command::Format { source } => format_command(alloc, source, files, out),
        Command::ProgramRows { source, rows, run } => program_run_command(
            alloc, source, *rows, *run, files, unit, out,
        ),
        Command::Image { image, text } => image_command(alloc, image, *text, files, out),
        Command::ImageRows { image, rows, run } => image_run_command(
            alloc, image, *rows, *run, files, unit, out,
        ),
        Command::Wire { script } => wire_command(alloc, script, files, unit, out),
        Command::Demo { number } => demo_command(alloc, *number, unit, out),
    }
}
