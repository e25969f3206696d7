//! The top call.

ghost use Rattle.std.specs.Prelude.{◌≡◌, IfSome, None};
ghost use Rattle.vcp_study_core.specs.CarriedOut.{Studies, told_line, told_status};
ghost use Rattle.vcp_study_core.specs.Forms.{form, form_of, IsSound};
ghost use Rattle.vcp_study_core.specs.Studied.{Studied, ToldUsage, all_seen};
ghost use Rattle.vcp_study_core.specs.Tasks.{TaskOf};

use crate::command::StudyCommand;
use crate::fault::Fault;
use crate::lists::list_command;
use crate::studies::image_command;
use crate::telling::{fault_status, tell, tell_usage};
use crate::waves::waves_command;
use crate::words::command_of;
use std::alloc::Global;
use vcp_base::Words;
use vcp_outside::{Failed, Files, Sink};

/// Does all that the program does, and answers its status: what the words say, on the files, writing
/// the picture, the ranges, the script or the tables to `out`, and the line of a fault to `err`.
///
/// | status | comes |
/// |---|---|
/// | 0 | what was asked for was written; and where something is looked for, as an operation that may stop or a fault that may show, there is none |
/// | 1 | a file is refused |
/// | 4 | the words are none of the forms |
/// | 5 | a file failed |
/// | 6 | a sink failed |
/// | 7 | memory was wanted, as far as is proved at any time; with words that are none of the forms never |
/// | 9 | it was written, and there is one: of ranges an operation that may stop, of a cover a fault that may show, of tables a fault that is unseen |
///
/// By its clauses:
/// - `usage`: Words that are none of the forms get the usage line with status 4, and nothing else that contracts see changes; or its sink failed
///   in it, with status 6.
/// - `studied`: Words that are a command's have it performed: as far as it came, for what its words lead to with what is held; and the line of its
///   fault printed, if it ended by one. What that is: `TaskOf`, a line a command. Whatever the files tell, no file is written, and the status is 0, 1,
///   5, 6, 7 or 9; 0 and 9 come after each file was read to its end, 5 only where the count of the files' faults rose, and 6 only where that of a
///   sink rose: `Studies`.
pub fn vcp_study<F: Files, O: Sink, E: Sink>(
    alloc: Global,
    words: &Words,
    files: &mut F,
    out: &mut O,
    err: &mut E,
) -> u8
    // Words that are none of the forms get the usage line, and nothing else is done.
    ensures usage { form_of words.now ≡ None → ToldUsage
        (all_seen (F.seen files.old) (O.seen out.old) (E.seen err.old)) (all_seen (F.seen files.new) (O.seen out.new) (E.seen err.new)) result }

    // A command is performed, by what its words come to with what is held, and the line of its fault is told.
    ensures studied { IfSome (form_of words.now) (λ f. Studied f
        (all_seen (F.seen files.old) (O.seen out.old) (E.seen err.old)) (all_seen (F.seen files.new) (O.seen out.new) (E.seen err.new)) result) }
{
    match command_of(words) {
        Some(command) => serve(alloc, &command, files, out, err),
        None => match tell_usage(err) {
            Ok(()) => 4,
            Err(Failed) => 6,
        },
    }
}

/// Does a command and, where it ends by a fault, prints the fault's line.
fn serve<F: Files, O: Sink, E: Sink>(
    alloc: Global,
    command: &StudyCommand<'_>,
    files: &mut F,
    out: &mut O,
    err: &mut E,
) -> u8
    requires sound { IsSound (form command.now) }
    ensures { Studied (form command.now)
        (all_seen (F.seen files.old) (O.seen out.old) (E.seen err.old)) (all_seen (F.seen files.new) (O.seen out.new) (E.seen err.new)) result }
{
    match perform(alloc, command, files, out) {
        Ok(true) => 9,
        Ok(false) => 0,
        Err(fault) => match tell(err, &fault) {
            Ok(()) => fault_status(&fault),
            Err(Failed) => 6,
        },
    }
}

/// Does what a command says, and writes to `out` alone. Answers whether it found what it looks for, where no fault keeps it from its end.
fn perform<'a, F: Files, O: Sink>(
    alloc: Global,
    command: &StudyCommand<'a>,
    files: &mut F,
    out: &mut O,
) -> Result<bool, Fault<'a>>
    requires sound { IsSound (form command.now) }
    ensures { Studies (TaskOf (form command.now)) (F.seen files.old) (F.seen files.new) (O.seen out.old) (O.seen out.new)
        (told_line result) (told_status result) }
{
    match command {
        StudyCommand::Waves { file, period } => waves_command(alloc, file, *period, files, out),
        StudyCommand::List { source, study } => list_command(alloc, source, *study, files, out),
        StudyCommand::On { image, study } => image_command(alloc, image, study, files, out),
    }
}
