//! A program and ROWS for it, read one after the other.

ghost use Rattle.std.specs.Prelude.{◌≡◌, true, false, cond, IfErr, IfOk};
ghost use Rattle.vcp_inputs.specs.Forms.{rows_of, AreFew, Rows};
ghost use Rattle.vcp_core.specs.Loading.{EndsUnread};
ghost use Rattle.vcp_core.specs.ProgramsRead.{instruction_list, language_of, structured_text, AreProgramRows, EndsOn, ProgramRead, ReadsOn, ReadsProgramRows};

use crate::fault::Fault;
use crate::loading::input_columns;
use input_rows::RowsSource;
use std::alloc::Global;
use vcp_base::{Columns, Memory, Text};
use vcp_inputs::{
    HowOften, ProgramRun, RowsWord, lists_are_told, load_il, load_rows, load_typed, rows_name,
};
use vcp_outside::Files;
use vcp_typed::Typed;

/// A program, and the rows that it is run on.
pub struct ProgramRows {
    /// The program.
    pub program: Typed,
    /// The columns of its inputs.
    pub columns: Columns,
    /// The rows, before they are read.
    pub rows: RowsSource,
}

// Written out, so that the parts are given up here alone, and not in each command that loads them.
impl Drop for ProgramRows {
    fn drop(self) {
        let ProgramRows {
            program: _,
            columns: _,
            rows: _,
        } = self;
    }
}

/// Whether a program that is run so is an instruction list.
fn is_list(run: ProgramRun) -> bool
    ensures { language_of run ≡ cond result instruction_list structured_text }
{
    match run {
        ProgramRun::Il(_) => true,
        ProgramRun::Plain | ProgramRun::Run(_) => false,
    }
}

/// How often the typed program of a source is made that is run so: where its operations are run, twice.
fn how_often(run: ProgramRun) -> HowOften {
    match run {
        ProgramRun::Plain => HowOften::Once,
        ProgramRun::Run(_) | ProgramRun::Il(_) => HowOften::Twice,
    }
}

/// The program P of a run, which is read whole and checked, in the language that the run wants. Where there is none, the command that
/// wants it ends so, and nothing is done.
pub fn load_program<'a, F: Files>(
    alloc: Global,
    files: &mut F,
    source: &'a Text,
    run: ProgramRun,
) -> Result<Typed, Fault<'a>>
    ensures read { IfOk result (ProgramRead (language_of run) source.now (F.seen files.old) (F.seen files.new)) }
    ensures unread { IfErr result (λ e. (rows : Rows) →
        EndsUnread (ReadsProgramRows source.now rows (language_of run)) (F.seen files.old) (F.seen files.new) e) }
{
    // So an instruction list has the columns of its typed program.
    lists_are_told();
    if is_list(run) {
        return match load_il(alloc, files, source) {
            Ok(program) => Ok(program),
            Err(input) => Err(Fault::Input {
                name: source.bytes(),
                input,
            }),
        };
    }
    match load_typed(alloc, files, source, how_often(run)) {
        Ok(program) => Ok(program),
        Err(input) => Err(Fault::Input {
            name: source.bytes(),
            input,
        }),
    }
}

/// ROWS for a program that was read, up to their header. Where there is nothing of them, the command that
/// wants them ends so, and nothing is done.
pub fn load_program_rows<'a, F: Files>(
    alloc: Global,
    files: &mut F,
    program: Typed,
    rows: RowsWord<'a>,
) -> Result<ProgramRows, Fault<'a>>
    requires few { AreFew (rows_of rows) }
    ensures fit { IfOk result AreProgramRows }
    ensures read { IfOk result (ReadsOn program (rows_of rows.entry) (F.seen files.old) (F.seen files.new)) }
    ensures unread { IfErr result (EndsOn program (rows_of rows.entry) (F.seen files.old) (F.seen files.new)) }
{
    // So an instruction list has the columns of its typed program.
    lists_are_told();
    let columns = match input_columns(alloc, &program) {
        Ok(columns) => columns,
        Err(Memory) => return Err(Fault::Memory),
    };
    match load_rows(alloc, files, rows, &columns) {
        Ok(source) => Ok(ProgramRows {
            program,
            columns,
            rows: source,
        }),
        Err(input) => Err(Fault::Input {
            name: rows_name(rows),
            input,
        }),
    }
}
