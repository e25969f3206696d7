//! Of a run, each row is printed.

ghost use Rattle.std.specs.Prelude.{None};
ghost use Rattle.run_report.specs.Lines.{header_text, row_text};
ghost use Rattle.vcp_inputs.specs.Reports.{end_read};
ghost use Rattle.vcp_core.specs.EndLines.{last_text};

use crate::ending::Ending;
use crate::printed::{Printed, print_end};
use coded_machine::{CycleEnd, Machine, ReleasedRows};
use run_report::{header_line, row_line};
use vcp_base::{Columns, Row};
use vcp_outside::{Failed, Sink};

/// A line is written for the outputs of each released cycle, and nothing is kept.
#[derive(Drop)]
pub struct RowLines;

impl ReleasedRows for RowLines {
    ghost text = { row_text };

    ghost Keeps = { λ _ _. Unit {0} };

    fn take<O: Sink>(&mut self, out: &mut O, cycle: u32, outputs: &Row) -> Result<(), Failed> {
        row_line(out, cycle, outputs)
    }
}

/// The names of the outputs come first, and the run's last line comes last.
#[derive(Drop)]
pub struct EveryRow;

impl Printed<RowLines> for EveryRow {
    ghost IsSound = { λ _. Unit {0} };

    ghost first = { λ _ names. header_text names };

    ghost last = { λ _ _ m names e. last_text names m.cycles (end_read m.graph e) None };

    fn print_first<O: Sink>(&self, out: &mut O, outputs: &Columns) -> Result<(), Failed> {
        header_line(out, outputs)
    }

    fn print_last<O: Sink>(
        &self,
        out: &mut O,
        machine: &Machine<'_>,
        outputs: &Columns,
        _rows: &RowLines,
        end: &CycleEnd,
    ) -> Result<Ending, Failed> {
        print_end(out, machine.graph(), outputs, machine.cycles(), end)
    }
}
