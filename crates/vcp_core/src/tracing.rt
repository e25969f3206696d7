//! Of a run, the words of one cycle are printed.

ghost use Rattle.std.specs.Prelude.{◌≡◌, ◌⊎◌, ◌<◌, [], length};
ghost use Rattle.vcp_base.specs.Limits.{most_cycles};
ghost use Rattle.vcp_outside.specs.Written.{WritesTo};
ghost use Rattle.coded_machine.specs.Calls.{Whole};
ghost use Rattle.vcp_inputs.specs.CycleWords.{word_lines};
ghost use Rattle.vcp_core.specs.TraceRun.{answered_words, traced_text};

use crate::ending::{Ending, line_ended};
use crate::printed::{Printed, print_end};
use coded_machine::{CycleEnd, Machine, ReleasedRows};
use run_report::trace_line;
use vcp_base::{Columns, Row};
use vcp_outside::{Failed, Sink, write_all};

/// Nothing is written for the outputs of a released cycle, and nothing is kept.
#[derive(Drop)]
pub struct NoRows;

impl ReleasedRows for NoRows {
    ghost text = { λ _ _. [] };

    ghost Keeps = { λ _ _. Unit {0} };

    fn take<O: Sink>(&mut self, _out: &mut O, _cycle: u32, _outputs: &Row) -> Result<(), Failed> {
        Ok(())
    }
}

/// The words of a cycle, where the run began it, and then that it was released, or the line of the run's
/// end.
#[derive(Drop)]
pub struct EachWord {
    /// The cycle, counted from 0.
    pub cycle: u32,
}

impl Printed<NoRows> for EachWord {
    ghost IsSound = { λ words. words.cycle < most_cycles };

    ghost first = { λ _ _. [] };

    ghost last = { λ words _ m names e. traced_text m names words.cycle e };

    fn print_first<O: Sink>(&self, _out: &mut O, _outputs: &Columns) -> Result<(), Failed> {
        Ok(())
    }

    fn print_last<O: Sink>(
        &self,
        out: &mut O,
        machine: &Machine<'_>,
        outputs: &Columns,
        _rows: &NoRows,
        end: &CycleEnd,
    ) -> Result<Ending, Failed> {
        print_words(out, machine, self.cycle)?;
        match end {
            CycleEnd::Released => line_ended(write_all(out, b"released\n"), Ending::Done),
            CycleEnd::Stopped { .. } | CycleEnd::Refused { .. } => {
                print_end(out, machine.graph(), outputs, machine.cycles(), end)
            }
        }
    }
}

/// Prints the words that a machine's operations answered in its last cycle, where that was this one: a line
/// for each, in order of operation. Nothing is printed where its run ended before. It takes no memory.
fn print_words<O: Sink>(out: &mut O, machine: &Machine<'_>, cycle: u32) -> Result<(), Failed>
    requires cycle { cycle < most_cycles }
    requires table { length machine.now.table.corrections ≡ length machine.now.graph.operations }
    requires whole { (machine.now.answers ≡ []) ⊎ Whole machine.now.graph.operations machine.now.answers }
    ensures { WritesTo (O.seen out.old) (O.seen out.new)
        (word_lines machine.now.graph machine.now.table cycle 0 machine.now.graph.operations (answered_words machine.now cycle)) result }
{
    if machine.cycles() < cycle {
        return Ok(());
    }
    let graph = machine.graph();
    let table = machine.table();
    'words: for i in 0..graph.len() {
        match machine.word(i) {
            Some(word) => trace_line(out, graph, table, i, cycle, word)?,
            None => return Ok(()),
        }
    }
    Ok(())
}
