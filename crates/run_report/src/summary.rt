//! The line that sums up the run of a made program.

ghost use Rattle.vcp_outside.specs.Written.{WritesTo};
ghost use Rattle.run_report.specs.SummaryLine.{summary_text};

use vcp_outside::{Failed, Pen, Sink, begin};

/// Writes, for the made program of a number, the cycles of its run, the last value of its output, and
/// the sum of all values of that. After `Failed` a part of the line is written.
pub fn summary_line<O: Sink>(
    out: &mut O,
    number: u32,
    cycles: u32,
    last: i64,
    sum: i128,
) -> Result<(), Failed>
    ensures { WritesTo (O.seen out.old) (O.seen out.new) (summary_text number cycles last sum) result }
{
    begin(out, b"demo ", number)
        .numbered(b" cycles ", cycles as u64)
        .text(b" last ")
        .value(last)
        .text(b" sum ")
        .long_value(sum)
        .end()
}
