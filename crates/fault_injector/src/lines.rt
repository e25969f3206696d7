//! The lines of a script of faults: a verdict a line, and their totals. Each call writes one line to a
//! sink and takes no memory. It answers `Failed` only where the sink's count of faults rose, and then
//! a part of the line is written.

ghost use Rattle.std.specs.Prelude.{◌≡◌, ◌<◌, length};
ghost use Rattle.vcp_outside.specs.Written.{WritesTo};
ghost use Rattle.fault_injector.specs.Names.{Names};
ghost use Rattle.vcp_outside.specs.Pens.{Goes};
ghost use Rattle.fault_injector.specs.FaultLines.{wrong_text, stopped_text, what_shows, verdict_text, faults as faults_of};
ghost use Rattle.fault_injector.specs.FaultLines.{counted, no_verdicts, totals_front, totals_text};

use crate::Verdict;
use op_graph::Graph;
use run_report::{output_name, then_cause, then_refused, then_turns_round};
use vcp_base::{StopKind, Text};
use vcp_outside::{Failed, LinePen, Pen, Sink, begin};

/// How many faults of a script have which verdict.
#[derive(Clone, Copy)]
pub struct Totals {
    /// Those that show nowhere.
    pub same: u32,
    /// Those by which a wrong value is released.
    pub wrong: u32,
    /// Those by which a run goes on that was to stop.
    pub ran_on: u32,
    /// Those by which an output is refused.
    pub refused: u32,
    /// Those by which the run stops.
    pub stopped: u32,
}

impl Totals {
    /// The totals of no faults.
    pub fn new() -> Totals
        ensures { result ≡ no_verdicts }
    {
        Totals {
            same: 0,
            wrong: 0,
            ran_on: 0,
            refused: 0,
            stopped: 0,
        }
    }

    /// How many faults there are in all.
    pub fn faults(&self) -> u64
        ensures { result ≡ faults_of self.now }
    {
        self.same as u64
            + self.wrong as u64
            + self.ran_on as u64
            + self.refused as u64
            + self.stopped as u64
    }

    /// Counts one verdict more, where fewer than 4,294,967,295 were counted.
    pub fn count(&mut self, verdict: &Verdict)
        requires { faults_of self.old < 4294967295 }
        ensures { self.new ≡ counted self.old verdict.now }
    {
        match *verdict {
            Verdict::Same => self.same += 1,
            Verdict::Wrong { .. } => self.wrong += 1,
            Verdict::RanOn { .. } => self.ran_on += 1,
            Verdict::Refused { .. } => self.refused += 1,
            Verdict::Stopped { .. } => self.stopped += 1,
        }
    }
}

// Goes on with a cycle, an output's name and the values with and without the fault.
fn then_wrong<P: Pen>(pen: P, cycle: u32, name: &Text, got: i64, want: i64) -> P
    ensures { Goes (P.seen pen) (P.seen result) (wrong_text cycle name.now got want) }
{
    pen.numbered(b"wrong ", cycle as u64)
        .texts(b" ", name.bytes())
        .signed(b" got ", got)
        .signed(b" want ", want)
}

// Goes on with the cycle and the operation of a stop, why it stopped, its place in the source, and the turns round it.
fn then_stopped<P: Pen>(pen: P, cycle: u32, graph: &Graph, op: u32, kind: StopKind) -> P
    requires { op < length graph.now.operations }
    ensures { Goes (P.seen pen) (P.seen result) (stopped_text graph.now cycle op kind) }
{
    let pen = pen
        .numbered(b"stopped ", cycle as u64)
        .numbered(b" ", op as u64)
        .text(b" ");
    let pen = then_cause(pen, kind, graph.operation(op).spot);
    then_turns_round(pen, graph, op)
}

/// Goes on with a verdict: in which cycle it shows, at which output or operation of the graph, and by what.
pub fn then_verdict<P: Pen>(pen: P, graph: &Graph, verdict: &Verdict) -> P
    requires { Names (length graph.now.outputs) (length graph.now.operations) verdict.now }
    ensures { Goes (P.seen pen) (P.seen result) (what_shows graph.now verdict.now) }
{
    match *verdict {
        Verdict::Same => pen.text(b"same"),
        Verdict::Wrong {
            cycle,
            output,
            got,
            want,
        } => then_wrong(pen, cycle, output_name(graph, output), got, want),
        // Up to that cycle no output was refused.
        Verdict::RanOn { cycle } => pen.numbered(b"ran-on ", cycle as u64),
        Verdict::Refused {
            cycle,
            output,
            found,
            expected,
        } => then_refused(pen, cycle, output_name(graph, output), found, expected),
        Verdict::Stopped { cycle, op, kind } => then_stopped(pen, cycle, graph, op, kind),
    }
}

/// Writes the verdict of the fault on this line of a script: in which cycle the fault shows, at which output
/// or operation of the graph, and by what. After `Failed` a part of the line is written. For a stop the line
/// has its place and the turns round it, too. A part is written only where the sink's count rose. It takes no
/// memory.
pub fn verdict_line<O: Sink>(
    out: &mut O,
    graph: &Graph,
    line: u32,
    verdict: &Verdict,
) -> Result<(), Failed>
    requires { Names (length graph.now.outputs) (length graph.now.operations) verdict.now }
    ensures { WritesTo (O.seen out.old) (O.seen out.new) (verdict_text graph.now line verdict.now) result }
{
    let pen = begin(out, b"", line).text(b" ");
    then_verdict(pen, graph, verdict).end()
}

/// Goes on with totals: how many faults a script has, and how many of each verdict.
pub fn then_totals<P: Pen>(pen: P, totals: &Totals) -> P
    ensures { Goes (P.seen pen) (P.seen result) (totals_front totals.now) }
{
    pen.numbered(b"faults ", totals.faults())
        .numbered(b" same ", totals.same as u64)
        .numbered(b" wrong ", totals.wrong as u64)
        .numbered(b" ran-on ", totals.ran_on as u64)
        .numbered(b" refused ", totals.refused as u64)
        .numbered(b" stopped ", totals.stopped as u64)
}

/// Writes the line of totals. After `Failed` a part of the line is written. The line has their sum and each
/// of them. A part is written only where the sink's count rose. It takes no memory.
pub fn totals_line<O: Sink>(out: &mut O, totals: &Totals) -> Result<(), Failed>
    ensures { WritesTo (O.seen out.old) (O.seen out.new) (totals_text totals.now) result }
{
    let pen = LinePen::new(out);
    then_totals(pen, totals).end()
}
