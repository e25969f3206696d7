//! The lines of a script of faults on a pair of channels: a verdict a line, and their totals. Each call writes one line to a sink and takes no
//! memory. It answers `Failed` only where the sink's count of faults rose, and then a part of the line is written.

ghost use Rattle.std.specs.Prelude.{◌≡◌, ◌<◌};
ghost use Rattle.vcp_outside.specs.Written.{WritesTo};
ghost use Rattle.vcp_outside.specs.Pens.{Goes};
ghost use Rattle.fault_injector.specs.GroupLines.{shown, group_text, groups_in, counted, no_groups, pair_totals_text};

use crate::campaign::pairs::verdict::PairVerdict;
use vcp_outside::{Failed, LinePen, Pen, Sink, begin};

/// How many groups of a script have which verdict.
#[derive(Clone, Copy)]
pub struct PairTotals {
    /// Those in which the channels agree to the end.
    pub same: u32,
    /// Those that are held.
    pub held: u32,
}

impl PairTotals {
    /// The totals of no groups.
    pub fn new() -> PairTotals
        ensures { result ≡ no_groups }
    {
        PairTotals { same: 0, held: 0 }
    }

    /// How many groups there are in all.
    pub fn groups(&self) -> u64
        ensures { result ≡ groups_in self.now }
    {
        self.same as u64 + self.held as u64
    }

    /// Counts one verdict more, where fewer than 4,294,967,295 were counted.
    pub fn count(&mut self, verdict: &PairVerdict)
        requires { groups_in self.old < 4294967295 }
        ensures { self.new ≡ counted self.old verdict.now }
    {
        match *verdict {
            PairVerdict::Same => self.same += 1,
            PairVerdict::Held { .. } => self.held += 1,
        }
    }
}

// Goes on with a verdict.
fn then_verdict<P: Pen>(pen: P, verdict: &PairVerdict) -> P
    ensures { Goes (P.seen pen) (P.seen result) (shown verdict.now) }
{
    match *verdict {
        PairVerdict::Same => pen.text(b"same"),
        PairVerdict::Held { cycle } => pen.numbered(b"held ", cycle as u64),
    }
}

/// Writes the verdict on the group that begins on this line of a script. After `Failed` a part of the line is
/// written. That comes only where the sink's count rose.
pub fn group_line<O: Sink>(out: &mut O, line: u32, verdict: &PairVerdict) -> Result<(), Failed>
    ensures { WritesTo (O.seen out.old) (O.seen out.new) (group_text line verdict.now) result }
{
    let pen = begin(out, b"", line).text(b" ");
    then_verdict(pen, verdict).end()
}

/// Writes how many groups a script has, and how many of each verdict. After `Failed` a part of the line is written.
pub fn pair_totals_line<O: Sink>(out: &mut O, totals: &PairTotals) -> Result<(), Failed>
    ensures { WritesTo (O.seen out.old) (O.seen out.new) (pair_totals_text totals.now) result }
{
    LinePen::new(out)
        .numbered(b"pairs ", totals.groups())
        .numbered(b" same ", totals.same as u64)
        .numbered(b" held ", totals.held as u64)
        .end()
}
