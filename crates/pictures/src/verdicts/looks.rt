//! How operations look by verdicts.

ghost use Rattle.std.specs.Prelude.{◌≡◌, ◌≤◌, length};
ghost use Rattle.fault_script.specs.ScriptOf.{most_faults};
ghost use Rattle.pictures.specs.VerdictLooks.{tried as tried_of, worst_of, verdict_looks};

use crate::{Look, Looks, Worst};
use fault_injector::Totals;
use fault_script::Script;
use op_graph::Graph;
use verdict_tables::{Table, Verdicts, totals_in};

/// The look where this is the worst, and came of so many of all.
fn tried(worst: Worst, some: u32, totals: &Totals) -> Look
    ensures { result ≡ tried_of worst some totals.now }
{
    Look::Tried {
        worst,
        some,
        all: totals.faults(),
    }
}

/// The look of an operation where its faults have verdicts with these totals.
fn worst(totals: &Totals) -> Look
    ensures { result ≡ worst_of totals.now }
{
    if 0 < totals.wrong {
        tried(Worst::Wrong, totals.wrong, totals)
    } else if 0 < totals.ran_on {
        tried(Worst::RanOn, totals.ran_on, totals)
    } else if 0 < totals.same {
        tried(Worst::Same, totals.same, totals)
    } else if 0 < totals.stopped {
        tried(Worst::Stopped, totals.stopped, totals)
    } else if 0 < totals.refused {
        tried(Worst::Refused, totals.refused, totals)
    } else {
        Look::Untried
    }
}

/// The looks by the verdicts of the groups of a script.
#[derive(Clone, Copy)]
pub(crate) struct VerdictLooks<'a> {
    /// The script.
    pub(crate) script: &'a Script,
    /// A verdict of each of its groups, in their order.
    pub(crate) verdicts: &'a Verdicts,
}

impl Looks for VerdictLooks<'_> {
    ghost IsFor = { λ s g. (length s.verdicts.now ≡ length s.script.now) × (length s.script.now ≤ most_faults) };

    ghost looks = { λ s g n. verdict_looks s.script.now s.verdicts.now n };

    fn look(&self, _graph: &Graph, n: u32) -> Look {
        worst(&totals_in(Table::Operations, n, self.script, self.verdicts))
    }
}
