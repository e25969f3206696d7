//! The faults that are not seen.

ghost use Rattle.std.specs.Prelude.{◌≡◌, flat_map, length, All};
ghost use Rattle.vcp_outside.specs.Pens.{Goes};
ghost use Rattle.verdict_tables.specs.Parts.{IsWhole, PartFits};
ghost use Rattle.verdict_tables.specs.SumText.{fault_text, is_unseen as is_unseen_of, unseen_below, unseen_parts};

use crate::names::then_operation;
use crate::parts::{Part, Parts, mark_of, then_group};
use fault_injector::{Verdict, then_verdict};
use fault_script::Group;
use fault_sites::{Site, then_site};
use op_graph::Graph;
use vcp_outside::Pen;

/// Goes on with the faults of a group.
pub(crate) fn then_faults<P: Pen>(mut pen: P, graph: &Graph, group: &Group) -> P
    ensures { Goes (P.seen pen) (P.seen result) (flat_map (fault_text graph.now) group.now) }
{
    'faults: for i in 0..group.len() {
        let fault = group.at(i);
        let site = Site {
            cycle: fault.cycle,
            op: fault.op,
            act: fault.act,
        };
        pen = pen.text(b"  ");
        pen = then_site(pen, &site).text(b": ");
        pen = then_operation(pen, graph, fault.op).text(b"\n");
    }
    pen
}

/// Whether a verdict is `wrong` or `ran-on`.
fn is_unseen(verdict: Verdict) -> bool
    ensures { result ≡ is_unseen_of verdict }
{
    match verdict {
        Verdict::Wrong {
            cycle: _,
            output: _,
            got: _,
            want: _,
        }
        | Verdict::RanOn { cycle: _ } => true,
        Verdict::Same
        | Verdict::Refused {
            cycle: _,
            output: _,
            found: _,
            expected: _,
        }
        | Verdict::Stopped {
            cycle: _,
            op: _,
            kind: _,
        } => false,
    }
}

/// Goes on with the verdicts of a part that aren't seen, and their groups.
fn then_unseen_in<P: Pen>(mut pen: P, graph: &Graph, mark: Option<u64>, part: &Part) -> P
    requires whole { IsWhole part.now }
    requires fits { PartFits graph.now part.now }
    ensures { Goes (P.seen pen) (P.seen result)
        (unseen_below graph.now mark part.now.script part.now.verdicts (length part.now.verdicts)) }
{
    'groups: for i in 0..part.verdicts.len() {
        let group = part.script.at(i);
        let verdict = part.verdicts.at(i);
        if !is_unseen(verdict) {
            continue;
        }
        pen = then_group(pen, mark, group).text(b" ");
        pen = then_verdict(pen, graph, &verdict).text(b"\n");
        pen = then_faults(pen, graph, group);
    }
    pen
}

/// Goes on with the verdicts of all parts that aren't seen, and their groups.
pub(crate) fn then_all_unseen<P: Pen>(mut pen: P, graph: &Graph, parts: &Parts) -> P
    requires whole { All IsWhole parts.now }
    requires fits { All (PartFits graph.now) parts.now }
    ensures { Goes (P.seen pen) (P.seen result) (unseen_parts graph.now parts.now (length parts.now)) }
{
    let many = parts.len();
    'parts: for k in 0..many {
        let mark = mark_of(many, k);
        pen = then_unseen_in(pen, graph, mark, parts.at(k));
    }
    pen
}
