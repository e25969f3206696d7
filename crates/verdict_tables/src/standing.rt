//! The groups whose difference is still in a cell at the end.

ghost use Rattle.std.specs.Prelude.{◌≡◌, length, All};
ghost use Rattle.vcp_outside.specs.Pens.{Goes};
ghost use Rattle.verdict_tables.specs.Parts.{PartFits};
ghost use Rattle.verdict_tables.specs.SameEndings.{standing_below, standing_parts, AreOf};

use crate::ended::is_ended;
use crate::endings::{Endings, EndingsOfParts};
use crate::parts::{Part, Parts, mark_of, then_group};
use crate::unseen::then_faults;
use op_graph::Graph;
use vcp_outside::Pen;

/// Goes on with these groups of a part, each with its faults.
fn then_standing_in<P: Pen>(
    mut pen: P,
    graph: &Graph,
    mark: Option<u64>,
    part: &Part,
    endings: &Endings,
) -> P
    requires fits { PartFits graph.now part.now }
    requires each { length endings.now ≡ length part.now.script }
    ensures { Goes (P.seen pen) (P.seen result)
        (standing_below graph.now mark part.now.script endings.now (length endings.now)) }
{
    'groups: for i in 0..endings.len() {
        let group = part.script.at(i);
        if !is_ended(2, endings.at(i)) {
            continue;
        }
        pen = then_group(pen, mark, group).text(b" stands in a cell\n");
        pen = then_faults(pen, graph, group);
    }
    pen
}

/// Goes on with these groups of all parts.
pub(crate) fn then_all_standing<P: Pen>(
    mut pen: P,
    graph: &Graph,
    parts: &Parts,
    endings: &EndingsOfParts,
) -> P
    requires fits { All (PartFits graph.now) parts.now }
    requires each { AreOf endings.now parts.now }
    requires many { length endings.now ≡ length parts.now }
    ensures { Goes (P.seen pen) (P.seen result)
        (standing_parts graph.now parts.now endings.now (length parts.now)) }
{
    let many = parts.len();
    'parts: for k in 0..many {
        let mark = mark_of(many, k);
        pen = then_standing_in(pen, graph, mark, parts.at(k), endings.at(k));
    }
    pen
}
