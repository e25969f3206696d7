//! The tables of a campaign's verdicts.

ghost use Rattle.std.specs.Prelude.{◌≤◌, length, All};
ghost use Rattle.vcp_outside.specs.Written.{WritesTo};
ghost use Rattle.vcp_outside.specs.Pens.{Goes};
ghost use Rattle.verdict_tables.specs.Parts.{most_parts, IsWhole, PartFits};
ghost use Rattle.verdict_tables.specs.SumText.{tables_text, sum_text};
ghost use Rattle.verdict_tables.specs.SameEndings.{sum_apart_text, AreOf};

use crate::counts::totals_of_parts;
use crate::ended::then_endings;
use crate::endings::EndingsOfParts;
use crate::parts::Parts;
use crate::rows::then_table;
use crate::standing::then_all_standing;
use crate::tables::Table;
use crate::unseen::then_all_unseen;
use fault_injector::then_totals;
use op_graph::Graph;
use vcp_outside::{Failed, LinePen, Pen, Sink};

/// Goes on with the tables.
fn then_tables<P: Pen>(pen: P, graph: &Graph, parts: &Parts) -> P
    requires whole { All IsWhole parts.now }
    requires few { length parts.now ≤ most_parts }
    ensures { Goes (P.seen pen) (P.seen result) (tables_text graph.now parts.now) }
{
    let pen = then_table(pen, graph, Table::Acts, b"by what the fault does", parts);
    let pen = then_table(pen, graph, Table::Operations, b"by where it stands", parts);
    let pen = then_table(pen, graph, Table::Outputs, b"by where it shows", parts);
    then_table(
        pen,
        graph,
        Table::Delays,
        b"by how many cycles later it shows",
        parts,
    )
}

/// Writes how many verdicts there are of each sort, over all groups of all parts: by what the faults do, by the operation at which they are,
/// by the output at which the verdict shows, and by how many cycles it comes behind the first fault; then each verdict that is `wrong` or
/// `ran-on`, part by part and in order, with the faults of its group; and the totals. Where there are several parts, the line of a verdict
/// begins with the number of its part, counted from 1. A row in which nothing is counted is left out. It takes no memory. After `Failed` a
/// part of the text is written.
///
/// Each group is counted once a row. A part is written only where the sink's count rose.
pub fn write_sum<O: Sink>(out: &mut O, graph: &Graph, parts: &Parts) -> Result<(), Failed>
    requires whole { All IsWhole parts.now }
    requires fits { All (PartFits graph.now) parts.now }
    requires few { length parts.now ≤ most_parts }
    ensures { WritesTo (O.seen out.old) (O.seen out.new) (sum_text graph.now parts.now) result }
{
    let pen = LinePen::new(out);
    let pen = then_tables(pen, graph, parts);
    let pen = then_all_unseen(pen, graph, parts);
    then_totals(pen, &totals_of_parts(parts)).end()
}

/// Writes the same, and behind the tables one more, in which the groups with the verdict `same` are distinguished: how many are never reached, how
/// many died out, and how many are still in a cell at the end. These are named behind the verdicts, each with the faults of its group.
pub fn write_sum_apart<O: Sink>(
    out: &mut O,
    graph: &Graph,
    parts: &Parts,
    endings: &EndingsOfParts,
) -> Result<(), Failed>
    requires whole { All IsWhole parts.now }
    requires fits { All (PartFits graph.now) parts.now }
    requires few { length parts.now ≤ most_parts }
    requires each { AreOf endings.now parts.now }
    ensures { WritesTo (O.seen out.old) (O.seen out.new) (sum_apart_text graph.now parts.now endings.now) result }
{
    let pen = LinePen::new(out);
    let pen = then_tables(pen, graph, parts);
    let pen = then_endings(pen, endings);
    let pen = then_all_unseen(pen, graph, parts);
    let pen = then_all_standing(pen, graph, parts, endings);
    then_totals(pen, &totals_of_parts(parts)).end()
}
