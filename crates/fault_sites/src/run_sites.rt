//! The sites of a class that the words of a run decide, and their script.

ghost use Rattle.std.specs.Prelude.{◌≡◌, ◌<◌, ◌≤◌, All, IfOk, length};
ghost use Rattle.vcp_base.specs.Limits.{most_cycles};
ghost use Rattle.fault_sites.specs.Run.{begun};
ghost use Rattle.fault_sites.specs.RunSites.{cycle_of, in_cycle, run_class_name as run_class_name_of, run_class_of, run_sites};
ghost use Rattle.fault_sites.specs.Running.{Room, before, moment};
ghost use Rattle.fault_sites.specs.Part.{kept};
ghost use Rattle.fault_sites.specs.Telling.{fed_lines, Tells};
ghost use Rattle.vcp_outside.specs.Pens.{Goes};

use crate::counts::BEHIND_ALL;
use crate::cycle_values::CycleValues;
use crate::flips::BITS;
use crate::graph_values::GraphValues;
use crate::nowhere::Nowhere;
use crate::part::Part;
use crate::run_class::RunClass;
use crate::telling::{Telling, then_acts};
use input_rows::RowList;
use op_graph::Graph;
use signature_table::Table;
use std::alloc::Global;
use vcp_base::{Memory, same_bytes};
use vcp_outside::{LinePen, Pen};

/// The word that names a class.
pub(crate) fn run_class_name(class: RunClass) -> &'static [u8]
    ensures { result.now ≡ run_class_name_of class }
{
    match class {
        RunClass::Flips => b"flips",
        RunClass::Late => b"late",
    }
}

/// The class that a word names.
pub fn run_class_named(word: &[u8]) -> Option<RunClass>
    ensures { result ≡ run_class_of word.now }
{
    if same_bytes(word, b"flips") {
        return Some(RunClass::Flips);
    }
    if same_bytes(word, b"late") {
        return Some(RunClass::Late);
    }
    None
}

/// Goes on with the sites of a class in cycle `n`, which is the last one of a run. Flips that all stand before the part are passed over at once.
fn then_cycle<P: Pen>(
    told: Telling<P>,
    class: RunClass,
    n: u32,
    graph: &Graph,
    run: &GraphValues,
    table: &Table,
) -> Telling<P>
    requires few { n < most_cycles }
    requires going { 0 < told.part.left }
    ensures { Tells (P.seen told.pen) (P.seen result.pen) told.part result.part
        (in_cycle class (cycle_of table.now n (before graph.now run.now) run.now.values.operations.items)) }
{
    let cycle = CycleValues {
        class,
        graph,
        table,
        cycle: n,
        cells: &run.past.cells,
        past: &run.past.operations,
        values: &run.values.operations,
    };
    match class {
        RunClass::Flips => {
            let Telling { pen, part } = told;
            let count = graph.len() as u64 * BITS as u64;
            if count <= part.skip {
                let part = Part {
                    skip: part.skip - count,
                    left: part.left,
                };
                return Telling { pen, part };
            }
            then_acts(Telling { pen, part }, &cycle, graph, n)
        }
        // There is no cycle before the first.
        RunClass::Late => if n == 0 {
            told
        } else {
            then_acts(told, &cycle, graph, n)
        },
    }
}

/// Goes on with the sites of a class in the run over all rows, or up to its stop.
fn then_run<P: Pen>(
    mut told: Telling<P>,
    class: RunClass,
    graph: &Graph,
    run: &mut GraphValues,
    table: &Table,
    rows: &RowList,
) -> Telling<P>
    requires room { Room graph.now run.old }
    requires begun { moment graph.now run.old ≡ begun graph.now }
    requires few { length rows.now ≤ most_cycles }
    requires width { All (λ r. length r ≡ length graph.now.inputs) rows.now }
    ensures { Tells (P.seen told.pen) (P.seen result.pen) told.part result.part (run_sites class table.now graph.now rows.now) }
{
    let count = rows.len() as u32;
    'cycles: for n in 0..count {
        if told.part.left == 0 {
            return told;
        }
        rows.get(n, &mut run.row);
        match run.cycle(graph) {
            Some(_) => return told,
            None => told = then_cycle(told, class, n, graph, run, table),
        }
    }
    told
}

/// Goes on with a part of these sites.
pub(crate) fn then_part_of_run<P: Pen>(
    pen: P,
    part: Part,
    class: RunClass,
    graph: &Graph,
    run: &mut GraphValues,
    table: &Table,
    rows: &RowList,
) -> P
    requires room { Room graph.now run.old }
    requires begun { moment graph.now run.old ≡ begun graph.now }
    requires few { length rows.now ≤ most_cycles }
    requires width { All (λ r. length r ≡ length graph.now.inputs) rows.now }
    ensures { Goes (P.seen pen) (P.seen result) (fed_lines (kept part (run_sites class table.now graph.now rows.now))) }
{
    let told = Telling { pen, part };
    let Telling { pen, part: _ } = then_run(told, class, graph, run, table, rows);
    pen
}

/// How many sites a class has in the run over all rows, or up to its stop.
pub(crate) fn count_run_sites(
    alloc: Global,
    graph: &Graph,
    table: &Table,
    class: RunClass,
    rows: &RowList,
) -> Result<u64, Memory>
    requires few { length rows.now ≤ most_cycles }
    requires width { All (λ r. length r ≡ length graph.now.inputs) rows.now }
    ensures { IfOk result (λ n. n ≡ length (run_sites class table.now graph.now rows.now)) }
{
    // A graph has at most 65,536 operations.
    let _operations = graph.len();
    let mut run = GraphValues::new(alloc, graph)?;
    let mut nowhere = Nowhere {};
    let pen = LinePen::new(&mut nowhere);
    let part = BEHIND_ALL;
    let Telling { pen: _, part } = then_run(
        Telling { pen, part },
        class,
        graph,
        &mut run,
        table,
        rows,
    );
    Ok(u64::MAX - part.skip)
}
