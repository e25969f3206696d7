//! The rows of tables.

ghost use Rattle.std.specs.Prelude.{◌≡◌, ◌<◌, ◌≤◌, ◌++◌, length, All};
ghost use Rattle.vcp_outside.specs.Pens.{Goes};
ghost use Rattle.verdict_tables.specs.Parts.{most_parts, IsWhole};
ghost use Rattle.verdict_tables.specs.Tables.{rows as rows_of};
ghost use Rattle.verdict_tables.specs.SumText.{act_name as act_name_of, more_text, delay_text, row_name, row_text};
ghost use Rattle.verdict_tables.specs.SumText.{blanks_before as blanks_before_of, column_text, columns_text, heading_of, rows_below};

use crate::counts::totals_over;
use crate::names::then_operation;
use crate::parts::Parts;
use crate::tables::{OWN_DELAYS, Table, rows};
use fault_injector::Totals;
use op_graph::Graph;
use run_report::variable_name;
use vcp_base::Kind;
use vcp_outside::Pen;

/// The act of row `n`.
fn act_name(n: u32) -> &'static [u8]
    ensures { result.now ≡ act_name_of n }
{
    if n == 0 {
        return b"operand add";
    }
    if n == 1 {
        return b"operand from";
    }
    if n == 2 {
        return b"operand stale";
    }
    if n == 3 {
        return b"result add";
    }
    if n == 4 {
        return b"operator";
    }
    b"skip"
}

/// What is behind the number of cycles of row `n`.
fn or_more(n: u32) -> &'static [u8]
    ensures { result.now ≡ more_text n }
{
    if n < OWN_DELAYS { b"" } else { b" or more" }
}

/// Goes on with what the row of a number of cycles counts; the last such row counts more cycles, too.
pub fn then_delay<P: Pen>(pen: P, n: u32) -> P
    ensures { Goes (P.seen pen) (P.seen result) (delay_text n) }
{
    pen.numbered(b"after ", n as u64).text(or_more(n))
}

/// Goes on with what row `n` of a table counts.
fn then_row_name<P: Pen>(pen: P, graph: &Graph, table: Table, n: u32) -> P
    requires { n < rows_of graph.now table }
    ensures { Goes (P.seen pen) (P.seen result) (row_name graph.now table n) }
{
    match table {
        Table::Acts => pen.text(act_name(n)),
        Table::Operations => then_operation(pen, graph, n),
        Table::Outputs => pen.texts(b"output ", variable_name(graph, Kind::Out, n as u64)),
        Table::Delays => then_delay(pen, n),
    }
}

/// What is before a number at the right end of a column of eight, or, of more than seven digits, before it at all.
fn blanks_before(n: u64) -> &'static [u8]
    ensures { result.now ≡ blanks_before_of n }
{
    if n < 10 {
        return b"       ";
    }
    if n < 100 {
        return b"      ";
    }
    if n < 1000 {
        return b"     ";
    }
    if n < 10000 {
        return b"    ";
    }
    if n < 100000 {
        return b"   ";
    }
    if n < 1000000 {
        return b"  ";
    }
    b" "
}

/// Goes on with a number in its column.
fn then_column<P: Pen>(pen: P, n: u64) -> P
    ensures { Goes (P.seen pen) (P.seen result) (column_text n) }
{
    pen.numbered(blanks_before(n), n)
}

/// Goes on with the columns of totals.
pub(crate) fn then_columns<P: Pen>(pen: P, totals: &Totals) -> P
    ensures { Goes (P.seen pen) (P.seen result) (columns_text totals.now) }
{
    let pen = then_column(pen, totals.faults());
    let pen = then_column(pen, totals.same as u64);
    let pen = then_column(pen, totals.wrong as u64);
    let pen = then_column(pen, totals.ran_on as u64);
    let pen = then_column(pen, totals.refused as u64);
    then_column(pen, totals.stopped as u64)
}

/// Goes on with row `n` of a table, where something is counted in it.
fn then_row<P: Pen>(pen: P, graph: &Graph, table: Table, n: u32, totals: &Totals) -> P
    requires { n < rows_of graph.now table }
    ensures { Goes (P.seen pen) (P.seen result) (row_text (row_name graph.now table n) totals.now) }
{
    if totals.faults() == 0 {
        return pen;
    }
    let pen = then_columns(pen, totals).text(b"  ");
    then_row_name(pen, graph, table, n).text(b"\n")
}

/// Goes on with the names of the columns, before what the rows are about.
pub(crate) fn then_titled<P: Pen>(pen: P, name: &[u8]) -> P
    ensures { Goes (P.seen pen) (P.seen result) (heading_of name.now) }
{
    pen.texts(b"  faults    same   wrong  ran-on refused stopped  ", name)
        .text(b"\n")
}

/// Goes on with a table, whose rows are about this.
pub(crate) fn then_table<P: Pen>(
    pen: P,
    graph: &Graph,
    table: Table,
    title: &[u8],
    parts: &Parts,
) -> P
    requires whole { All IsWhole parts.now }
    requires few { length parts.now ≤ most_parts }
    ensures { Goes (P.seen pen) (P.seen result)
        (heading_of title.now ++ rows_below graph.now table parts.now (rows_of graph.now table)) }
{
    let mut pen = then_titled(pen, title);
    'rows: for n in 0..rows(graph, table) {
        let totals = totals_over(table, n, parts);
        pen = then_row(pen, graph, table, n, &totals);
    }
    pen
}
