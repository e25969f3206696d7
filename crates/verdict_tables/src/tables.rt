//! What a row of a table has.

ghost use Rattle.std.specs.Prelude.{◌≡◌};
ghost use Rattle.std.specs.List.{list_any};
ghost use Rattle.verdict_tables.specs.Tables.{act_number as act_number_of, is_fault_in as is_fault_in_of, shows_at as shows_at_of};
ghost use Rattle.verdict_tables.specs.Tables.{shown_in as shown_in_of, first_cycle as first_cycle_of, is_late as is_late_of};
ghost use Rattle.verdict_tables.specs.Tables.{is_in as is_in_of, rows as rows_of};

use fault_injector::Verdict;
use fault_script::{Act, Fault, Group};
use op_graph::Graph;
use vcp_base::MOST_CYCLES;

/// What verdicts are counted by.
#[derive(Clone, Copy)]
pub enum Table {
    /// By what a fault does.
    Acts,
    /// By the operation at which a fault is.
    Operations,
    /// By the output at which the verdict shows.
    Outputs,
    /// By how many cycles the verdict comes behind the first fault.
    Delays,
}

/// The delays with a row of their own are the numbers below this one.
pub(crate) const OWN_DELAYS: u32 = 16;

/// The number of an act's row.
fn act_number(act: Act) -> u32
    ensures { result ≡ act_number_of act }
{
    match act {
        Act::OperandAdd { j: _, e: _ } => 0,
        Act::OperandFrom { j: _, r: _ } => 1,
        Act::OperandStale { j: _ } => 2,
        Act::ResultAdd { e: _ } => 3,
        Act::Operator { kind: _ } => 4,
        Act::Skip => 5,
    }
}

/// Whether a fault is one of row `n`.
fn is_fault_in(table: Table, n: u32, fault: Fault) -> bool
    ensures { result ≡ is_fault_in_of table n fault }
{
    match table {
        Table::Acts => act_number(fault.act) == n,
        Table::Operations => fault.op == n,
        Table::Outputs | Table::Delays => false,
    }
}

/// Whether a fault of a group is one of row `n`.
fn has_fault_in(table: Table, n: u32, group: &Group) -> bool
    ensures { result ≡ list_any (is_fault_in_of table n) group.now }
{
    'faults: for i in 0..group.len() {
        if is_fault_in(table, n, group.at(i)) {
            return true;
        }
    }
    false
}

/// Whether a verdict shows at output `n`.
fn shows_at(n: u32, verdict: Verdict) -> bool
    ensures { result ≡ shows_at_of n verdict }
{
    match verdict {
        Verdict::Wrong {
            cycle: _,
            output,
            got: _,
            want: _,
        } => output == n,
        Verdict::Refused {
            cycle: _,
            output,
            found: _,
            expected: _,
        } => output == n,
        Verdict::Same
        | Verdict::RanOn { cycle: _ }
        | Verdict::Stopped {
            cycle: _,
            op: _,
            kind: _,
        } => false,
    }
}

/// The cycle in which a verdict shows.
fn shown_in(verdict: Verdict) -> Option<u32>
    ensures { result ≡ shown_in_of verdict }
{
    match verdict {
        Verdict::Same => None,
        Verdict::Wrong {
            cycle,
            output: _,
            got: _,
            want: _,
        } => Some(cycle),
        Verdict::RanOn { cycle } => Some(cycle),
        Verdict::Refused {
            cycle,
            output: _,
            found: _,
            expected: _,
        } => Some(cycle),
        Verdict::Stopped {
            cycle,
            op: _,
            kind: _,
        } => Some(cycle),
    }
}

/// The first cycle in which a group has a fault.
fn first_cycle(group: &Group) -> u32
    ensures { result ≡ first_cycle_of group.now }
{
    let mut first = MOST_CYCLES;
    'faults: for i in 0..group.len() {
        first = first.min(group.at(i).cycle);
    }
    first
}

/// Whether row `n` has a group whose verdict shows in this cycle.
fn is_late(n: u32, group: &Group, shown: Option<u32>) -> bool
    ensures { result ≡ is_late_of n group.now shown }
{
    match shown {
        Some(cycle) => {
            let delay = cycle.saturating_sub(first_cycle(group));
            if n < OWN_DELAYS {
                delay == n
            } else {
                OWN_DELAYS <= delay
            }
        }
        None => false,
    }
}

/// Whether a group with its verdict is in row `n` of a table.
pub(crate) fn is_in(table: Table, n: u32, group: &Group, verdict: Verdict) -> bool
    ensures { result ≡ is_in_of table n group.now verdict }
{
    match table {
        Table::Acts | Table::Operations => has_fault_in(table, n, group),
        Table::Outputs => shows_at(n, verdict),
        Table::Delays => is_late(n, group, shown_in(verdict)),
    }
}

/// How many rows a table has.
pub(crate) fn rows(graph: &Graph, table: Table) -> u32
    ensures { result ≡ rows_of graph.now table }
{
    match table {
        Table::Acts => 6,
        Table::Operations => graph.len(),
        Table::Outputs => graph.outputs(),
        Table::Delays => OWN_DELAYS + 1,
    }
}
