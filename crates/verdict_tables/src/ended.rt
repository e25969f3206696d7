//! The table that distinguishes the groups of which no output shows anything.

ghost use Rattle.std.specs.Prelude.{◌≡◌, ◌<◌, ◌≤◌, ◌+◌, length, All};
ghost use Rattle.vcp_outside.specs.Pens.{Goes};
ghost use Rattle.fault_script.specs.ScriptOf.{most_faults};
ghost use Rattle.verdict_tables.specs.Parts.{most_parts};
ghost use Rattle.verdict_tables.specs.SumText.{row_text};
ghost use Rattle.verdict_tables.specs.SameEndings.{is_ended as is_ended_of, ended_count};
ghost use Rattle.verdict_tables.specs.SameEndings.{all_endings, same_only, endings_text};

use crate::SameEnding;
use crate::endings::{Endings, EndingsOfParts};
use crate::rows::{then_columns, then_titled};
use fault_injector::Totals;
use vcp_outside::Pen;

/// Whether a group is in row `n`.
pub(crate) fn is_ended(n: u32, ending: Option<SameEnding>) -> bool
    ensures { result ≡ is_ended_of n ending }
{
    match ending {
        Some(SameEnding::NeverReached) => n == 0,
        Some(SameEnding::DiedOut) => n == 1,
        Some(SameEnding::Stands) => n == 2,
        None => false,
    }
}

/// How many groups are in row `n`, with so many before them.
fn and_ended(before: u32, n: u32, endings: &Endings) -> u32
    requires { before + length endings.now < 4294967295 }
    ensures count { result ≡ before + ended_count n endings.now }
    ensures few { result ≤ before + length endings.now }
{
    let mut count = before;
    'endings: for i in 0..endings.len() {
        if !is_ended(n, endings.at(i)) {
            continue;
        }
        count += 1;
    }
    count
}

/// How many groups of all parts are in row `n`.
fn count_ended(n: u32, endings: &EndingsOfParts) -> u32
    requires each { All (λ es. length es ≤ most_faults) endings.now }
    requires few { length endings.now ≤ most_parts }
    ensures { result ≡ ended_count n (all_endings endings.now) }
{
    let mut count = 0;
    'parts: for k in 0..endings.len() {
        count = and_ended(count, n, endings.at(k));
    }
    count
}

/// Goes on with row `n`, of this name, where something is counted in it.
fn then_ended_row<P: Pen>(pen: P, n: u32, name: &[u8], endings: &EndingsOfParts) -> P
    requires each { All (λ es. length es ≤ most_faults) endings.now }
    requires few { length endings.now ≤ most_parts }
    ensures { Goes (P.seen pen) (P.seen result) (row_text name.now (same_only (ended_count n (all_endings endings.now)))) }
{
    let count = count_ended(n, endings);
    if count == 0 {
        return pen;
    }
    let totals = Totals {
        same: count,
        wrong: 0,
        ran_on: 0,
        refused: 0,
        stopped: 0,
    };
    then_columns(pen, &totals).texts(b"  ", name).text(b"\n")
}

/// Goes on with the table.
pub(crate) fn then_endings<P: Pen>(pen: P, endings: &EndingsOfParts) -> P
    requires each { All (λ es. length es ≤ most_faults) endings.now }
    requires few { length endings.now ≤ most_parts }
    ensures { Goes (P.seen pen) (P.seen result) (endings_text (all_endings endings.now)) }
{
    let pen = then_titled(pen, b"by how it ends where it shows nowhere");
    let pen = then_ended_row(pen, 0, b"never reached", endings);
    let pen = then_ended_row(pen, 1, b"died out", endings);
    then_ended_row(pen, 2, b"stands in a cell", endings)
}
