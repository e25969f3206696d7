//! How many verdicts there are of each sort: in a row of a table, and in all.

ghost use Rattle.std.specs.Prelude.{◌≡◌, ◌<◌, ◌≤◌, ◌+◌, length, All};
ghost use Rattle.fault_script.specs.ScriptOf.{most_faults};
ghost use Rattle.fault_injector.specs.FaultLines.{faults as faults_of, totals_after, totals_of};
ghost use Rattle.verdict_tables.specs.Parts.{all_verdicts, totals_over as totals_over_of, most_parts, IsWhole};
ghost use Rattle.verdict_tables.specs.Tables.{picked, totals_in as totals_in_of};
ghost use Rattle.verdict_tables.specs.SumText.{shows_unseen as unseen_in};

use crate::parts::Parts;
use crate::tables::{Table, is_in};
use crate::verdicts::Verdicts;
use fault_injector::Totals;
use fault_script::Script;

/// Totals with those of the verdicts in row `n` of a table.
fn and_row(before: Totals, table: Table, n: u32, script: &Script, verdicts: &Verdicts) -> Totals
    requires many { length verdicts.now ≡ length script.now }
    requires few { faults_of before + length script.now < 4294967295 }
    ensures totals { result ≡ totals_after before (picked table n script.now verdicts.now) }
    ensures few { faults_of result ≤ faults_of before + length script.now }
{
    let mut totals = before;
    'groups: for i in 0..script.len() {
        let verdict = verdicts.at(i);
        if !is_in(table, n, script.at(i), verdict) {
            continue;
        }
        totals.count(&verdict);
    }
    totals
}

/// Totals with those of verdicts.
fn and_all(before: Totals, verdicts: &Verdicts) -> Totals
    requires { faults_of before + length verdicts.now < 4294967295 }
    ensures totals { result ≡ totals_after before verdicts.now }
    ensures few { faults_of result ≤ faults_of before + length verdicts.now }
{
    let mut totals = before;
    'verdicts: for i in 0..verdicts.len() {
        totals.count(&verdicts.at(i));
    }
    totals
}

/// The totals of the verdicts in row `n` of a table.
pub fn totals_in(table: Table, n: u32, script: &Script, verdicts: &Verdicts) -> Totals
    requires many { length verdicts.now ≡ length script.now }
    requires few { length script.now ≤ most_faults }
    ensures { result ≡ totals_in_of table n script.now verdicts.now }
{
    and_row(Totals::new(), table, n, script, verdicts)
}

/// The same of the verdicts of all parts.
pub fn totals_over(table: Table, n: u32, parts: &Parts) -> Totals
    requires whole { All IsWhole parts.now }
    requires few { length parts.now ≤ most_parts }
    ensures { result ≡ totals_over_of table n parts.now }
{
    let mut totals = Totals::new();
    'parts: for k in 0..parts.len() {
        let part = parts.at(k);
        totals = and_row(totals, table, n, &part.script, &part.verdicts);
    }
    totals
}

/// The totals of verdicts.
pub fn totals_of_all(verdicts: &Verdicts) -> Totals
    requires { length verdicts.now ≤ most_faults }
    ensures { result ≡ totals_of verdicts.now }
{
    and_all(Totals::new(), verdicts)
}

/// The totals of the verdicts of all parts.
pub fn totals_of_parts(parts: &Parts) -> Totals
    requires whole { All IsWhole parts.now }
    requires few { length parts.now ≤ most_parts }
    ensures { result ≡ totals_of (all_verdicts parts.now) }
{
    let mut totals = Totals::new();
    'parts: for k in 0..parts.len() {
        totals = and_all(totals, &parts.at(k).verdicts);
    }
    totals
}

/// Whether a fault shows that isn't seen: whether a verdict is `wrong` or `ran-on`.
pub fn shows_unseen(totals: &Totals) -> bool
    ensures { result ≡ unseen_in totals.now }
{
    totals.wrong != 0 || totals.ran_on != 0
}
