//! What the later readings of each word come to, for each number of readings that come before.

ghost use Rattle.std.specs.Prelude.{◌≡◌, ◌-◌, ◌<◌, suc, Some, drop, length, slice_get};
ghost use Rattle.std.specs.Prelude.{IfOk};
ghost use Rattle.vcp_base.specs.Code.{modulus as modulus_of};
ghost use Rattle.op_graph.specs.Rules.{IsGraph};
ghost use Rattle.fault_cover.specs.declared.nearest.Nearest.{Nearest as Found};
ghost use Rattle.fault_cover.specs.Beginnings.{ArePlaced, IsPlaced};
ghost use Rattle.fault_cover.specs.Surveys.{AreMaps, AreRests, AreWordRests, IsOutOf, IsRest, SumsTo, before_of};

use crate::items::item;
use crate::nearest::{Nearest, is_nearer, nearer};
use crate::starts::Start;
use crate::survey::Survey;
use crate::telling::{first_from, then_comes};
use coded_unit::words_split_in_one_way;
use op_graph::{Graph, entries_keep_their_rules};
use signature_table::constants_are_in_range;
use std::alloc::Global;
use vcp_base::{CopyList, Memory, Residue};
use weight_audit::differences_are_superposed;

/// What the readings of a word come to, from one of them on.
#[derive(Clone, Copy)]
pub(crate) struct Rest {
    /// Which output's OUT is reached first.
    pub(crate) output: Option<Nearest>,
    /// Which operation that may stop is reached first.
    pub(crate) stop: Option<Nearest>,
    /// What comes to that output for each 1 of the number that is added, where it is reached within the horizon.
    pub(crate) sum: Residue,
}

/// What the readings of a word come to, from the last one on, from the last but one on, and so on, seen as a list.
pub(crate) type Rests = CopyList<Rest>;

/// That of the readings behind so many.
pub(crate) fn rest_behind(rests: &Rests, right: usize) -> Rest
    requires { right < length rests.now }
    ensures { slice_get rests.now (length rests.now - suc right) ≡ Some result }
{
    rests.at(rests.len() - 1 - right)
}

/// What came to the output that is reached first with one more start, from which this is reached first: 0 where it wasn't the first before, since
/// nothing came there then.
fn came(old: Rest, near: Option<Nearest>) -> Residue
    ensures { result ≡ before_of old.output old.sum near }
{
    match old.output {
        None => 0,
        Some(first) => match near {
            None => old.sum,
            Some(new) => if is_nearer(new, first) { 0 } else { old.sum },
        },
    }
}

/// What comes to the output whose OUT is reached first with one more start, from which `near` is reached first; 0 where that is beyond the horizon.
fn sum_of(
    graph: &Graph,
    survey: &Survey,
    old: Rest,
    near: Option<Nearest>,
    output: Option<Nearest>,
    start: &Start,
) -> Residue
    requires graph { IsGraph graph.now }
    requires maps { AreMaps graph.now survey.now }
    requires out { (n : Found) → output ≡ Some n → IsOutOf graph.now n.op }
    requires placed { IsPlaced graph.now.profile (length graph.now.operations) start.now }
    requires before { old.sum < modulus_of graph.now.profile }
    ensures below { result < modulus_of graph.now.profile }
    ensures value { SumsTo graph.now survey.now (before_of old.output old.sum near) output start.now result }
{
    // OUTs are operations.
    entries_keep_their_rules();
    constants_are_in_range();
    match output {
        None => 0,
        Some(first) => {
            let before = came(old, near);
            let horizon = survey.horizon();
            if horizon < first.borders {
                return 0;
            }
            let number = survey.number(first.op);
            then_comes(
                graph,
                survey.weights(),
                number,
                first.borders,
                start,
                before,
            )
        }
    }
}

/// What the readings from one on come to, by what those behind it do.
fn then_rest(graph: &Graph, survey: &Survey, starts: &[Start], i: usize, old: Rest) -> Rest
    requires graph { IsGraph graph.now }
    requires maps { AreMaps graph.now survey.now }
    requires placed { ArePlaced graph.now.profile (length graph.now.operations) starts.now }
    requires there { i < length starts.now }
    requires before { IsRest graph.now survey.now (drop (suc i) starts.now) old }
    ensures { IsRest graph.now survey.now (drop i starts.now) result }
{
    // What isn't reached has no weight.
    differences_are_superposed();
    words_split_in_one_way();
    let start = item(starts, i);
    let near = first_from(survey.outputs(), &start);
    let able = first_from(survey.stops(), &start);
    let output = nearer(old.output, near);
    let stop = nearer(old.stop, able);
    let sum = sum_of(graph, survey, old, near, output, &start);
    Rest { output, stop, sum }
}

/// What the readings of a word come to.
fn rests_of(
    alloc: Global,
    graph: &Graph,
    survey: &Survey,
    starts: &[Start],
) -> Result<Rests, Memory>
    requires graph { IsGraph graph.now }
    requires maps { AreMaps graph.now survey.now }
    requires placed { ArePlaced graph.now.profile (length graph.now.operations) starts.now }
    ensures { IfOk result (λ rests. AreRests graph.now survey.now starts.now rests) }
{
    constants_are_in_range();
    let mut rests = Rests::new(alloc);
    let mut rest = Rest {
        output: None,
        stop: None,
        sum: 0,
    };
    'readings: for done in 0..starts.len() {
        rest = then_rest(graph, survey, starts, starts.len() - 1 - done, rest);
        rests.push(rest)?;
    }
    Ok(rests)
}

/// What the readings of each word come to.
pub(crate) fn word_rests(
    alloc: Global,
    graph: &Graph,
    survey: &Survey,
) -> Result<Vec<Rests>, Memory>
    requires graph { IsGraph graph.now }
    requires maps { AreMaps graph.now survey.now }
    ensures { IfOk result (λ rests. AreWordRests graph.now survey.now rests.items) }
{
    // The LOAD of each cell is an operation.
    entries_keep_their_rules();
    words_split_in_one_way();
    let mut all = Vec::new(alloc);
    'words: for k in 0..graph.len() {
        let word = survey.readings(k);
        let rests = rests_of(alloc, graph, survey, word)?;
        all.push(rests)?;
    }
    Ok(all)
}
