//! What a fault is reported as.

ghost use Rattle.std.specs.Prelude.{◌≡◌, ◌<◌, ◌≤◌, ◌^◌, List, Some, None, true, false, pos, ◌+ℤ◌, ◌≤ℤ◌, drop, map, length, slice_get};
ghost use Rattle.vcp_base.specs.Code.{modulus as modulus_of};
ghost use Rattle.coded_unit.specs.Words.{modulo};
ghost use Rattle.op_graph.specs.declared.op.Outlet.{Outlet};
ghost use Rattle.op_graph.specs.Rules.{IsGraph};
ghost use Rattle.signature_table.specs.Signatures.{IsTableOf, Numbers};
ghost use Rattle.range_walk.specs.declared.range.Stops.{Stops};
ghost use Rattle.weight_audit.specs.Audit.{IsAudit};
ghost use Rattle.fault_cover.specs.declared.effect.Effect.TheVariants as told;
ghost use Rattle.fault_cover.specs.Beginnings.{ArePlaced, IsPlaced, rest_of as rest_of_disturbance, start_at, starts_at};
ghost use Rattle.fault_cover.specs.Sited.{IsSited};
ghost use Rattle.fault_cover.specs.Firsts.{IsFirstOf, NoneRefuses, OneRefuses, before as before_of, behind as behind_of, outlook_of as outlook_is};
ghost use Rattle.fault_cover.specs.Sources.{Source, as_source, comes as comes_of, is_any as is_any_of, part, readings};
ghost use Rattle.fault_cover.specs.Surveys.{IsMapped, IsSurvey};
ghost use Rattle.fault_cover.specs.Telling.{Tells, TellsOf, copies as copies_of, does_the_same as does_the_same_of};
ghost use Rattle.fault_cover.specs.Telling.{gives_own as gives_own_of, subject};
ghost use Rattle.fault_cover.specs.Walks.{AreWithin, further as further_of, kept};

use crate::disturbance::Disturbance;
use crate::effect::Effect;
use crate::inverse::{product, refuses};
use crate::items::item;
use crate::nearest::{Nearest, further, nearer};
use crate::rests::rest_behind;
use crate::starts::{Start, start_of};
use crate::survey::Survey;
use coded_unit::{remainder, words_split_in_one_way};
use fault_script::Act;
use op_graph::{Graph, entries_keep_their_rules};
use signature_table::{Table, constants_are_in_range};
use vcp_base::{Kind, Profile, Residue};
use weight_audit::{Weights, differences_are_superposed};

/// What is reported before it is looked at what arrives at outputs.
#[derive(Clone, Copy)]
pub(crate) enum Outlook {
    /// This.
    Is(Effect),
    /// Outputs are reached first, across so many borders; the first of them has this OUT.
    Outputs(Nearest),
}

/// What is reached first from a start.
pub(crate) fn first_from(found: &[Option<Nearest>], start: &Start) -> Option<Nearest>
    requires op { start.now.op < length found.now }
    requires borders { start.now.borders ≤ 1 }
    requires within { AreWithin 1024 found.now }
    ensures { result ≡ further_of (kept found.now start.now.op) start.now.borders }
{
    further(found[start.op as usize], start.borders)
}

/// What is reached first from one of these starts.
fn first_of(profile: Profile, found: &[Option<Nearest>], starts: &[Start]) -> Option<Nearest>
    requires placed { ArePlaced profile (length found.now) starts.now }
    requires within { AreWithin 1024 found.now }
    ensures { IsFirstOf found.now starts.now result }
{
    let mut first = None;
    'starts: for i in 0..starts.len() {
        let start = item(starts, i);
        first = nearer(first, first_from(found, &start));
    }
    first
}

/// Where no output is reached within the horizon.
fn behind(horizon: u32, output: Option<Nearest>, stop: Option<Nearest>) -> Effect
    ensures { result ≡ behind_of horizon output stop }
{
    match stop {
        Some(first) => if first.borders <= horizon {
            Effect::RunsOn {
                borders: first.borders,
                op: first.op,
            }
        } else {
            Effect::Beyond
        },
        None => if output.is_some() {
            Effect::Beyond
        } else {
            Effect::Nothing
        },
    }
}

/// Where an output is reached within the horizon.
fn before(output: Nearest, stop: Option<Nearest>) -> Outlook
    ensures { result ≡ before_of output stop }
{
    match stop {
        Some(near) => if near.borders < output.borders {
            Outlook::Is(Effect::RunsOn {
                borders: near.borders,
                op: near.op,
            })
        } else {
            Outlook::Outputs(output)
        },
        None => Outlook::Outputs(output),
    }
}

/// By the output and the operation that may stop which are reached first.
fn outlook_of(horizon: u32, output: Option<Nearest>, stop: Option<Nearest>) -> Outlook
    ensures { result ≡ outlook_is horizon output stop }
{
    match output {
        Some(near) => if near.borders <= horizon {
            before(near, stop)
        } else {
            Outlook::Is(behind(horizon, output, stop))
        },
        None => Outlook::Is(behind(horizon, output, stop)),
    }
}

/// The residue of a residue and a product of residues.
fn summed(profile: Profile, before: Residue, more: i128) -> Residue
    requires before { before < 2 ^ 61 }
    requires low { pos 0 ≤ℤ more }
    requires high { more ≤ℤ pos (2 ^ 122) }
    ensures value { result ≡ modulo profile (pos before +ℤ more) }
    ensures below { result < modulus_of profile }
{
    remainder(profile, before as i128 + more)
}

/// What comes from a start to an output, across so many borders from the fault, beside what came before.
pub(crate) fn then_comes(
    graph: &Graph,
    weights: &Weights,
    output: u32,
    borders: u32,
    start: &Start,
    before: Residue,
) -> Residue
    requires audit { IsAudit graph.now weights.now.horizon weights.now }
    requires output { output < length graph.now.outputs }
    requires borders { borders ≤ weights.now.horizon }
    requires placed { IsPlaced graph.now.profile (length graph.now.operations) start.now }
    requires before { before < modulus_of graph.now.profile }
    ensures below { result < modulus_of graph.now.profile }
    ensures value { (s : Source) (o : Outlet) → start.now ≡ start_at graph.now.profile s → slice_get graph.now.outputs output ≡ Some o
        → result ≡ modulo graph.now.profile (pos before +ℤ part graph.now o.op borders s) }
{
    // The constant is below 2^61.
    constants_are_in_range();
    words_split_in_one_way();
    if borders < start.borders {
        return before;
    }
    let weight = weights.weight(start.op, output, borders - start.borders);
    summed(graph.profile(), before, product(start.amount, weight))
}

/// What comes from these starts.
fn comes(graph: &Graph, weights: &Weights, output: u32, borders: u32, starts: &[Start]) -> Residue
    requires audit { IsAudit graph.now weights.now.horizon weights.now }
    requires output { output < length graph.now.outputs }
    requires borders { borders ≤ weights.now.horizon }
    requires placed { ArePlaced graph.now.profile (length graph.now.operations) starts.now }
    ensures below { result < modulus_of graph.now.profile }
    ensures value { (from : List Source) (o : Outlet) → starts.now ≡ starts_at graph.now.profile from → slice_get graph.now.outputs output ≡ Some o
        → result ≡ modulo graph.now.profile (comes_of graph.now o.op borders from) }
{
    constants_are_in_range();
    words_split_in_one_way();
    let mut sum = 0;
    'starts: for i in 0..starts.len() {
        let start = item(starts, i);
        sum = then_comes(graph, weights, output, borders, &start, sum);
    }
    sum
}

/// Whether one of the outputs from this one on refuses what arrives at it. What isn't reached has the weight 0, and refuses nothing.
fn is_refused(
    graph: &Graph,
    weights: &Weights,
    first: u32,
    borders: u32,
    starts: &[Start],
    any: bool,
) -> bool
    requires audit { IsAudit graph.now weights.now.horizon weights.now }
    requires borders { borders ≤ weights.now.horizon }
    requires placed { ArePlaced graph.now.profile (length graph.now.operations) starts.now }
    ensures yes { (from : List Source) → starts.now ≡ starts_at graph.now.profile from → result ≡ true → OneRefuses graph.now borders any from }
    ensures no { (from : List Source) → starts.now ≡ starts_at graph.now.profile from → result ≡ false → NoneRefuses graph.now first borders any from }
{
    words_split_in_one_way();
    'outputs: for output in first..graph.outputs() {
        let residue = comes(graph, weights, output, borders, starts);
        let refused = refuses(graph.profile(), any, residue);
        if refused {
            return true;
        }
    }
    false
}

/// What is reported of what spreads from these starts.
fn told_of(graph: &Graph, survey: &Survey, starts: &[Start], any: bool) -> Effect
    requires graph { IsGraph graph.now }
    requires mapped { IsMapped graph.now survey.now }
    requires placed { ArePlaced graph.now.profile (length graph.now.operations) starts.now }
    ensures { (t : Numbers) (stops : List Stops) (from : List Source) → IsSurvey (subject graph.now t survey.now.horizon stops) survey.now
        → starts.now ≡ starts_at graph.now.profile from → TellsOf (subject graph.now t survey.now.horizon stops) any from result }
{
    // The OUTs of outputs rise, and what isn't reached has no weight.
    entries_keep_their_rules();
    differences_are_superposed();
    words_split_in_one_way();
    let profile = graph.profile();
    let output = first_of(profile, survey.outputs(), starts);
    let stop = first_of(profile, survey.stops(), starts);
    let outlook = outlook_of(survey.horizon(), output, stop);
    match outlook {
        Outlook::Is(told) => told,
        Outlook::Outputs(near) => {
            let first = survey.number(near.op);
            let borders = near.borders;
            let refused = is_refused(graph, survey.weights(), first, borders, starts, any);
            if refused {
                Effect::Refused { borders }
            } else {
                Effect::Shows {
                    borders,
                    output: first,
                }
            }
        }
    }
}

/// Whether a kind gives its own number, and has no operand.
fn gives_own(kind: Kind) -> bool
    ensures { result ≡ gives_own_of kind }
{
    match kind {
        Kind::Input | Kind::Const => true,
        _ => false,
    }
}

/// Whether a kind gives its operand, with the multiplier 1.
fn copies(kind: Kind) -> bool
    ensures { result ≡ copies_of kind }
{
    match kind {
        Kind::Load | Kind::Store | Kind::Out | Kind::Conv => true,
        _ => false,
    }
}

/// Whether the operation is done as one of another kind that does the same: that has the same multipliers and the same function.
fn does_the_same(own: Kind, disturbance: &Disturbance) -> bool
    ensures { result ≡ does_the_same_of own disturbance.now }
{
    match *disturbance {
        Disturbance::Does(Act::Operator { kind }) => {
            gives_own(own) && gives_own(kind) || copies(own) && copies(kind)
        }
        _ => false,
    }
}

/// Whether a number is added of which nothing is known.
fn is_any(disturbance: &Disturbance) -> bool
    ensures { result ≡ is_any_of disturbance.now }
{
    match disturbance {
        Disturbance::AddToResult
        | Disturbance::AddToOperand { j: _ }
        | Disturbance::AddToRest { right: _ } => true,
        Disturbance::Late { j: _, r: _ } | Disturbance::Does(_) => false,
    }
}

/// How many readings come before, where the word of the operation changes between two of its readings.
fn rest_of(disturbance: &Disturbance) -> Option<u32>
    ensures { result ≡ rest_of_disturbance disturbance.now }
{
    match *disturbance {
        Disturbance::AddToRest { right } => Some(right),
        _ => None,
    }
}

/// The starts but for so many first ones.
fn left_of(starts: &[Start], right: usize) -> &[Start]
    requires { right ≤ length starts.now }
    ensures { result.now ≡ drop right starts.now }
{
    &starts[right..]
}

/// What is reported where the word of operation `k` changes behind so many readings. What comes to the output that is reached first was summed before.
fn told_of_rest(graph: &Graph, survey: &Survey, k: u32, right: u32) -> Effect
    requires graph { IsGraph graph.now }
    requires mapped { IsMapped graph.now survey.now }
    requires there { k < length graph.now.operations }
    requires stands { right < length (readings graph.now k) }
    ensures { (t : Numbers) (stops : List Stops) → IsSurvey (subject graph.now t survey.now.horizon stops) survey.now
        → TellsOf (subject graph.now t survey.now.horizon stops) true (map as_source (drop right (readings graph.now k))) result }
{
    // The LOAD and the STORE of each cell are operations.
    entries_keep_their_rules();
    words_split_in_one_way();
    differences_are_superposed();
    let starts = survey.readings(k);
    let left = left_of(starts, right as usize);
    let rests = survey.rests(k);
    let rest = rest_behind(rests, right as usize);
    let outlook = outlook_of(survey.horizon(), rest.output, rest.stop);
    match outlook {
        Outlook::Is(told) => told,
        Outlook::Outputs(near) => {
            let refused = refuses(graph.profile(), true, rest.sum);
            if refused {
                return Effect::Refused {
                    borders: near.borders,
                };
            }
            told_of(graph, survey, left, true)
        }
    }
}

/// What is reported of what is amiss at operation `k` of a surveyed graph, whose table this is.
pub fn tell(
    graph: &Graph,
    table: &Table,
    survey: &Survey,
    k: u32,
    disturbance: &Disturbance,
) -> Effect
    requires table { IsTableOf table.now graph.now }
    requires there { k < length graph.now.operations }
    requires survey { IsMapped graph.now survey.now }
    requires stands { IsSited graph.now k disturbance.now }
    ensures { (stops : List Stops) → IsSurvey (subject graph.now table.now survey.now.horizon stops) survey.now
        → Tells (subject graph.now table.now survey.now.horizon stops) k disturbance.now result }
{
    let _operations = graph.operations();
    let op = graph.operation(k);
    let same = does_the_same(op.kind, disturbance);
    if same {
        return Effect::Nothing;
    }
    let rest = rest_of(disturbance);
    match rest {
        Some(right) => told_of_rest(graph, survey, k, right),
        None => {
            let begun = start_of(graph, table, k, disturbance);
            let starts = [begun];
            let any = is_any(disturbance);
            told_of(graph, survey, &starts, any)
        }
    }
}
