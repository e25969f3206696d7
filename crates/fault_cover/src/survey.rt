//! What faults of a graph are judged by.

ghost use Rattle.std.specs.Prelude.{◌≡◌, ◌<◌, ◌≤◌, length, slice_get, slice_index_or, Some, IfOk, IfErr, Err};
ghost use Rattle.vcp_base.specs.Limits.{most_horizon};
ghost use Rattle.op_graph.specs.Rules.{IsGraph};
ghost use Rattle.signature_table.specs.Signatures.{IsTableOf};
ghost use Rattle.weight_audit.specs.Audit.{most_weights, weights_up_to, IsAudit};
ghost use Rattle.weight_audit.specs.declared.kept.AuditFault.TheVariants as fault;
ghost use Rattle.fault_cover.specs.Surveys.{AreAble, AreNumbers, AreOutputs, AreOuts, AreStops, IsMapped, IsSurveyOf};

use crate::items::item;
use crate::nearest::{Nearest, find_nearest};
use crate::rests::{Rests, word_rests};
use crate::starts::{Start, Starts, readings};
use op_graph::{Graph, entries_keep_their_rules};
use range_audit::ranges_of;
use range_walk::Stops;
use signature_table::Table;
use std::alloc::Global;
use std::marker::Model;
use vcp_base::Memory;
use weight_audit::weigh::weights;
use weight_audit::{AuditFault, Weights};

/// The weights of a graph up to a horizon, what is reached first from each operation, the readings of each operation's word, and what the later of
/// them come to.
pub struct Survey {
    pub(crate) horizon: u32,
    pub(crate) weights: Weights,
    pub(crate) outputs: Vec<Option<Nearest>>,
    pub(crate) stops: Vec<Option<Nearest>>,
    pub(crate) numbers: Vec<u32>,
    pub(crate) readings: Vec<Starts>,
    pub(crate) rests: Vec<Rests>,
}

impl Model for Survey {
    ghost use Rattle.fault_cover.specs.Surveys.{Surveyed};

    ghost Value = { Surveyed };

    ghost view = { λ s. record {
      horizon = s.horizon;
      weights = s.weights;
      outputs = s.outputs.items;
      stops = s.stops.items;
      numbers = s.numbers.items;
      readings = s.readings.items;
      rests = s.rests.items;
    } };
}

impl Drop for Survey {
    fn drop(self) {
        let Survey {
            horizon: _,
            weights: _,
            outputs: _,
            stops: _,
            numbers: _,
            readings: _,
            rests: _,
        } = self;
    }
}

impl Survey {
    /// Up to how many cycle borders.
    pub(crate) fn horizon(&self) -> u32
        ensures { result ≡ self.now.horizon }
    {
        self.horizon
    }

    /// The weights of the graph.
    pub(crate) fn weights(&self) -> &Weights
        ensures { result.now ≡ self.now.weights }
    {
        &self.weights
    }

    /// Which output's OUT is reached first from each operation.
    pub(crate) fn outputs(&self) -> &[Option<Nearest>]
        ensures { result.now ≡ self.now.outputs }
    {
        &self.outputs
    }

    /// Which operation that may stop is reached first from each operation.
    pub(crate) fn stops(&self) -> &[Option<Nearest>]
        ensures { result.now ≡ self.now.stops }
    {
        &self.stops
    }

    /// The number of the output of the OUT `op`.
    pub(crate) fn number(&self, op: u32) -> u32
        requires { op < length self.now.numbers }
        ensures { slice_index_or self.now.numbers op 0 ≡ result }
    {
        self.numbers[op as usize]
    }

    /// The readings of operation `k`'s word.
    pub(crate) fn readings(&self, k: u32) -> &[Start]
        requires { k < length self.now.readings }
        ensures { slice_get self.now.readings k ≡ Some result.now }
    {
        let word = &self.readings[k as usize];
        word.all()
    }

    /// What the later readings of operation `k`'s word come to.
    pub(crate) fn rests(&self, k: u32) -> &Rests
        requires { k < length self.now.rests }
        ensures { slice_get self.now.rests k ≡ Some result.now }
    {
        &self.rests[k as usize]
    }
}

/// Which operations are OUTs of outputs.
fn are_outputs(alloc: Global, graph: &Graph) -> Result<Vec<bool>, Memory>
    requires { IsGraph graph.now }
    ensures many { IfOk result (λ wanted. length wanted.items ≡ length graph.now.operations) }
    ensures outs { IfOk result (λ wanted. AreOuts graph.now wanted.items) }
{
    // OUTs are operations.
    entries_keep_their_rules();
    let mut wanted = vec![in alloc; false; graph.len() as usize]?;
    'outputs: for i in 0..graph.outputs() {
        wanted[graph.output(i).op as usize] = true;
    }
    Ok(wanted)
}

/// The number of the output of each OUT.
fn output_numbers(alloc: Global, graph: &Graph) -> Result<Vec<u32>, Memory>
    requires { IsGraph graph.now }
    ensures { IfOk result (λ numbers. AreNumbers graph.now numbers.items) }
{
    // OUTs are operations, and rise.
    entries_keep_their_rules();
    let mut numbers = vec![in alloc; 0; graph.len() as usize]?;
    'outputs: for i in 0..graph.outputs() {
        numbers[graph.output(i).op as usize] = i;
    }
    Ok(numbers)
}

/// Which operations may stop.
fn may_stop(alloc: Global, stops: &[Stops]) -> Result<Vec<bool>, Memory>
    ensures many { IfOk result (λ wanted. length wanted.items ≡ length stops.now) }
    ensures able { IfOk result (λ wanted. AreAble stops.now wanted.items) }
{
    let mut wanted = Vec::new(alloc);
    'operations: for i in 0..stops.len() {
        let why = item(stops, i);
        wanted.push(why.are_any())?;
    }
    Ok(wanted)
}

/// Which output's OUT is reached first from each operation.
fn first_outputs(alloc: Global, graph: &Graph) -> Result<Vec<Option<Nearest>>, Memory>
    requires { IsGraph graph.now }
    ensures { IfOk result (λ found. AreOutputs graph.now found.items) }
{
    let _operations = graph.len();
    let outs = are_outputs(alloc, graph)?;
    find_nearest(alloc, graph, &outs)
}

/// Which operation that may stop is reached first from each operation.
fn first_stops(alloc: Global, graph: &Graph) -> Result<Vec<Option<Nearest>>, Memory>
    requires { IsGraph graph.now }
    ensures { IfOk result (λ found. AreStops graph.now found.items) }
{
    let _operations = graph.len();
    let ranges = ranges_of(alloc, graph)?;
    let able = may_stop(alloc, ranges.stops())?;
    find_nearest(alloc, graph, &able)
}

/// The rest of a survey, where the weights are there.
fn surveyed(alloc: Global, graph: &Graph, horizon: u32, weights: Weights) -> Result<Survey, Memory>
    requires { IsAudit graph.now horizon weights }
    ensures { IfOk result (λ v. IsSurveyOf graph.now horizon v) }
{
    let _operations = graph.len();
    let outputs = first_outputs(alloc, graph)?;
    let stops = first_stops(alloc, graph)?;
    let numbers = output_numbers(alloc, graph)?;
    let readings = readings(alloc, graph, graph.profile())?;
    let mut survey = Survey {
        horizon,
        weights,
        outputs,
        stops,
        numbers,
        readings,
        rests: Vec::new(alloc),
    };
    let rests = word_rests(alloc, graph, &survey)?;
    survey.rests = rests;
    Ok(survey)
}

/// Surveys a graph up to a horizon, which is at most 1000. The table is the graph's. It is refused as its weights are: `TooLarge` where there are more
/// of them than may be kept.
pub fn survey_of(
    alloc: Global,
    graph: &Graph,
    table: &Table,
    horizon: u32,
) -> Result<Survey, AuditFault>
    requires table { IsTableOf table.now graph.now }
    requires horizon { horizon ≤ most_horizon }
    ensures survey { IfOk result (λ v. IsSurveyOf graph.now horizon v) }
    ensures mapped { IfOk result (λ v. IsMapped graph.now v) }
    ensures too_large { most_weights < weights_up_to graph.now horizon → result ≡ Err (fault.TooLarge (weights_up_to graph.now horizon)) }
    ensures not_too_large { weights_up_to graph.now horizon ≤ most_weights → IfErr result (λ why. why ≡ fault.Memory) }
{
    let weights = weights(alloc, graph, table, horizon)?;
    match surveyed(alloc, graph, horizon, weights) {
        Ok(survey) => Ok(survey),
        Err(_) => Err(AuditFault::Memory),
    }
}
