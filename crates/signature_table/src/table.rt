//! Tables of signatures.

ghost use Rattle.std.specs.Prelude.{◌≡◌, ◌≤◌, ◌<◌, Some, IfOk, length, slice_get, unsigned_abs};
ghost use Rattle.vcp_base.specs.Code.{modulus};
ghost use Rattle.vcp_base.specs.Limits.{seeds, most_step, most_cycles};
ghost use Rattle.op_graph.specs.Lists.{cells};
ghost use Rattle.signature_table.specs.Signatures.{signatures, signature, expected as expected_value, store_of as store_of_cell, table_of, IsTable};

use crate::corrections::correction;
use crate::signatures::{expected, signature_of};
use op_graph::{Graph, Op};
use std::alloc::Global;
use std::marker::Model;
use vcp_base::{Memory, Profile, Residue};

/// The numbers of a graph's code: a seed, a step, and a correction for each operation.
#[derive(Drop)]
pub struct Table {
    profile: Profile,
    seed: u32,
    step: u16,
    corrections: Vec<Residue>,
}

impl Model for Table {
    ghost use Rattle.signature_table.specs.Signatures.{Numbers, IsTable};

    ghost Value = { Numbers };

    ghost view = { λ t. record { profile = t.profile; seed = t.seed; step = t.step; corrections = t.corrections.items } };

    ghost invariant = { λ t. IsTable (record { profile = t.profile; seed = t.seed; step = t.step; corrections = t.corrections.items }) };
}

impl Table {
    /// The table of a graph. The seed is below 2^30 and the step 1 to 1000.
    pub fn new(alloc: Global, graph: &Graph, seed: u32, step: u16) -> Result<Table, Memory>
        requires seed { seed < seeds }
        requires step_from { 1 ≤ step }
        requires step_to { step ≤ most_step }
        ensures numbers { IfOk result (λ table. table ≡ table_of seed step graph.now) }
        ensures count { IfOk result (λ table. length table.corrections ≡ length graph.now.operations) }
    {
        let profile = graph.profile();
        let mut corrections = Vec::new(alloc);
        'operations: for k in 0..graph.len() {
            let op = graph.operation(k);
            let store = store_of(graph, &op);
            corrections.push(correction(profile, seed, step, k, &op, store))?;
        }
        Ok(Table {
            profile,
            seed,
            step,
            corrections,
        })
    }

    /// The code of the graph.
    pub fn profile(&self) -> Profile
        ensures { result ≡ self.now.profile }
    {
        self.profile
    }

    /// The seed, below 2^30: the signature of operation 0.
    pub fn seed(&self) -> u32
        ensures value { result ≡ self.now.seed }
        ensures ranges { IsTable self.now }
    {
        self.seed
    }

    /// By how much the stamp grows from cycle to cycle, 1 to 1000.
    pub fn step(&self) -> u16
        ensures value { result ≡ self.now.step }
        ensures ranges { IsTable self.now }
    {
        self.step
    }

    /// The signature of operation `i`, which is below the number of operations. It is below 2^30 in the
    /// narrow code and below 2^60 in the wide one, and no other operation has it, as
    /// `signatures_are_distinct` says.
    pub fn signature(&self, i: u32) -> Residue
        requires { i < length self.now.corrections }
        ensures value { result ≡ signature self.now.profile self.now.seed i }
        ensures below { result < signatures self.now.profile }
    {
        signature_of(self.profile, self.seed, i)
    }

    /// The correction of operation `i`, which is below the number of operations.
    pub fn correction(&self, i: u32) -> Residue
        requires { i < length self.now.corrections }
        ensures value { slice_get self.now.corrections i ≡ Some result }
        ensures below { result < modulus self.now.profile }
    {
        self.corrections[i as usize]
    }

    /// The residue that the word of operation `i`, which is below the number of operations, has in
    /// cycle `n`, counted from 0 and below 1,000,000, where nothing is amiss.
    pub fn expected(&self, i: u32, n: u32) -> Residue
        requires operation { i < length self.now.corrections }
        requires cycle { n < most_cycles }
        ensures value { result ≡ expected_value self.now.profile self.now.seed self.now.step i n }
        ensures below { result < modulus self.now.profile }
    {
        expected(self.profile, self.seed, self.step, i, n)
    }
}

/// The number of the STORE of the cell that a LOAD reads, which its `imm` names; `None` where there is
/// no such cell.
pub fn store_of(graph: &Graph, op: &Op) -> Option<u32>
    ensures { result ≡ store_of_cell (cells graph.now) (unsigned_abs op.now.imm) }
{
    let i = op.imm.unsigned_abs();
    if i >= graph.cells() as u64 {
        return None;
    }
    Some(graph.cell(i as u32).store)
}
