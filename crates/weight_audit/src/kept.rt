//! Weights, as they are kept.

ghost use Rattle.std.specs.Prelude.{◌≡◌, ◌<◌, ◌≤◌, Some, length, slice_get};
ghost use Rattle.weight_audit.specs.Audit.{IsWhole, distance as distance_of, weight_kept, reached_kept};

use std::marker::Model;
use vcp_base::{List, Residue};

/// Why weights are not given.
#[derive(Clone, Copy)]
pub enum AuditFault {
    /// There are more of them than may be kept: operations times outputs times one more than the
    /// horizon, which is `cells`.
    TooLarge { cells: u64 },
    /// An allocation failed.
    Memory,
}

/// For one output and one number of cycle borders: the weight of each operation, and whether a path
/// leads from it.
pub(crate) struct Distance {
    weights: Vec<Residue>,
    reached: Vec<bool>,
}

impl Model for Distance {
    ghost use Rattle.weight_audit.specs.Audit.{Distance};

    ghost Value = { Distance };

    ghost view = { λ d. record { weights = d.weights.items; reached = d.reached.items } };
}

impl Drop for Distance {
    fn drop(self) {
        let Distance {
            weights: _,
            reached: _,
        } = self;
    }
}

impl Distance {
    /// The weights and the marks of a distance.
    pub(crate) fn new(weights: Vec<Residue>, reached: Vec<bool>) -> Distance
        ensures { result ≡ record { weights = weights.items; reached = reached.items } }
    {
        Distance { weights, reached }
    }

    /// The weight of each operation.
    pub(crate) fn weights(&self) -> &[Residue]
        ensures { result.now ≡ self.now.weights }
    {
        &self.weights
    }

    /// Whether a path leads from each operation.
    pub(crate) fn reached(&self) -> &[bool]
        ensures { result.now ≡ self.now.reached }
    {
        &self.reached
    }
}

/// The distances of one output, from no border on, seen as a list.
pub(crate) type Distances = List<Distance>;

/// The weights of a graph's operations at its outputs, after each number of cycle borders up to a
/// horizon.
pub struct Weights {
    operations: u32,
    horizon: u32,
    outputs: Vec<Distances>,
}

impl Model for Weights {
    ghost use Rattle.weight_audit.specs.Audit.{Audit, IsWhole};

    ghost Value = { Audit };

    ghost view = { λ w. record { operations = w.operations; horizon = w.horizon; outputs = w.outputs.items } };

    ghost invariant = { λ w. IsWhole (record { operations = w.operations; horizon = w.horizon; outputs = w.outputs.items }) };
}

impl Drop for Weights {
    fn drop(self) {
        let Weights {
            operations: _,
            horizon: _,
            outputs: _,
        } = self;
    }
}

impl Weights {
    /// The weights of so many operations up to a horizon, of each output.
    pub(crate) fn new(operations: u32, horizon: u32, outputs: Vec<Distances>) -> Weights
        requires { IsWhole (record { operations = operations; horizon = horizon; outputs = outputs.items }) }
        ensures { result ≡ record { operations = operations; horizon = horizon; outputs = outputs.items } }
    {
        Weights {
            operations,
            horizon,
            outputs,
        }
    }

    /// The distances of an output.
    fn of_output(&self, output: u32) -> &Distances
        requires { output < length self.now.outputs }
        ensures there { slice_get self.now.outputs output ≡ Some result.now }
        ensures whole { IsWhole self.now }
    {
        &self.outputs[output as usize]
    }

    /// The distance of an output across so many borders.
    fn distance(&self, output: u32, after: u32) -> &Distance
        requires output { output < length self.now.outputs }
        requires after { after ≤ self.now.horizon }
        ensures value { result.now ≡ distance_of self.now output after }
        ensures weights { length result.now.weights ≡ self.now.operations }
        ensures reached { length result.now.reached ≡ self.now.operations }
    {
        self.of_output(output).at(after as usize)
    }

    /// The weight of an operation at an output after so many cycle borders: the sum, over all data
    /// paths from the operation to the output's OUT across exactly these borders, of the products of
    /// the multipliers on the path, modulo the constant of the graph's code. The numbers are below
    /// those of operations and outputs, and `after` is at most the horizon. It takes no memory.
    pub fn weight(&self, op: u32, output: u32, after: u32) -> Residue
        requires operation { op < self.now.operations }
        requires output { output < length self.now.outputs }
        requires after { after ≤ self.now.horizon }
        ensures { result ≡ weight_kept self.now op output after }
    {
        self.distance(output, after).weights[op as usize]
    }

    /// Whether a data path leads from an operation to an output's OUT across exactly so many cycle borders.
    /// The numbers are below those of operations and outputs, and `after` is at most the horizon. It takes no
    /// memory. A path is a list of steps from an operation to one that reads it, or from a cell's STORE to
    /// its LOAD across a border.
    pub fn reached(&self, op: u32, output: u32, after: u32) -> bool
        requires operation { op < self.now.operations }
        requires output { output < length self.now.outputs }
        requires after { after ≤ self.now.horizon }
        ensures { result ≡ reached_kept self.now op output after }
    {
        self.distance(output, after).reached[op as usize]
    }
}
