//! How the boxes of operations look.

ghost use Rattle.std.specs.Prelude.{◌≡◌, ◌<◌, ◌≤◌, ◌+◌, ℕ, length};
ghost use Rattle.op_graph.specs.Lists.{Lists};
ghost use Rattle.pictures.specs.declared.looks.Look.{Look as LookOf};
ghost use Rattle.pictures.specs.Looks.{audit_looks};

use crate::colours::{Colour, colour_of};
use op_graph::Graph;
use weight_audit::Weights;

/// The worst that comes of faults, from the worst on.
#[derive(Clone, Copy)]
pub enum Worst {
    /// A wrong value was released.
    Wrong,
    /// The run went on where it was to stop.
    RanOn,
    /// Nothing was seen of a fault, and no released value was another.
    Same,
    /// The run stopped.
    Stopped,
    /// An output was refused.
    Refused,
}

/// How the box of an operation looks.
#[derive(Clone, Copy)]
pub enum Look {
    /// As it shows at the outputs, by weights.
    Shown(Colour),
    /// No fault is there.
    Untried,
    /// By what came of the faults that are there.
    Tried {
        /// The worst that came of one.
        worst: Worst,
        /// Of how many this came.
        some: u32,
        /// How many there are.
        all: u64,
    },
}

/// Something that tells how the boxes of a graph's operations look.
pub trait Looks {
    /// It tells this of a graph.
    ghost IsFor: { Self → Lists → Type 0 };

    /// The look of each operation of a graph.
    ghost looks: { Self → Lists → ℕ → LookOf };

    /// The look of operation `n`.
    fn look(&self, graph: &Graph, n: u32) -> Look
        requires tells { IsFor self.now graph.now }
        requires there { n < length graph.now.operations }
        ensures { result ≡ looks self.now graph.now n };
}

/// The looks by weights, across fewer cycle borders than `distances`.
#[derive(Clone, Copy)]
pub(crate) struct AuditLooks<'a> {
    /// The weights.
    pub(crate) weights: &'a Weights,
    /// The number of cycle borders.
    pub(crate) distances: u32,
}

impl Looks for AuditLooks<'_> {
    ghost IsFor = { λ s g. (s.weights.now.operations ≡ length g.operations) × (length s.weights.now.outputs ≡ length g.outputs)
        × (s.distances ≤ s.weights.now.horizon + 1) };

    ghost looks = { λ s g n. audit_looks g s.weights.now s.distances n };

    fn look(&self, graph: &Graph, n: u32) -> Look {
        Look::Shown(colour_of(self.weights, n, graph.outputs(), self.distances))
    }
}
