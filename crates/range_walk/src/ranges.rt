//! What is found of all operations of a graph.

ghost use Rattle.std.specs.Prelude.{◌≡◌, ◌<◌, [], ◌∷◌, ◌++◌, length, slice_get, Some, IfOk};

use crate::range::{Range, Stops, range_at};
use std::marker::Model;
use vcp_base::Memory;

/// The range of the values of each operation of a graph, and why it may stop. It is read as two
/// lists, in the order of the operations.
pub struct Ranges {
    known: Vec<Range>,
    stops: Vec<Stops>,
}

impl Model for Ranges {
    ghost use Rattle.range_walk.specs.Known.{KnownRanges};

    ghost Value = { KnownRanges };

    ghost view = { λ r. record { known = r.known.items; stops = r.stops.items } };
}

impl Drop for Ranges {
    fn drop(self) {
        let Ranges { known: _, stops: _ } = self;
    }
}

impl Ranges {
    /// The ranges and the stops of the operations, in their order.
    pub fn new(known: Vec<Range>, stops: Vec<Stops>) -> Ranges
        ensures { result ≡ record { known = known.items; stops = stops.items } }
    {
        Ranges { known, stops }
    }

    /// Appends what is found of the next operation. After `Memory` the two lists may differ in their lengths.
    pub fn push(&mut self, range: Range, why: Stops) -> Result<(), Memory>
        ensures known { IfOk result (λ _. self.new.known ≡ self.old.known ++ range ∷ []) }
        ensures stops { IfOk result (λ _. self.new.stops ≡ self.old.stops ++ why ∷ []) }
    {
        self.known.push(range)?;
        self.stops.push(why)?;
        Ok(())
    }

    /// The range of operation `i`.
    pub fn range_at(&self, i: usize) -> Range
        requires { i < length self.now.known }
        ensures { slice_get self.now.known i ≡ Some result }
    {
        range_at(self.known(), i)
    }

    /// Why operation `i` may stop.
    pub fn stops_at(&self, i: usize) -> Stops
        requires { i < length self.now.stops }
        ensures { slice_get self.now.stops i ≡ Some result }
    {
        let stops = self.stops();
        stops[i]
    }

    /// The range of each operation.
    pub fn known(&self) -> &[Range]
        ensures { result.now ≡ self.now.known }
    {
        &self.known
    }

    /// Why each operation may stop.
    pub fn stops(&self) -> &[Stops]
        ensures { result.now ≡ self.now.stops }
    {
        &self.stops
    }
}
