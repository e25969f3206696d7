//! How many sites there are.

ghost use Rattle.std.specs.Prelude.{◌≡◌, ◌≤◌, cond, length};
ghost use Rattle.vcp_base.specs.Limits.{most_cycles};
ghost use Rattle.fault_sites.specs.Sites.{has_acts, sites, sites_in};

use crate::class::{Class, Classes};
use crate::nowhere::Nowhere;
use crate::part::Part;
use crate::telling::{Telling, then_acts};
use crate::writing::then_sites;
use op_graph::Graph;
use vcp_outside::LinePen;

/// A part behind all sites: what is left of it tells how many there are.
pub(crate) const BEHIND_ALL: Part = Part {
    skip: u64::MAX,
    left: 1,
};

/// How many sites a class has in the second cycle, and so in each cycle in which it has any.
pub(crate) fn count_in(graph: &Graph, class: Class) -> u64
    ensures { result ≡ length (sites_in class graph.now 1) }
{
    // A graph has at most 65,536 operations.
    let _operations = graph.len();
    let mut nowhere = Nowhere {};
    let pen = LinePen::new(&mut nowhere);
    let part = BEHIND_ALL;
    let Telling { pen: _, part } = then_acts(Telling { pen, part }, &class, graph, 1);
    u64::MAX - part.skip
}

/// How many sites a class has in cycle `n`, where it has so many in the second one: none in the first, where it takes a word of the cycle before.
pub(crate) fn count_cycle(class: Class, n: u32, size: u64) -> u64
    ensures { result ≡ cond (has_acts class n) size 0 }
{
    match class {
        Class::Stale | Class::Skip => if 0 < n { size } else { 0 },
        Class::Bits | Class::From | Class::Operator => size,
    }
}

/// How many sites there are in the first cycles, at most 1,000,000. It takes no memory. It is known before any
/// is written.
pub fn count_sites(graph: &Graph, classes: Classes, cycles: u32) -> u64
    requires { cycles ≤ most_cycles }
    ensures { result ≡ length (sites classes graph.now cycles) }
{
    // A graph has at most 65,536 operations.
    let _operations = graph.len();
    let mut nowhere = Nowhere {};
    let pen = LinePen::new(&mut nowhere);
    let part = BEHIND_ALL;
    let Telling { pen: _, part } = then_sites(Telling { pen, part }, graph, classes, cycles);
    u64::MAX - part.skip
}
