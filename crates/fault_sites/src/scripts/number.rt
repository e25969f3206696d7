//! How many sites there are, in a line.

ghost use Rattle.std.specs.Prelude.{◌≡◌, Err};
ghost use Rattle.vcp_outside.specs.Counts.{Rose};
ghost use Rattle.fault_sites.specs.Script.{WritesNumber};
ghost use Rattle.fault_sites.specs.declared.scripts.unwritten.Unwritten.TheVariants as unwritten;

use crate::scripts::unwritten::{Unwritten, outcome};
use vcp_outside::{LinePen, Pen, Sink};

/// Writes how many sites there are.
pub(crate) fn write_number<O: Sink>(out: &mut O, number: u64) -> Result<(), Unwritten>
    ensures writes { WritesNumber number (O.seen out.old).written (O.seen out.new).written result }
    ensures failed { result ≡ Err unwritten.Failed → Rose (O.seen out.old).faults (O.seen out.new).faults }
{
    let pen = LinePen::new(out).count(number);
    outcome(pen.end())
}
