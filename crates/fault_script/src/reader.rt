//! The script of a text.

ghost use Rattle.std.specs.Prelude.{◌≡◌, ◌≢◌, ◌≤◌, length, All, Ok, Err, IfOk, IfErr};
ghost use Rattle.vcp_base.specs.Limits.{most_source_bytes};
ghost use Rattle.fault_script.specs.Groups.{GroupFits, fault_count};
ghost use Rattle.fault_script.specs.ScriptOf.{most_faults, script_of};

use crate::reading::Reading;
use crate::script::Script;
use crate::script_fault::ScriptFault;
use op_graph::Graph;
use std::alloc::Global;
use vcp_base::{first_line, is_skipped};

/// The script of a text of at most 1,048,576 bytes, over the graph that it is for; or the first refused
/// line. `Memory` where there is no room for it.
///
/// A fault line is refused as `Faults` where it is the 10,001st; else as `Form`, `Site`, `Early`, `Kind` or
/// `Twice`, in this order. `begin` and `end` are refused as `Group`. A `begin` without an `end` is reported
/// only where no line is refused.
///
/// Each fault of a script fits the graph: cycle, operation, operand and register are in range, what is added
/// is at most 2^62 in size, another kind has as many operands, and `stale` and `skip` have a cycle before
/// theirs. Each group has a fault, and no two at one operation in one cycle. There are at most 10,000 faults.
pub fn read_script(alloc: Global, bytes: &[u8], graph: &Graph) -> Result<Script, ScriptFault>
    requires { length bytes.now ≤ most_source_bytes }
    ensures script { IfOk result (λ script. script_of graph.now bytes.now ≡ Ok script) }
    ensures refusal { IfErr result (λ f. f ≢ ScriptFault.Memory → script_of graph.now bytes.now ≡ Err f) }
    ensures fits { IfOk result (λ script. All (GroupFits graph.now) script) }
    ensures faults { IfOk result (λ script. fault_count script ≤ most_faults) }
    ensures few { IfOk result (λ script. length script ≤ most_faults) }
{
    let mut reading = Reading::new(alloc);
    let mut rest = bytes;
    let mut number = 0;
    'lines: while !rest.is_empty() {
        let (line, more) = first_line(rest);
        rest = more;
        number += 1;
        if !is_skipped(line) {
            reading.take(alloc, graph, number, line)?;
        }
    }
    reading.finish()
}
