//! Whether an act may be at an operation.

ghost use Rattle.std.specs.Prelude.{◌≡◌};
ghost use Rattle.fault_sites.specs.NamedLines.{unfit as unfit_of};

use crate::named::refused::Why;
use fault_script::{Act, is_alike, is_sited, is_timely};
use vcp_base::{Kind, is_addend};

/// Why an act may not be at operation `k`, of this kind, from cycle `n` on.
pub(crate) fn unfit(kind: Kind, k: u32, n: u32, act: &Act) -> Option<Why>
    ensures { result ≡ unfit_of kind k n act.now }
{
    let is_moderate = match *act {
        Act::OperandAdd { j: _, e } => is_addend(e),
        Act::ResultAdd { e } => is_addend(e),
        Act::OperandFrom { j: _, r: _ }
        | Act::OperandStale { j: _ }
        | Act::Operator { kind: _ }
        | Act::Skip => true,
    };
    if !is_moderate {
        return Some(Why::Form);
    }
    if !is_sited(kind, k, act) {
        return Some(Why::Site);
    }
    if !is_timely(n, act) {
        return Some(Why::Early);
    }
    if !is_alike(kind, act) {
        return Some(Why::Kind);
    }
    None
}
