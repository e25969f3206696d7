//! The weights of an image's graph, or why there are none.

ghost use Rattle.std.specs.Prelude.{◌≡◌, ◌≤◌, IfErr, IfOk, OnOk};
ghost use Rattle.vcp_base.specs.Limits.{most_horizon};
ghost use Rattle.signature_table.specs.Signatures.{table_of};
ghost use Rattle.weight_audit.specs.Audit.{most_weights, weights_up_to, IsAudit};
ghost use Rattle.vcp_inputs.specs.Weights.{NoWeights};

use crate::images::Image;
use crate::refusal::{NoInput, Refusal};
use std::alloc::Global;
use weight_audit::weigh::weights;
use weight_audit::{AuditFault, Weights};

/// The weights of an image's graph up to a horizon. `Refused` with `Audit` comes where there are too many.
pub fn weights_of(alloc: Global, image: &Image, horizon: u32) -> Result<Weights, NoInput>
    requires table { image.now.table ≡ table_of image.now.table.seed image.now.table.step image.now.graph }
    requires horizon { horizon ≤ most_horizon }
    ensures weights { IfOk result (λ w. IsAudit image.now.graph horizon w) }
    ensures few { OnOk result (weights_up_to image.now.graph horizon ≤ most_weights) }
    ensures fault { IfErr result (NoWeights image.now horizon) }
{
    match weights(alloc, &image.graph, &image.table, horizon) {
        Ok(weights) => Ok(weights),
        Err(AuditFault::TooLarge { .. }) => Err(NoInput::Refused(Refusal::Audit)),
        Err(AuditFault::Memory) => Err(NoInput::Memory),
    }
}
