//! Laws of audits. The function does nothing: it states laws.

ghost use Rattle.std.specs.Prelude.{◌≡◌, ℕ, List};
ghost use Rattle.op_graph.specs.Lists.{Lists};
ghost use Rattle.op_graph.specs.Rules.{IsGraph};
ghost use Rattle.weight_audit.specs.Audit.{Audit, IsAudit};
ghost use Rattle.weight_audit.specs.AuditText.{AuditOf, TellsBlind};

use crate::each_graph_has_an_audit;

/// A graph has a text of an audit up to a horizon, and only one, and what it calls blind is: paths
/// lead from it to the output, and its weight is 0.
pub fn an_audit_has_one_text()
    ensures some { (g : Lists) (horizon : ℕ) → IsGraph g → (told : List ℕ) × AuditOf g horizon told }
    ensures one { (g : Lists) (horizon : ℕ) (s t : List ℕ) → AuditOf g horizon s → AuditOf g horizon t → s ≡ t }
    ensures blind { (g : Lists) (horizon : ℕ) (a : Audit) → IsAudit g horizon a → TellsBlind g horizon a }
{
    each_graph_has_an_audit();
}
