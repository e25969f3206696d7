//! The laws of pictures of graphs. The function does nothing: it states laws.

ghost use Rattle.std.specs.Prelude.{◌≡◌, ◌+◌, ℕ, List};
ghost use Rattle.std.specs.List.{AllByRecursion};
ghost use Rattle.op_graph.specs.Lists.{Lists};
ghost use Rattle.weight_audit.specs.Audit.{Audit, IsAudit};
ghost use Rattle.vcp_outside.specs.Elements.{Element};
ghost use Rattle.vcp_outside.specs.WellFormed.{HasEachOnce, IsDocument};
ghost use Rattle.pictures.specs.declared.layout.BoxPlace.{BoxPlace as PlaceOf};
ghost use Rattle.pictures.specs.declared.looks.Look.{Look as LookOf};
ghost use Rattle.pictures.specs.Arrangement.{Arrangement};
ghost use Rattle.pictures.specs.Colours.{colours, IsColour};
ghost use Rattle.pictures.specs.Drawn.{drawing};
ghost use Rattle.pictures.specs.Elements.{graph_text, picture_of};
ghost use Rattle.pictures.specs.Looks.{audit_looks, IsAuditLook};
ghost use Rattle.pictures.specs.Whole.{IsWhole};

use vcp_outside::pictures_are_well_formed;
use weight_audit::an_audit_has_one_text;

/// What is drawn of a graph has each operation once, with its look, and each pair of an operand and its
/// reader once. The looks by weights are of the colours that paths and weights say. And the text of a picture is a
/// well-formed document, where no element of its legend has an attribute twice.
///
/// An operation is drawn with its number, what it is and its own name or value; a constant at each of its
/// readers. Grey it is exactly where no path leads to an output within the horizon, red only where it is
/// blind for the output that is noted after so many borders, and plain exactly where paths lead to outputs
/// and it is blind for none.
pub fn a_graph_is_drawn_whole()
    ensures whole { (g : Lists) (looks : ℕ → LookOf) (places : List PlaceOf) → IsWhole g (λ n look. look ≡ looks n) places (drawing g looks places) }
    ensures audit_whole { (g : Lists) (horizon : ℕ) (a : Audit) (places : List PlaceOf) → IsAudit g horizon a
        → IsWhole g (IsAuditLook g horizon) places (drawing g (audit_looks g a (horizon + 1)) places) }
    ensures colours_whole { (g : Lists) (horizon : ℕ) (a : Audit) (places : List PlaceOf) → IsAudit g horizon a
        → IsWhole g (IsColour g horizon) places (drawing g (colours g a (horizon + 1)) places) }
    ensures well_formed { (g : Lists) (looks : ℕ → LookOf) (legend : List Element) (l : Arrangement) → AllByRecursion HasEachOnce legend
        → IsDocument (picture_of g looks legend l) }
    ensures audit_well_formed { (g : Lists) (horizon : ℕ) (a : Audit) (l : Arrangement) → IsDocument (graph_text g a horizon l) }
{
    // A document is well formed where no element has an attribute twice; and what is told to be blind is.
    pictures_are_well_formed();
    an_audit_has_one_text();
}
