//! The laws of texts for Graphviz. The function does nothing: it states laws.

ghost use Rattle.std.specs.Prelude.{◌+◌, ℕ, []};
ghost use Rattle.op_graph.specs.Lists.{Lists};
ghost use Rattle.weight_audit.specs.Audit.{Audit, IsAudit};
ghost use Rattle.pictures.specs.Colours.{colours, IsColour};
ghost use Rattle.pictures.specs.Drawn.{drawing};
ghost use Rattle.pictures.specs.Whole.{IsWhole};

use crate::a_graph_is_drawn_whole;

/// What the text is of has each operation once, in the colour that paths and weights say, and each pair of an operand and its reader once.
pub fn a_text_draws_all()
    ensures { (g : Lists) (horizon : ℕ) (a : Audit) → IsAudit g horizon a
        → IsWhole g (IsColour g horizon) [] (drawing g (colours g a (horizon + 1)) []) }
{
    a_graph_is_drawn_whole();
}
