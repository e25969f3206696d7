//! The laws of pictures by verdicts. The functions do nothing: they state laws.

ghost use Rattle.std.specs.Prelude.{List};
ghost use Rattle.op_graph.specs.Lists.{Lists};
ghost use Rattle.vcp_outside.specs.WellFormed.{IsDocument};
ghost use Rattle.fault_script.specs.declared.act.Fault.{Fault as FaultOf};
ghost use Rattle.fault_injector.specs.declared.verdicts.Verdict.{Verdict as VerdictOf};
ghost use Rattle.pictures.specs.declared.layout.BoxPlace.{BoxPlace as PlaceOf};
ghost use Rattle.pictures.specs.Arrangement.{Arrangement};
ghost use Rattle.pictures.specs.Drawn.{drawing};
ghost use Rattle.pictures.specs.Whole.{IsWhole};
ghost use Rattle.pictures.specs.FaultsText.{faults_text};
ghost use Rattle.pictures.specs.VerdictLooks.{verdict_looks};
ghost use Rattle.pictures.specs.WorstVerdict.{IsWorstLook};

use crate::a_graph_is_drawn_whole;

/// What is drawn has each operation once, in the colour of the worst verdict of the groups that have a fault
/// there, and each pair of an operand and its reader once. There are verdicts of its sort, as many as are
/// noted, none of them is worse, and all are counted; it is without colour exactly where no group has a fault
/// there.
pub fn each_operation_has_its_worst_verdict()
    ensures { (g : Lists) (groups : List (List FaultOf)) (vs : List VerdictOf) (places : List PlaceOf)
        → IsWhole g (IsWorstLook groups vs) places (drawing g (verdict_looks groups vs) places) }
{
    a_graph_is_drawn_whole();
}

/// The text of each picture is a well-formed document.
pub fn a_picture_is_well_formed()
    ensures { (g : Lists) (groups : List (List FaultOf)) (vs : List VerdictOf) (l : Arrangement) → IsDocument (faults_text g groups vs l) }
{
    a_graph_is_drawn_whole();
}
