//! Laws of the definitions.

ghost use Rattle.vcp_inputs.specs.Endings.{DoneHasStatus, DoneIsMeant, EndingsHaveCauses, GivingUpHasCauses};
ghost use Rattle.vcp_inputs.specs.ListRuns.{HasListColumns, ImagesAreOfLists, ListsAreTold};

use il_front::accumulator_runs;

/// A task that is done with an honest unit is done as it is meant. What was done has the status 5 where a
/// name is lacking, and else at most 3. However a command ends, each status has its cause, where a task
/// that is an answer has the status 0, 1 or 2; and so it has where the command is given up.
pub fn endings_have_causes()
    ensures meant { DoneIsMeant }
    ensures statuses { DoneHasStatus }
    ensures ended { EndingsHaveCauses }
    ensures given_up { GivingUpHasCauses }
{}

/// The typed program of an instruction list has the list's inputs and outputs, and its run gives what the list gives on the
/// accumulator. So does, over all rows that fit, the run of the graph of each image that is written for it. It does nothing: it states laws.
pub fn lists_are_told()
    ensures columns { HasListColumns }
    ensures told { ListsAreTold }
    ensures images { ImagesAreOfLists }
{
    accumulator_runs();
}
