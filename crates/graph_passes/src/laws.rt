//! The laws that the passes rest on. Each function does nothing: it states a law.

ghost use Rattle.graph_passes.specs.Part.{PartLaw};
ghost use Rattle.graph_passes.specs.Pruning.{PruningLaw};
ghost use Rattle.graph_passes.specs.SameRun.{RenumberingLaw};
ghost use Rattle.graph_passes.specs.Sharing.{SharingLaw};

use op_graph::{
    entries_are_found_by_one_walk, entries_keep_their_rules, operands_are_in_their_types,
    operands_are_there,
};

/// A part of a graph that is closed under what is read means what the graph means, though its operations and
/// cells are numbered anew. An operation that is left out can't stop, or is joined to an earlier one that
/// does the same.
pub fn closed_parts_mean_the_same()
    ensures { RenumberingLaw }
{
    entries_keep_their_rules();
    operands_are_in_their_types();
    operands_are_there();
}

/// Each set of operations that has all OUTs and all that can stop, with each operation what it reads,
/// and with one operation of a cell the other, means by itself what the graph means. The least such
/// set is a graph of which nothing more can be left out.
pub fn what_is_needed_means_the_same()
    ensures { PruningLaw }
{
    closed_parts_are_graphs();
    closed_parts_mean_the_same();
    entries_are_found_by_one_walk();
    entries_keep_their_rules();
    operands_are_there();
}

/// A part of a graph that is closed under what is read, and keeps the operations of the inputs, the
/// outputs and the kept cells, is a graph.
pub fn closed_parts_are_graphs()
    ensures { PartLaw }
{
    entries_keep_their_rules();
}

/// Where each operation that does what an earlier one does, over the same operands, is joined to the first of
/// them, what is left is a graph that means the same, in which nothing more can be joined. INPUT, LOAD, STORE
/// and OUT are never joined; nothing is folded where nothing was.
pub fn what_is_shared_means_the_same()
    ensures { SharingLaw }
{
    closed_parts_are_graphs();
    closed_parts_mean_the_same();
    entries_are_found_by_one_walk();
    entries_keep_their_rules();
    operands_are_there();
}
