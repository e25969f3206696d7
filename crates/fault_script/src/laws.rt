//! Laws of differences.

ghost use Rattle.std.specs.Prelude.{◌≡◌, Some, slice_get};
ghost use Rattle.op_graph.specs.Lists.{Lists};
ghost use Rattle.op_graph.specs.declared.op.Op.{Op as Operation};
ghost use Rattle.signature_table.specs.Signatures.{Numbers};
ghost use Rattle.fault_script.specs.Differences.{OneFault};
ghost use Rattle.fault_script.specs.Sums.{DifferencesAddUp};
ghost use Rattle.fault_script.specs.declared.act.Fault.{Fault as FaultValue};

/// One fault alone: there is no difference before it, and at its operation the one that its act makes by
/// itself, of multipliers, signatures, the step and the script's number alone. It does nothing: it states
/// a law.
pub fn one_fault_makes_its_difference()
    ensures { (t : Numbers) (g : Lists) (f : FaultValue) (op : Operation) → slice_get g.operations f.op ≡ Some op → OneFault t g f op }
{}

/// Where each fault of a group adds a number to a word, the difference at each operation in each cycle is the
/// sum of those that its faults make alone. It does nothing: it states a law. So it is as integers, and
/// modulo `A`.
pub fn differences_add_up()
    ensures { (t : Numbers) (g : Lists) → DifferencesAddUp t g }
{}
