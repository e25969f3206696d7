//! Laws of weights and audits. Each function does nothing: it states laws.

ghost use Rattle.std.specs.Prelude.{ℕ};
ghost use Rattle.op_graph.specs.Lists.{Lists};
ghost use Rattle.op_graph.specs.Rules.{IsGraph};
ghost use Rattle.signature_table.specs.Signatures.{Numbers};
ghost use Rattle.weight_audit.specs.Audit.{Audit, IsAudit};
ghost use Rattle.weight_audit.specs.ClosedForm.{ClosedForm, StaleForm};
ghost use Rattle.weight_audit.specs.Superposition.{Superposition, OwnIsOfActs, WeightsAreOfPaths};

use coded_unit::words_split_in_one_way;
use fault_script::one_fault_makes_its_difference;
use op_graph::{entries_keep_their_rules, operands_are_there};

/// The difference that a fault makes at its operation in its cycle arrives at every other operation,
/// each number of cycle borders later, as the weight times that difference, and at none before.
/// A stale operand comes as no difference exactly where the step times its multiplier times the weight
/// is 0. Both are said modulo the constant of the graph's code, for any seed and step.
pub fn differences_come_as_weights()
    ensures closed { (t : Numbers) (g : Lists) → IsGraph g → ClosedForm t g }
    ensures stale { (t : Numbers) (g : Lists) → IsGraph g → StaleForm t g }
{
    // What an operation reads is an earlier one, and LOADs name their cells.
    operands_are_there();
    entries_keep_their_rules();
    words_split_in_one_way();
    one_fault_makes_its_difference();
}

/// Whatever acts are at whatever operations, the difference of an operation is the sum, over all operations and numbers of
/// cycle borders, of what an act adds there so many cycles before, times the weight. Where there is no act nothing is added, and
/// from an operation that isn't reached nothing comes. The sum is one of integers, and modulo the constant of the graph's code one
/// by weights.
pub fn differences_are_superposed()
    ensures sum { (t : Numbers) (g : Lists) → IsGraph g → Superposition t g }
    ensures own { (t : Numbers) (g : Lists) → IsGraph g → OwnIsOfActs t g }
    ensures unreached { (g : Lists) → IsGraph g → WeightsAreOfPaths g }
{
    // What an operation reads is an earlier one, and LOADs name their cells.
    operands_are_there();
    entries_keep_their_rules();
    words_split_in_one_way();
}

/// A graph has an audit up to each number of cycle borders.
pub fn each_graph_has_an_audit()
    ensures { (g : Lists) (horizon : ℕ) → IsGraph g → (a : Audit) × IsAudit g horizon a }
{
    // What an operation reads is an earlier one, and STOREs and OUTs are operations.
    operands_are_there();
    entries_keep_their_rules();
}
