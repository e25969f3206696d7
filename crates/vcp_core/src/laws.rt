//! Laws of the tasks of commands.

ghost use Rattle.std.specs.Prelude.{◌≡◌, ◌≤◌, Some, List, ℕ, ℤ, length};
ghost use Rattle.vcp_base.specs.Limits.{most_image_bytes};
ghost use Rattle.vcp_base.specs.declared.code.Profile.TheVariants as profile;
ghost use Rattle.vcp_outside.specs.Held.{Held};
ghost use Rattle.op_graph.specs.GraphRun.{graph_run};
ghost use Rattle.op_graph.specs.Lists.{Lists};
ghost use Rattle.signature_table.specs.Signatures.{Numbers, table_of};
ghost use Rattle.image_file.specs.Graphs.{HasImage};
ghost use Rattle.image_file.specs.Image.{image_of};
ghost use Rattle.weight_audit.specs.Audit.{most_weights, weights_up_to};
ghost use Rattle.weight_audit.specs.AuditText.{AuditOf};
ghost use Rattle.vcp_inputs.specs.Forms.{Form, audit};
ghost use Rattle.vcp_inputs.specs.Abouts.{about, AllHeld};
ghost use Rattle.vcp_inputs.specs.FileTasks.{ImageFile};
ghost use Rattle.vcp_inputs.specs.Endings.{HasOwnStatus};
ghost use Rattle.vcp_inputs.specs.Kinds.{Task, lacks, prints};
ghost use Rattle.vcp_core.specs.EachTask.{EachHasTask};
ghost use Rattle.vcp_core.specs.PerformedLaws.{PerformedCompletes, PerformedKeeps, PerformedKnown, PerformedServes, RunMeansPlain, RunWritesPlain};
ghost use Rattle.vcp_core.specs.Tasks.{TaskOf, widened};
ghost use Rattle.vcp_inputs.specs.WireKind.{WiresDeliver};
ghost use Rattle.vcp_core.specs.StaleSeen.{StaleShows};
ghost use Rattle.vcp_core.specs.WrittenImages.{WrittenImagesAreTaken};

use il_front::il_answers_are_one;
use image_file::images_are_told_apart;
use st_lexer::one_reading;
use st_parser::one_answer;
use st_types::answers_are_one;
use telegram::{
    deliveries_are_young, deliveries_rise, receipts_follow_the_equation,
    unaltered_come_from_their_sender,
};
use vcp_inputs::endings_have_causes;
use weight_audit::{an_audit_has_one_text, differences_come_as_weights};

/// A command has a task, whatever bytes are held, and only one, with a status of its own, and it isn't that a name is lacking where
/// all its files are held; and where the task of `run` means an answer, it is the one that the task of `plain` means, where that means one.
pub fn one_task()
    ensures some { EachHasTask }
    ensures one { (f : Form) (held : Held) (a b : Task) → TaskOf f held a → TaskOf f held b → a ≡ b }
    ensures own { (f : Form) (held : Held) (task : Task) → TaskOf f held task → HasOwnStatus task }
    ensures found { (f : Form) (held : Held) (name : List ℕ) → AllHeld held (about f).files → TaskOf f held (lacks name) → ⊥ }
    ensures as_plain { RunMeansPlain }
{
    one_reading();
    one_answer();
    answers_are_one();
    il_answers_are_one();
    images_are_told_apart();
    an_audit_has_one_text();
}

/// What follows where a command was performed, as the program does it:
///
/// - `serves`: For the one task that the words lead to with what is held, it ended in one of these ways: the task's answer was given; the files
///   failed; the output's sink failed; the errors' sink failed; memory was lacking. Or it was given up before the task was known.
/// - `completes`: Where the files that the words name are held, nothing failed, the unit was honest, if the command calls it, and nothing of the
///   task is refused, the task was brought to its end, unless memory was lacking: with 0, or with 2 where the command may meet a stop; all that is
///   meant by it was written, and of the file that was begun last nothing is unread.
/// - `keeps`: What every command keeps, and which cause each of the statuses 2, 3, 5 and 6 has, whatever unit, files and sinks are; and a call of
///   these that fails gives 5 or 6 each time: `Keeps`, in `vcp_inputs`.
/// - `known`: The status is none but 0 to 7, and 4 only words have that are none of the forms.
/// - `as_plain`: Where no answer was wrong, `run P ROWS CODE` wrote the bytes that `plain P ROWS` is to write, with its status, unless the status is
///   5, 6 or 7.
pub fn a_performed_command()
    ensures serves { PerformedServes }
    ensures completes { PerformedCompletes }
    ensures keeps { PerformedKeeps }
    ensures known { PerformedKnown }
    ensures as_plain { RunWritesPlain }
{
    one_task();
    endings_have_causes();
}

/// The image of any graph, seed and step is read as that graph and its table by each command that reads
/// one, unless it has too many bytes: so nothing that `compile` and `widen` write is refused as no image.
/// The wide graph that `widen` writes has an image too and the same run, and it is the graph itself where
/// that is wide.
///
/// `audit` may refuse it (`L6`), and `pair` and `pairs` for its seed (`L8`). Where its graph hasn't too many
/// weights for the horizon, `audit` prints the audit of that graph.
pub fn written_images_are_taken()
    ensures taken { (g : Lists) (seed step : ℕ) (Then : Lists → Numbers → Task) (name : List ℕ) (held : Held) (task : Task) →
        HasImage g seed step → length (image_of g seed step) ≤ most_image_bytes →
        held name ≡ Some (image_of g seed step) → ImageFile (λ i x. x ≡ Then i.graph i.table) name held task →
        task ≡ Then g (table_of seed step g) }
    ensures audited { (g : Lists) (seed step horizon : ℕ) (name : List ℕ) (held : Held) (task : Task) →
        HasImage g seed step → length (image_of g seed step) ≤ most_image_bytes →
        held name ≡ Some (image_of g seed step) → weights_up_to g horizon ≤ most_weights → TaskOf (audit name horizon) held task →
        (told : List ℕ) × AuditOf g horizon told × (task ≡ prints told) }
    ensures commands { WrittenImagesAreTaken }
    ensures widened { (g : Lists) (seed step : ℕ) → HasImage g seed step → HasImage (widened g) seed step }
    ensures run { (g : Lists) (rows : List (List ℤ)) → graph_run (widened g) rows ≡ graph_run g rows }
    ensures wide { (g : Lists) → g.profile ≡ profile.Wide → widened g ≡ g }
{
    images_are_told_apart();
    an_audit_has_one_text();
}

/// A stale operand is unseen at an output, so many cycle borders later, exactly where the step times its
/// multiplier times the weight is 0, modulo the constant of the graph's code; else a run that reaches
/// that check is refused in it.
pub fn stale_operands_are_seen()
    ensures { StaleShows }
{
    differences_come_as_weights();
}

/// Whatever a unit answers to the sendings of a wire's script, the delivered numbers strictly rise, and
/// nothing is delivered before its sending or too many cycles after it; and where all answers are right,
/// what is delivered of a telegram that wasn't altered is what the heard sender sent under its number.
pub fn wires_deliver()
    ensures { WiresDeliver }
{
    deliveries_rise();
    deliveries_are_young();
    receipts_follow_the_equation();
    unaltered_come_from_their_sender();
}
