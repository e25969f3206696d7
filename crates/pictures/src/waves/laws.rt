//! The laws of runs and of their timing diagrams. The functions do nothing: they state laws.

ghost use Rattle.std.specs.Prelude.{◌≡◌, ◌++◌, ℕ, List, Option, Some, Ok, codes};
ghost use Rattle.vcp_base.specs.Stops.{ToldStop};
ghost use Rattle.run_report.specs.Lines.{end_text, stop_text, refused_text};
ghost use Rattle.vcp_outside.specs.WellFormed.{IsDocument};
ghost use Rattle.pictures.specs.declared.waves.ending.Mark.TheVariants as mark;
ghost use Rattle.pictures.specs.declared.waves.layout.Layout.{Layout as LayoutOf};
ghost use Rattle.pictures.specs.declared.waves.times.Period.{Period as PeriodOf};
ghost use Rattle.pictures.specs.WavesDrawn.{lanes};
ghost use Rattle.pictures.specs.WavesElements.{waves_text};
ghost use Rattle.pictures.specs.Ending.{mark_of};
ghost use Rattle.pictures.specs.Printed.{printed, IsPrintable};
ghost use Rattle.pictures.specs.RunOf.{Recorded, run_of};
ghost use Rattle.pictures.specs.WavesWhole.{IsWhole};

use vcp_outside::pictures_are_well_formed;

/// Each last line that a run prints behind the rows of the cycles below `cycle` is known for what it is;
/// and no other text is an end.
pub fn last_lines_are_known()
    ensures ended { (cycle : ℕ) (text : List ℕ) → text ++ codes "\n" ≡ end_text cycle → mark_of cycle text ≡ Some mark.Ended }
    ensures ended_only { (cycle : ℕ) (text : List ℕ) → mark_of cycle text ≡ Some mark.Ended → text ++ codes "\n" ≡ end_text cycle }
    ensures stopped { (cycle : ℕ) (stop : ToldStop) (text : List ℕ) → text ++ codes "\n" ≡ stop_text cycle stop
        → mark_of cycle text ≡ Some mark.Stopped }
    ensures refused { (cycle : ℕ) (name : List ℕ) (found wanted : ℕ) (text : List ℕ)
        → text ++ codes "\n" ≡ refused_text cycle name found wanted → mark_of cycle text ≡ Some mark.Refused }
{}

/// What a run prints is read back as that run, where its names and its last line have no comma, no quote
/// and no end of a line in them, and it is within the limits.
pub fn a_printed_run_is_read_back()
    ensures { (run : Recorded) → IsPrintable run → run_of (printed run) ≡ Ok run }
{}

/// What is drawn of the values of a run tells each value once, in its column and its cycle: in one stretch, in which the
/// value changes by the same amount with each cycle, or doesn't; and the text of the picture is a well-formed document.
/// Nothing else is drawn there, and nothing elsewhere.
pub fn a_run_is_drawn_whole()
    ensures whole { (run : Recorded) → IsWhole run (lanes run) }
    ensures well_formed { (l : LayoutOf) (run : Recorded) (period : Option PeriodOf) → IsDocument (waves_text l run period) }
{
    // A document is well formed where no element has an attribute twice.
    pictures_are_well_formed();
}
