//! The outcome of all cycles of an evaluator.

ghost use Rattle.std.specs.Prelude.{◌≡◌, ℤ, Some, Err, List};
ghost use Rattle.vcp_typed.specs.Meaning.{Stop};
ghost use Rattle.vcp_typed.specs.SourceRun.{Program, source_run};
ghost use Rattle.st_plain.specs.Evaluator.{Evaluator, started, comes_to, answers};

/// Over any rows of inputs the cycles of an evaluator give the run of its program; and after a stop each
/// cycle gives that stop.
pub fn cycles_give_the_run()
    ensures run { (p : Program) (rows : List (List ℤ)) → answers (started p) rows ≡ source_run p rows }
    ensures again { (e : Evaluator) (s : Stop) (row : List ℤ) → e.stop ≡ Some s → comes_to e row ≡ Err s }
{}
