//! A unit that is the processor itself.

ghost use Rattle.std.specs.Prelude.{◌≡◌, ◌∷◌, [], None};
ghost use Rattle.coded_unit.specs.Asked.{Asked};
ghost use Rattle.coded_unit.specs.Right.{Right};
ghost use Rattle.coded_unit.specs.Log.{GrowsBy, Counts};

use crate::call::{Answer, Call};
use crate::table;
use crate::unit::Unit;

/// The processor that runs the program: it gives the right answers, and tells no log.
#[derive(Drop)]
pub struct CpuUnit;

impl CpuUnit {
    /// A processor before its first call.
    pub fn new() -> CpuUnit
        ensures log { (⟦<CpuUnit as Unit>⟧.seen result).log ≡ None }
        ensures wrong { (⟦<CpuUnit as Unit>⟧.seen result).wrong ≡ 0 }
    {
        CpuUnit
    }
}

impl Unit for CpuUnit {
    ghost use Rattle.std.specs.Prelude.{None};

    ghost seen = { λ _. record { log = None; wrong = 0 } };

    #[inline(always)]
    fn perform(&mut self, call: &Call) -> Answer
        requires { Asked call.now }
        ensures log { GrowsBy None None ((call.now, result) ∷ []) }
        ensures wrong { Counts result (Right call.now) 0 0 }
        ensures right { result ≡ Right call.now }
    {
        table::answer(call)
    }
}
