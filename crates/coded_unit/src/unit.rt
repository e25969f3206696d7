//! Units: what does the calls of a program, and tells what it did.

ghost use Rattle.std.specs.Prelude.{◌∷◌, []};
ghost use Rattle.coded_unit.specs.Asked.{Asked};
ghost use Rattle.coded_unit.specs.Right.{Right};
ghost use Rattle.coded_unit.specs.Log.{GrowsBy, Counts};
ghost use Rattle.coded_unit.specs.Seen.{UnitSeen};

use crate::call::{Answer, Call};

/// What does calls: a processor, or something that takes its place and may fail.
///
/// A log that is not known is never known later; a known one may be known no more.
pub trait Unit {
    /// What is seen of it: its calls with their answers, where they are known, and the count of answers that are not the right ones.
    ghost seen: { Self → UnitSeen };

    /// Does one call that may be asked: its correction is below the constant of its code, its stamp at most
    /// 1,000,000,000, and it has no LINT in the narrow code. It is the next entry of the log, where that is
    /// known. The answer may be wrong, and is then counted. The count rises exactly at answers that aren't
    /// right.
    fn perform(&mut self, call: &Call) -> Answer
        requires { Asked call.now }
        ensures log { GrowsBy (seen self.old).log (seen self.new).log ((call.now, result) ∷ []) }
        ensures wrong { Counts result (Right call.now) (seen self.old).wrong (seen self.new).wrong };
}
