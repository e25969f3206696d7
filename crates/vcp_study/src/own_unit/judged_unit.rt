//! A unit over a device.

ghost use Rattle.std.specs.Prelude.{◌≡◌, ◌∷◌, [], None};
ghost use Rattle.coded_unit.specs.Asked.{Asked};
ghost use Rattle.coded_unit.specs.Right.{Right};
ghost use Rattle.coded_unit.specs.Log.{GrowsBy, Counts};

use crate::own_unit::device::Device;
use coded_unit::{Answer, Call, Unit, table};

/// A device as a unit. It hands on what the device answers, right or wrong, and counts the wrong answers: beside each
/// call it computes the right answer. It tells no log.
#[derive(Drop)]
pub struct JudgedUnit<D> {
    device: D,
    wrong: u64,
}

impl<D: Device> JudgedUnit<D> {
    /// A unit over the device, before its first call. It takes no memory.
    pub fn new(device: D) -> JudgedUnit<D>
        ensures device { result.device ≡ device }
        ensures wrong { result.wrong ≡ 0 }
    {
        JudgedUnit { device, wrong: 0 }
    }

    /// How many answers so far were not the right ones, up to 2^64 - 1.
    pub fn wrong(&self) -> u64
        ensures wrong { result ≡ self.now.wrong }
    {
        self.wrong
    }
}

impl<D: Device> Unit for JudgedUnit<D> {
    ghost use Rattle.std.specs.Prelude.{None};

    ghost seen = { λ u. record { log = None; wrong = u.wrong } };

    /// Does one call on the device, and counts its answer where it isn't the right one. Its answer is the
    /// device's. It tells no log, and counts up to 2^64 - 1.
    fn perform(&mut self, call: &Call) -> Answer
        requires { Asked call.now }
        ensures log { GrowsBy None None ((call.now, result) ∷ []) }
        ensures wrong { Counts result (Right call.now) self.old.wrong self.new.wrong }
        ensures asked { D.Answers self.old.device self.new.device call.now result }
    {
        let given = self.device.answer(call);
        self.wrong = counted(self.wrong, &given, &table::answer(call));
        given
    }
}

/// A count of wrong answers after one more answer; it stands still at its last value.
fn counted(wrong: u64, given: &Answer, right: &Answer) -> u64
    ensures { Counts given.now right.now wrong result }
{
    if *given == *right {
        wrong
    } else {
        wrong.saturating_add(1)
    }
}
