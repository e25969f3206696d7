//! What does the calls.

ghost use Rattle.coded_unit.specs.declared.call.Answer.{Answer};
ghost use Rattle.coded_unit.specs.declared.call.Call.{Call};

use coded_unit::{Answer, Call};

/// Something that does calls, as a second processor on a bus. Any answer may come.
pub trait Device {
    /// What is known of a device before and after a call and of its answer; for hardware nothing, which is `λ _ _ _ _. Unit`.
    ghost Answers: { Self → Self → Call → Answer → Type 0 };

    /// What the device answers to a call.
    fn answer(&mut self, call: &Call) -> Answer
        ensures answers { Answers self.old self.new call.now result };
}
