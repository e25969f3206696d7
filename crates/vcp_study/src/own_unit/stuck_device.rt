//! A device that fails.

ghost use Rattle.std.specs.Prelude.{◌≡◌};
ghost use Rattle.coded_unit.specs.declared.call.Answer.TheVariants as answer;

use crate::own_unit::device::Device;
use coded_unit::{Answer, Call, Word};

/// A device whose output is stuck: it answers one word to each call. It answers its one word to each call,
/// and stays the same.
#[derive(Drop)]
pub struct StuckDevice {
    word: Word,
}

impl StuckDevice {
    /// A device that is stuck at a word.
    pub fn new(word: Word) -> StuckDevice
        ensures word { result.word ≡ word }
    {
        StuckDevice { word }
    }
}

impl Device for StuckDevice {
    ghost use Rattle.std.specs.Prelude.{◌≡◌};
    ghost use Rattle.coded_unit.specs.declared.call.Answer.TheVariants as answer;

    ghost Answers = { λ before after call given. (given ≡ answer.Word before.word) × (after ≡ before) };

    fn answer(&mut self, call: &Call) -> Answer
        ensures answers { (result ≡ answer.Word self.old.word) × (self.new ≡ self.old) }
    {
        Answer::Word(self.word)
    }
}
