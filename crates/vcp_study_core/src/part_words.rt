//! The names of the files of parts, in the words of a command.

ghost use Rattle.std.specs.Prelude.{◌≡◌, ◌∷◌, [], IfNone, IfSome};
ghost use Rattle.vcp_study_core.specs.Forms.{as_names, names_of};

use vcp_base::{Text, Words};

/// The names of the two files of a part.
#[derive(Clone, Copy)]
pub struct Named<'a> {
    /// The name of its script.
    pub script: &'a Text,
    /// The name of what was printed on it.
    pub verdicts: &'a Text,
}

/// The names of the files of parts: words one behind another, in turn that of a script and that of what was printed on it.
#[derive(Clone, Copy)]
pub struct PartWords<'a> {
    /// The words, with others before these and behind them.
    pub words: &'a Words,
    /// The place of the first name.
    pub at: usize,
    /// How many parts there are.
    pub left: u32,
}

impl<'a> PartWords<'a> {
    /// Takes the names of the first part. It stays as it is where there is none.
    pub(crate) fn next(&mut self) -> Option<Named<'a>>
        ensures none { IfNone result (names_of self.old ≡ []) }
        ensures some { IfSome result (λ n. names_of self.old ≡ as_names n ∷ names_of self.new) }
    {
        let len = self.words.len();
        if self.left == 0 {
            return None;
        }
        if len < 2 {
            return None;
        }
        if self.at > len - 2 {
            return None;
        }
        let script = self.words.at(self.at);
        let verdicts = self.words.at(self.at + 1);
        self.at += 2;
        self.left -= 1;
        Some(Named { script, verdicts })
    }
}
