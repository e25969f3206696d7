//! Words that are kept for the faults of a group.

use coded_unit::Word;
use vcp_base::CopyList;

/// For each fault of a group the word of an earlier call that its act takes, where there is one, seen as a list.
pub type KeptWords = CopyList<Option<Word>>;
