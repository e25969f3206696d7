//! Lists of verdicts.

use fault_injector::Verdict;
use vcp_base::CopyList;

/// The verdicts of the groups of a script, in their order, seen as a list.
pub type Verdicts = CopyList<Verdict>;
