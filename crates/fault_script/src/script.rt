//! Scripts.

use crate::group::Group;
use vcp_base::List;

/// The groups of a script in the order of its lines, seen as a list. A fault outside `begin` and `end` is a
/// group of one.
pub type Script = List<Group>;
