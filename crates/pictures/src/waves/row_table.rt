//! The rows of a run, one a cycle.

use vcp_base::{List, Row};

/// Rows of values, seen as a list.
pub(crate) type RowTable = List<Row>;
