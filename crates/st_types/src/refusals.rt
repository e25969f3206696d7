//! What is given up where a part has a fault, or where memory ends.
//!
//! Who gives up a part moves it into a function of this module: a value that is dropped where it stands is
//! taken apart there, in the proof of each function that holds it.

use vcp_typed::{TBranches, TExpr, TStmts};

/// An expression is given up.
pub(crate) fn discard(e: TExpr) {
    drop(e);
}

/// An expression is given up, where there is one.
pub(crate) fn discard_some(e: Option<TExpr>) {
    drop(e);
}

/// The arguments of a call are given up, where there are some.
pub(crate) fn discard_all(list: Option<Vec<TExpr>>) {
    drop(list);
}

/// Statements are given up.
pub(crate) fn discard_body(body: TStmts) {
    drop(body);
}

/// The branches of a CASE are given up.
pub(crate) fn discard_branches(list: TBranches) {
    drop(list);
}
