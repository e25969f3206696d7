//! Turns of loops.

use crate::list::CopyList;

/// One turn of a FOR.
#[derive(Clone, Copy)]
pub struct Turn {
    /// The place of the control variable's name in a list of names, from 0.
    pub name: u32,
    /// The value of the control variable in this turn.
    pub value: i64,
}

/// The turns round a place, outermost first, seen as a list: as many as there are FORs round it.
pub type Turns = CopyList<Turn>;
