//! Which rows of a source are wanted.

ghost use Rattle.std.specs.Prelude.{◌≡◌};
ghost use Rattle.input_rows.specs.RowsOf.{RowsLeft, through as through_of};
ghost use Rattle.input_rows.specs.WantedRows.{wanted_rows};

use crate::fault::RowFault;

/// Which of the rows that are left of a source are wanted.
#[derive(Clone, Copy)]
pub(crate) enum Wanted {
    /// All.
    All,
    /// So many, and the refusal that is to come behind them, or none.
    First { rows: u64, behind: Option<RowFault> },
    /// None: the end was given, which is this refusal, where there is one.
    Ended(Option<RowFault>),
}

impl Wanted {
    /// The wanted rows through a cycle, where cycles count from 0.
    pub fn through(self, cycle: u32) -> Wanted
        ensures { (left : RowsLeft) → wanted_rows result left ≡ through_of cycle (wanted_rows self left) }
    {
        let most = cycle as u64 + 1;
        match self {
            Wanted::All => Wanted::First {
                rows: most,
                behind: None,
            },
            Wanted::First { rows, .. } if most <= rows => Wanted::First {
                rows: most,
                behind: None,
            },
            Wanted::First { rows, behind } => Wanted::First {
                rows,
                behind: Some(behind.unwrap_or(RowFault::Cycle)),
            },
            Wanted::Ended(behind) => Wanted::Ended(Some(behind.unwrap_or(RowFault::Cycle))),
        }
    }
}
