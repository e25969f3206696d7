//! Why a run was given up.

ghost use Rattle.std.specs.Prelude.{◌≡◌};
ghost use Rattle.coded_machine.specs.Refusals.{given_up_by};
ghost use Rattle.coded_machine.specs.declared.rows.fault.RunFault.TheVariants as fault;

use input_rows::RowFault;
use vcp_base::Memory;
use vcp_outside::Failed;

/// Why a run was given up before its end.
#[derive(Clone, Copy)]
pub enum RunFault {
    /// A row of inputs is refused, after the cycles of the rows before it. It is never want of memory.
    Rows(RowFault),
    /// The outputs of a cycle couldn't be written.
    Write,
    /// Memory was wanted for a row of inputs, or before the first cycle.
    Memory,
}

impl From<RowFault> for RunFault {
    ghost from_gives = { λ why f. f ≡ given_up_by why };

    fn from(why: RowFault) -> RunFault {
        match why {
            RowFault::Memory => RunFault::Memory,
            why => RunFault::Rows(why),
        }
    }
}

impl From<Failed> for RunFault {
    ghost from_gives = { λ _ f. f ≡ fault.Write };

    fn from(_: Failed) -> RunFault {
        RunFault::Write
    }
}

impl From<Memory> for RunFault {
    ghost from_gives = { λ _ f. f ≡ fault.Memory };

    fn from(_: Memory) -> RunFault {
        RunFault::Memory
    }
}
