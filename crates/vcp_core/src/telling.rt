//! The lines of faults, and their statuses.

ghost use Rattle.std.specs.Prelude.{◌≡◌};
ghost use Rattle.vcp_outside.specs.Written.{WritesTo};
ghost use Rattle.vcp_core.specs.Reach.{fault_text, fault_status as status_of_fault};

use crate::fault::Fault;
use vcp_inputs::{input_status, tell_input};
use vcp_outside::{Failed, Sink, write_all};

/// The line where memory was wanted.
const NO_MEMORY: &[u8] = b"no memory\n";

/// Prints the line of a fault.
pub fn tell<E: Sink>(err: &mut E, fault: &Fault<'_>) -> Result<(), Failed>
    ensures { WritesTo (E.seen err.old) (E.seen err.new) (fault_text fault.now) result }
{
    match fault {
        Fault::Input { name, input } => tell_input(err, name, input),
        Fault::Write => write_all(err, b"write fault\n"),
        Fault::Memory => write_all(err, NO_MEMORY),
    }
}

/// The status of a fault whose line was printed.
pub fn fault_status(fault: &Fault<'_>) -> u8
    ensures { result ≡ status_of_fault fault.now }
{
    match fault {
        Fault::Input { input, .. } => input_status(input),
        Fault::Write => 6,
        Fault::Memory => 7,
    }
}
