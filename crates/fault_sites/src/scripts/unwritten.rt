//! Why what is chosen isn't written whole.

ghost use Rattle.std.specs.Prelude.{◌≡◌};
ghost use Rattle.fault_sites.specs.Script.{outcome as outcome_of};

use vcp_outside::Failed;

/// Why what is chosen isn't written whole.
#[derive(Clone, Copy)]
pub enum Unwritten {
    /// The script would have more than 10,000 faults; nothing was written.
    TooMany,
    /// An allocation failed; nothing was written.
    Memory,
    /// The sink failed, and a part was written.
    Failed,
}

/// What the sink answered to a script, as the outcome of what is chosen.
pub(crate) fn outcome(written: Result<(), Failed>) -> Result<(), Unwritten>
    ensures { result ≡ outcome_of written }
{
    match written {
        Ok(()) => Ok(()),
        Err(Failed) => Err(Unwritten::Failed),
    }
}
