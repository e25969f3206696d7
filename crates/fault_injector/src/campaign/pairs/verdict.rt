//! Verdicts on groups of faults by a pair of channels.

ghost use Rattle.std.specs.Prelude.{◌≡◌};
ghost use Rattle.fault_injector.specs.PairVerdicts.{verdict_at as verdict_at_of};

use pair_channel::PairEnd;

/// What a pair makes of a group of faults in its first channel.
#[derive(Clone, Copy)]
pub enum PairVerdict {
    /// The channels agree in every cycle, to the end of the rows or to a stop that both have.
    Same,
    /// They end a cycle differently, one of them refuses an output, or their rows differ; no row of that cycle is released.
    Held {
        /// The first such cycle, counted from 0.
        cycle: u32,
    },
}

/// The verdict where the pair ended this cycle so.
pub(crate) fn verdict_at(cycle: u32, end: &PairEnd) -> PairVerdict
    ensures { result ≡ verdict_at_of cycle end.now }
{
    match *end {
        PairEnd::Released | PairEnd::Stopped { op: _, kind: _ } => PairVerdict::Same,
        PairEnd::Parted {
            first: _,
            second: _,
        }
        | PairEnd::Differ {
            output: _,
            first: _,
            second: _,
        } => PairVerdict::Held { cycle },
    }
}
