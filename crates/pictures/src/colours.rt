//! The colours of operations.

ghost use Rattle.std.specs.Prelude.{◌≡◌, ◌<◌, ◌≤◌, ◌+◌, length};
ghost use Rattle.pictures.specs.Colours.{seen_then, seen_after, colour_of as colour_of_kept};

use weight_audit::{Weights, is_blind};

/// How an operation shows at the outputs, within a number of cycle borders.
#[derive(Clone, Copy)]
pub enum Colour {
    /// No path leads from it to an output.
    Unreached,
    /// Paths lead from it to outputs, and at none of these it is blind.
    Plain,
    /// It is blind for this output after so many cycle borders, the first such pair.
    Blind {
        /// The number of the output.
        output: u32,
        /// The number of cycle borders.
        after: u32,
    },
}

/// The colour, where it was `seen` so far, and one more output and number of borders is looked at.
fn coloured(seen: Colour, output: u32, after: u32, reached: bool, blind: bool) -> Colour
    ensures { result ≡ seen_then seen output after reached blind }
{
    match seen {
        Colour::Blind { .. } => seen,
        Colour::Unreached | Colour::Plain => if blind {
            Colour::Blind { output, after }
        } else if reached {
            Colour::Plain
        } else {
            seen
        },
    }
}

/// The colour of an operation, where it was `seen` at the outputs before this one.
fn colour_at(weights: &Weights, op: u32, output: u32, distances: u32, seen: Colour) -> Colour
    requires operation { op < weights.now.operations }
    requires output { output < length weights.now.outputs }
    requires distances { distances ≤ weights.now.horizon + 1 }
    ensures { result ≡ seen_after weights.now op output seen distances }
{
    let mut colour = seen;
    'distances: for after in 0..distances {
        let reached = weights.reached(op, output, after);
        let blind = is_blind(weights, op, output, after);
        colour = coloured(colour, output, after, reached, blind);
    }
    colour
}

/// The colour of an operation, by what is kept of the weights.
pub fn colour_of(weights: &Weights, op: u32, outputs: u32, distances: u32) -> Colour
    requires operation { op < weights.now.operations }
    requires outputs { outputs ≤ length weights.now.outputs }
    requires distances { distances ≤ weights.now.horizon + 1 }
    ensures { result ≡ colour_of_kept weights.now op distances outputs }
{
    let mut colour = Colour::Unreached;
    'outputs: for output in 0..outputs {
        colour = colour_at(weights, op, output, distances, colour);
    }
    colour
}
