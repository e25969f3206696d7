//! Draws.

ghost use Rattle.std.specs.Prelude.{◌≡◌, ◌<◌, ◌%◌};
ghost use Rattle.program_maker.specs.Draws.{states, next, chosen};

use std::marker::Model;

const STATES: u64 = 1 << 31;

/// A linear congruential generator modulo 2^31, seen as its state.
#[derive(Drop)]
pub struct Draws {
    state: u32,
}

impl Model for Draws {
    ghost use Rattle.std.specs.Prelude.{◌<◌, ℕ};
    ghost use Rattle.program_maker.specs.Draws.{states};

    ghost Value = { ℕ };

    ghost view = { λ d. d.state };

    ghost invariant = { λ d. d.state < states };
}

impl Draws {
    /// The generator of the program of a number, before its first draw.
    pub fn new(number: u32) -> Draws
        ensures { result ≡ number % states }
    {
        Draws {
            state: (number as u64 % STATES) as u32,
        }
    }

    /// Draws one of as many choices, counted from 0. There is at least one choice.
    pub fn draw(&mut self, choices: u32) -> u32
        requires { 0 < choices }
        ensures state { self.new ≡ next self.old }
        ensures drawn { result ≡ chosen choices (next self.old) }
        ensures below { result < choices }
    {
        self.state = ((1103515245 * self.state as u64 + 12345) % STATES) as u32;
        self.state / 65536 % choices
    }
}
