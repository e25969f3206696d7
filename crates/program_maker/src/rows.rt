//! The rows of a made program.

ghost use Rattle.std.specs.Prelude.{◌≡◌, ◌+◌, ◌*◌, ℕ};
ghost use Rattle.std.specs.Fmt.{signed_decimal};
ghost use Rattle.program_maker.specs.Draws.{state, next, chosen};
ghost use Rattle.program_maker.specs.Written.{Writes};
ghost use Rattle.program_maker.specs.MadeRows as spec;

use crate::draws::Draws;
use crate::writer::Writer;

const CYCLES: u32 = 1000;

// How many values an input may have: -1000 to 1000.
const INPUTS: u32 = 2001;

impl Writer {
    // Draws an input and writes it.
    fn input(self, draws: &mut Draws) -> Writer
        ensures draws { draws.new ≡ next draws.old }
        ensures text { Writes self result (signed_decimal (spec.input (chosen 2001 (next draws.old)))) }
    {
        self.number(draws.draw(INPUTS) as i64 - 1000)
    }

    // Draws the record of a cycle and writes it.
    fn row(self, draws: &mut Draws) -> Writer
        ensures draws { (number i : ℕ) → draws.old ≡ state number (spec.draws_of_statements + 2 * i)
            → draws.new ≡ state number (spec.draws_of_statements + 2 * (i + 1)) }
        ensures text { (number i : ℕ) → draws.old ≡ state number (spec.draws_of_statements + 2 * i)
            → Writes self result (spec.row number i) }
    {
        self.input(draws).put(b",").input(draws).put(b"\n")
    }

    /// Draws the rows of a program, after its source, and writes them.
    pub fn rows(self, draws: &mut Draws) -> Writer
        ensures { (number : ℕ) → draws.old ≡ state number spec.draws_of_statements → Writes self result (spec.made_rows number) }
    {
        let mut written = self.put(b"a,b\n");
        'rows: for _ in 0..CYCLES {
            written = written.row(draws);
        }
        written
    }
}
