//! The source of a made program.

ghost use Rattle.std.specs.Prelude.{◌≡◌, ◌+◌, ◌*◌, ℕ};
ghost use Rattle.program_maker.specs.Draws.{state};
ghost use Rattle.program_maker.specs.Written.{Writes};
ghost use Rattle.program_maker.specs.MadeSource as spec;

use crate::draws::Draws;
use crate::writer::Writer;

const VARIABLES: u32 = 100;

const STATEMENTS: u32 = 1000;

const FORMS: u32 = 6;

// The line of a form, 0 to 5, whose letters p, q and r stand for variables.
fn form_line(form: u32) -> &'static [u8]
    ensures { result.now ≡ spec.form_line form }
{
    match form {
        0 => b"p := (q + a) MOD 1000;\n",
        1 => b"p := (q - b) MOD 1010;\n",
        2 => b"p := (q * r) MOD 1020;\n",
        3 => b"IF q < r THEN p := (p + 1) MOD 1000; END_IF;\n",
        4 => b"p := SEL(q = r, q, a MOD 1030);\n",
        _ => b"p := LIMIT(-500, q, 500);\n",
    }
}

impl Writer {
    // Writes name `i` of a list of variables.
    fn listed(self, i: u32) -> Writer
        ensures { Writes self result (spec.listed i) }
    {
        if i == 0 {
            self.variable(i)
        } else {
            self.put(b", ").variable(i)
        }
    }

    // Writes the names of all variables.
    fn names(mut self) -> Writer
        ensures { Writes self result (spec.joined spec.listed spec.variables) }
    {
        'names: for i in 0..VARIABLES {
            self = self.listed(i);
        }
        self
    }

    // Writes a byte of a line, or the variable that it stands for.
    fn part(self, p: u32, q: u32, r: u32, byte: u8) -> Writer
        ensures { Writes self result (spec.part p q r byte) }
    {
        match byte {
            b'p' => self.variable(p),
            b'q' => self.variable(q),
            b'r' => self.variable(r),
            _ => self.put(&[byte]),
        }
    }

    // Writes a line whose letters p, q and r stand for variables.
    fn filled(mut self, p: u32, q: u32, r: u32, line: &[u8]) -> Writer
        ensures { Writes self result (spec.filled p q r line.now) }
    {
        'bytes: for byte in line {
            self = self.part(p, q, r, *byte);
        }
        self
    }

    // Draws a statement and writes it.
    fn statement(self, draws: &mut Draws) -> Writer
        ensures draws { (number i : ℕ) → draws.old ≡ state number (4 * i) → draws.new ≡ state number (4 * (i + 1)) }
        ensures text { (number i : ℕ) → draws.old ≡ state number (4 * i) → Writes self result (spec.statement number i) }
    {
        let p = draws.draw(VARIABLES);
        let q = draws.draw(VARIABLES);
        let r = draws.draw(VARIABLES);
        let form = draws.draw(FORMS);
        self.filled(p, q, r, form_line(form))
    }

    // Draws the statements and writes them.
    fn statements(mut self, draws: &mut Draws) -> Writer
        ensures draws { (number : ℕ) → draws.old ≡ state number 0 → draws.new ≡ state number (4 * spec.statements) }
        ensures text { (number : ℕ) → draws.old ≡ state number 0 → Writes self result (spec.joined (spec.statement number) spec.statements) }
    {
        'statements: for _ in 0..STATEMENTS {
            self = self.statement(draws);
        }
        self
    }

    /// Draws the source of a program and writes it.
    pub fn source(self, draws: &mut Draws) -> Writer
        ensures draws { (number : ℕ) → draws.old ≡ state number 0 → draws.new ≡ state number (4 * spec.statements) }
        ensures text { (number : ℕ) → draws.old ≡ state number 0 → Writes self result (spec.made_source number) }
    {
        self.put(
            b"PROGRAM demo\nVAR_INPUT a, b : DINT; END_VAR\nVAR_OUTPUT y : DINT; END_VAR\nVAR ",
        ).names()
            .put(b" : DINT; END_VAR\n")
            .statements(draws)
            .put(b"y := v0 + v1 + v2 + v3;\nEND_PROGRAM\n")
    }
}
