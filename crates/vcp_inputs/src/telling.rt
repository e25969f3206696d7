//! The lines of refusals.

ghost use Rattle.std.specs.Prelude.{◌≡◌, [], ◌∷◌, ◌++◌, codes};
ghost use Rattle.vcp_outside.specs.Written.{WritesTo};
ghost use Rattle.vcp_outside.specs.Pens.{Goes};
ghost use Rattle.vcp_inputs.specs.Lines.{diagnostic, diagnostic_text, refusal_text, input_text};
ghost use Rattle.vcp_inputs.specs.Lines.{input_status as status_of_input};
ghost use Rattle.vcp_inputs.specs.Told.{told_text};

use crate::diagnostics::{Told, told_of};
use crate::refusal::{NoInput, Refusal};
use vcp_outside::{Failed, LinePen, Pen, Sink, write_all};

/// The line where memory was wanted.
const NO_MEMORY: &[u8] = b"no memory\n";

/// Prints the line of a refusal of the file under a name.
pub fn tell_refusal<E: Sink>(err: &mut E, name: &[u8], refusal: &Refusal) -> Result<(), Failed>
    ensures { WritesTo (E.seen err.old) (E.seen err.new) (refusal_text name.now refusal.now) result }
{
    let told = told_of(refusal);
    if let Told::Memory = told {
        return write_all(err, NO_MEMORY);
    }
    let pen = LinePen::new(err).text(name);
    then_told(pen, &told).end()
}

/// Prints why there is nothing of the file under a name.
pub fn tell_input<E: Sink>(err: &mut E, name: &[u8], input: &NoInput) -> Result<(), Failed>
    ensures { WritesTo (E.seen err.old) (E.seen err.new) (input_text name.now input.now) result }
{
    match input {
        NoInput::Unread => tell_of(err, name, b" read fault"),
        NoInput::Refused(refusal) => tell_refusal(err, name, refusal),
        NoInput::Memory => write_all(err, NO_MEMORY),
    }
}

/// The status of a command where there is nothing of a file.
pub fn input_status(input: &NoInput) -> u8
    ensures { result ≡ status_of_input input.now }
{
    match input {
        NoInput::Unread => 5,
        NoInput::Refused(_) => 1,
        NoInput::Memory => 7,
    }
}

// Goes on with what is told, behind a file's name.
fn then_told<P: Pen>(pen: P, told: &Told) -> P
    ensures { Goes (P.seen pen) (P.seen result) (told_text told.now) }
{
    match told {
        Told::Whole(what) => pen.texts(b" ", what),
        Told::Place(place, what) => pen.numbered(b":", *place as u64).texts(b" ", what),
        Told::Pair(row, column, what) => {
            pen.numbered(b":", *row as u64)
                .numbered(b":", *column as u64)
                .texts(b" ", what)
        }
        Told::Correction {
            offset,
            stored,
            expected,
        } => {
            pen.numbered(b":", *offset as u64)
                .numbered(b" I6 Table stored ", *stored)
                .numbered(b" expected ", *expected)
        }
        Told::Memory => pen,
    }
}

/// Prints a line of a name and what is said of it. Of it a proper part is written only where the sink's count
/// rose; so it is of all lines here.
pub fn tell_of<E: Sink>(err: &mut E, name: &[u8], what: &[u8]) -> Result<(), Failed>
    ensures { WritesTo (E.seen err.old) (E.seen err.new) (name.now ++ (what.now ++ codes "\n")) result }
{
    LinePen::new(err).texts(name, what).end()
}

/// Prints a line of a number's place, as a record, an offset or a line of a script, and what is said of it.
pub fn tell_place<E: Sink>(err: &mut E, name: &[u8], place: u32, what: &[u8]) -> Result<(), Failed>
    ensures { WritesTo (E.seen err.old) (E.seen err.new) (diagnostic_text name.now (diagnostic (place ∷ []) what.now)) result }
{
    LinePen::new(err)
        .text(name)
        .numbered(b":", place as u64)
        .texts(b" ", what)
        .end()
}
