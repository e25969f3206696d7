//! Made programs.

ghost use Rattle.std.specs.Prelude.{◌≡◌, IfOk};
ghost use Rattle.program_maker.specs.MadeSource.{made_source};
ghost use Rattle.program_maker.specs.MadeRows.{made_rows};

use crate::draws::Draws;
use crate::writer::Writer;
use std::alloc::Global;
use vcp_base::{Memory, Text};

/// A made program.
#[derive(Drop)]
pub struct Made {
    /// Its source text.
    pub source: Text,
    /// The rows file that it is run on.
    pub rows: Text,
}

/// The program of a number; `Memory` where there is no room for it.
///
/// It has the inputs `a` and `b`, the output `y` and a thousand statements on a hundred variables, each in
/// one of six forms, and a thousand rows with inputs from -1000 to 1000.
pub fn make(alloc: Global, number: u32) -> Result<Made, Memory>
    ensures source { IfOk result (λ made. made.source ≡ made_source number) }
    ensures rows { IfOk result (λ made. made.rows ≡ made_rows number) }
{
    let mut draws = Draws::new(number);
    let source = Writer::new(alloc).source(&mut draws);
    let rows = Writer::new(alloc).rows(&mut draws);
    Ok(Made {
        source: source.into_text()?,
        rows: rows.into_text()?,
    })
}
