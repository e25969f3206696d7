//! The value that a cell spells.

ghost use Rattle.std.specs.Prelude.{◌≡◌, Some, reverse};
ghost use Rattle.vcp_base.specs.Blanks.{unindented};
ghost use Rattle.input_rows.specs.Cells.{trimmed, truth_of, value_of};

use vcp_base::{Ty, is_same_name, number_in, without_first_blanks};

/// A text without the spaces and tabs at both ends.
pub fn trim(text: &[u8]) -> &[u8]
    ensures { result.now ≡ trimmed text.now }
{
    without_last_blanks(without_first_blanks(text))
}

// A text without the blanks at its end.
fn without_last_blanks(text: &[u8]) -> &[u8]
    ensures { result.now ≡ reverse (unindented (reverse text.now)) }
{
    let mut rest = text;
    'blanks: while let [more @ .., b' ' | b'\t'] = rest {
        rest = more;
    }
    rest
}

// The value of BOOL that a text spells.
fn truth(text: &[u8]) -> Option<i64>
    ensures { result ≡ truth_of text.now }
{
    if is_same_name(text, b"1") || is_same_name(text, b"true") {
        Some(1)
    } else if is_same_name(text, b"0") || is_same_name(text, b"false") {
        Some(0)
    } else {
        None
    }
}

/// The value of the type that a cell spells, if it spells one.
pub fn value(ty: Ty, cell: &[u8]) -> Option<i64>
    ensures { result ≡ value_of ty cell.now }
{
    let text = trim(cell);
    match ty {
        Ty::Bool => truth(text),
        Ty::Int | Ty::Dint | Ty::Lint => number_in(ty, text),
    }
}
