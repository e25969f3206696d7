//! The lines of a text.

ghost use Rattle.std.specs.Prelude.{◌≡◌, ◌==◌, ◌<◌, ◌≤◌, ◌+◌, [], ◌∷◌, length, IfNone, IfSome};
ghost use Rattle.std.specs.List.{position_or_len};
ghost use Rattle.std.specs.Str.Lines.{lines, strip_carriage_return};
ghost use Rattle.vcp_base.specs.Limits.{most_source_bytes};
ghost use Rattle.vcp_base.specs.Lines.{is_skipped as is_skipped_of, read_lines};

use memchr::memchr;

// How many bytes stand before the first LF, or in the whole text.
#[tactic(auto, using(crate::proofs::Firsts::first_place))]
fn line_length(text: &[u8]) -> usize
    ensures place { result ≡ position_or_len (λ b. b == 10) text.now }
    ensures bound { result ≤ length text.now }
{
    memchr(b'\n', text).unwrap_or(text.len())
}

// A line without the CR at its end.
fn without_return(line: &[u8]) -> &[u8]
    ensures line { result.now ≡ strip_carriage_return line.now }
    ensures shorter { length result.now ≤ length line.now }
{
    match line {
        [front @ .., b'\r'] => front,
        _ => line,
    }
}

/// The first line of a text that isn't empty, and the text behind it. A line ends at LF, and a CR before it
/// is dropped; the last line needs no LF. That one keeps its CR.
#[tactic(auto, using(crate::proofs::Firsts::last_line, crate::proofs::Firsts::ended_line))]
pub fn first_line(text: &[u8]) -> (&[u8], &[u8])
    requires { 0 < length text.now }
    ensures lines { lines text.now ≡ result.0.now ∷ lines result.1.now }
    ensures shorter { length result.1.now < length text.now }
    ensures whole { length result.0.now + length result.1.now ≤ length text.now }
    ensures feed { 0 < length result.1.now → length result.0.now + length result.1.now < length text.now }
{
    let end = line_length(text);
    if end == text.len() {
        return (text, &text[end..]);
    }
    (without_return(&text[..end]), &text[end + 1..])
}

/// Whether a line is empty, or its first byte is `#`.
pub fn is_skipped(line: &[u8]) -> bool
    ensures { result ≡ is_skipped_of line.now }
{
    match line {
        [] => true,
        [first, ..] => *first == b'#',
    }
}

/// The first line of a text that isn't skipped, with its number and the text behind it, where so many lines
/// are before the text.
#[tactic(auto, using(crate::proofs::LinesRead::skipped, crate::proofs::LinesRead::read, crate::proofs::LinesRead::none_left, crate::proofs::LinesRead::some_byte))]
pub fn first_read(text: &[u8], before: u32) -> Option<(u32, &[u8], &[u8])>
    requires { before + length text.now ≤ most_source_bytes }
    ensures none { IfNone result (read_lines (before + 1) (lines text.now) ≡ []) }
    ensures some { IfSome result (λ r. read_lines (before + 1) (lines text.now)
        ≡ record { number = r.0; text = r.1.now } ∷ read_lines (r.0 + 1) (lines r.2.now)) }
    ensures number { IfSome result (λ r. r.0 + length r.2.now ≤ before + length text.now) }
    ensures shorter { IfSome result (λ r. length r.2.now < length text.now) }
    ensures feed { IfSome result (λ r. 0 < length r.2.now → length r.2.now + 2 ≤ length text.now) }
{
    let mut rest = text;
    let mut number = before;
    'lines: while !rest.is_empty() {
        let (line, more) = first_line(rest);
        number += 1;
        if !is_skipped(line) {
            return Some((number, line, more));
        }
        rest = more;
    }
    None
}
