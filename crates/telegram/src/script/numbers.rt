//! The numbers of a line.

ghost use Rattle.std.specs.Prelude.{◌≡◌, ◌≢◌, ◌≤◌, ◌<◌, Some, None, IfOk, IfErr, IfSome};
ghost use Rattle.telegram.specs.Forms.{integers_of, is_between as is_between_of, is_below as is_below_of, number_between as number_between_of};
ghost use Rattle.telegram.specs.Forms.{number_below as number_below_of};
ghost use Rattle.telegram.specs.declared.script.wire_fault.WireFault.TheVariants as refusal;

use crate::script::wire_fault::WireFault;
use std::alloc::Global;
use vcp_base::{Memory, Row, WordsLeft, integer};

/// The numbers that the words that are left of a line write; the line is refused where one writes none.
pub fn numbers(alloc: Global, line: u32, words: &mut WordsLeft<'_>) -> Result<Row, WireFault>
    ensures numbers { IfOk result (λ row. integers_of words.old ≡ Some row) }
    ensures refusal { IfErr result (λ f. f ≢ refusal.Memory → integers_of words.old ≡ None) }
    ensures form { IfErr result (λ f. f ≢ refusal.Memory → f ≡ refusal.Form line) }
{
    let mut row = Row::new(alloc);
    'words: while let Some(word) = words.next() {
        let Some(number) = integer(word) else {
            return Err(WireFault::Form { line });
        };
        match row.push(number) {
            Ok(()) => {}
            Err(Memory) => return Err(WireFault::Memory),
        }
    }
    Ok(row)
}

// Whether a number is at least the one and at most the other.
fn is_between(least: u32, most: u32, v: i64) -> bool
    ensures { result ≡ is_between_of least most v }
{
    least as i64 <= v && v <= most as i64
}

// Whether a number is one of so many, counted from 0.
fn is_below(many: i64, v: i64) -> bool
    ensures { result ≡ is_below_of many v }
{
    0 <= v && v < many
}

/// The number, where it is at least the one and at most the other.
pub fn number_between(least: u32, most: u32, v: i64) -> Option<u32>
    ensures number { result ≡ number_between_of least most v }
    ensures least { IfSome result (λ n. least ≤ n) }
    ensures most { IfSome result (λ n. n ≤ most) }
{
    if is_between(least, most, v) {
        Some(v as u32)
    } else {
        None
    }
}

/// The number, where it is one of so many, counted from 0.
pub fn number_below(many: u32, v: i64) -> Option<u32>
    ensures number { result ≡ number_below_of many v }
    ensures below { IfSome result (λ n. n < many) }
{
    if is_below(many as i64, v) {
        Some(v as u32)
    } else {
        None
    }
}
