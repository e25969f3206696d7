//! In which cycles.

ghost use Rattle.std.specs.Prelude.{◌≡◌, ◌<◌, ◌≤◌, IfSome, IfOk};
ghost use Rattle.vcp_base.specs.Limits.{most_cycles};
ghost use Rattle.fault_sites.specs.NamedWords.{last_of, span_of};
ghost use Rattle.fault_sites.specs.NamedLines.{ending_of, when_of, with_rest};

use crate::named::cutting::cut_at;
use crate::named::refused::Why;
use crate::next_is;
use fault_script::{cycle_number, index_number};
use vcp_base::{WordsLeft, same_bytes};

/// Cycles, from one to another, which may be the same.
#[derive(Clone, Copy)]
pub struct Span {
    /// The first, below 1,000,000.
    pub first: u32,
    /// The last, which isn't before it, below 1,000,000.
    pub last: u32,
}

/// What is behind the cycles.
#[derive(Clone, Copy)]
pub enum Ending {
    /// Nothing: each cycle has a group of its own.
    Alone,
    /// `together`: the cycles are one group.
    Together,
    /// `bit B`: the number of a bit.
    Bit {
        /// The number.
        b: u32,
    },
}

/// The last cycle of N..M, behind the first `.`.
fn last_said(word: &[u8]) -> Option<u32>
    ensures value { result ≡ last_of word.now }
    ensures below { IfSome result (λ n. n < most_cycles) }
{
    match word {
        [b'.', word @ ..] => cycle_number(word),
        _ => None,
    }
}

/// One cycle, or N..M.
pub(crate) fn cycles_said(word: &[u8]) -> Option<Span>
    ensures value { result ≡ span_of word.now }
    ensures order { IfSome result (λ s. s.first ≤ s.last) }
    ensures below { IfSome result (λ s. s.last < most_cycles) }
{
    let Some((front, back)) = cut_at(word, b'.') else {
        return match cycle_number(word) {
            Some(n) => Some(Span { first: n, last: n }),
            None => None,
        };
    };
    let Some(first) = cycle_number(front) else {
        return None;
    };
    match last_said(back) {
        Some(last) => if first <= last {
            Some(Span { first, last })
        } else {
            None
        },
        None => None,
    }
}

/// What is behind the cycles, to the end of the line.
pub(crate) fn take_ending(words: &mut WordsLeft<'_>) -> Option<Ending>
    ensures value { result ≡ ending_of words.old }
{
    let Some(word) = words.next() else {
        return Some(Ending::Alone);
    };
    if same_bytes(word, b"bit") {
        return match words.only() {
            Some(word) => match index_number(word) {
                Some(b) => Some(Ending::Bit { b }),
                None => None,
            },
            None => None,
        };
    }
    if same_bytes(word, b"together") && words.is_end() {
        Some(Ending::Together)
    } else {
        None
    }
}

/// Takes `cycle` and the cycles.
pub(crate) fn when(words: &mut WordsLeft<'_>) -> Result<Span, Why>
    ensures value { with_rest words.new result ≡ when_of words.old }
    ensures order { IfOk result (λ s. s.first ≤ s.last) }
    ensures below { IfOk result (λ s. s.last < most_cycles) }
{
    if !next_is(words, b"cycle") {
        return Err(Why::Form);
    }
    let Some(cycles) = words.next() else {
        return Err(Why::Form);
    };
    match cycles_said(cycles) {
        Some(span) => Ok(span),
        None => Err(Why::Form),
    }
}
