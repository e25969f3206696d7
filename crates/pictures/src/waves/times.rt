//! How long a cycle takes, and when cycles begin.

ghost use Rattle.std.specs.Prelude.{◌≡◌, ◌<◌, ◌≤◌, ◌/◌, ℕ, length, decimal, option_map};
ghost use Rattle.std.specs.List.{concat};
ghost use Rattle.vcp_base.specs.Limits.{most_cycles};
ghost use Rattle.pictures.specs.Times.{scale_of, drawn_in as drawn_in_of, thousandths_at, time_pieces, front_before as front_before_of};
ghost use Rattle.pictures.specs.Times.{numbered_in as numbered_in_of, period_of};

use itoa::Buffer;
use vcp_base::numeral;

/// The unit in which it is said how long a cycle takes.
#[derive(Clone, Copy)]
pub enum TimeUnit {
    /// Seconds, `s`.
    Seconds,
    /// Milliseconds, `ms`.
    Milliseconds,
    /// Microseconds, `us`.
    Microseconds,
}

/// How long a cycle takes.
#[derive(Clone, Copy)]
pub struct Period {
    /// A number of the unit.
    pub number: u32,
    /// The unit.
    pub unit: TimeUnit,
}

/// The greatest number of a unit that a cycle may take.
const MOST_PERIOD: u64 = 999_999_999;

// How many thousandths of what times are drawn in a unit has.
fn scale(unit: TimeUnit) -> u64
    ensures scale { result ≡ scale_of unit }
    ensures few { result ≤ 1000 }
{
    match unit {
        TimeUnit::Seconds => 1000,
        TimeUnit::Milliseconds | TimeUnit::Microseconds => 1,
    }
}

/// In what times are drawn.
pub(crate) fn drawn_in(unit: TimeUnit) -> &'static [u8]
    ensures { result.now ≡ drawn_in_of unit }
{
    match unit {
        TimeUnit::Seconds | TimeUnit::Milliseconds => b" s",
        TimeUnit::Microseconds => b" ms",
    }
}

/// How many thousandths behind the begin of the run a cycle begins.
pub(crate) fn thousandths(period: Period, cycle: u32) -> u64
    requires { cycle ≤ most_cycles }
    ensures { result ≡ thousandths_at period cycle }
{
    period.number as u64 * scale(period.unit) * cycle as u64
}

/// How many characters a number has.
pub(crate) fn digits_of(number: u64) -> usize
    ensures text { result ≡ length (decimal number) }
    ensures few { result ≤ 20 }
{
    Buffer::new().format(number).len()
}

/// A number of characters that no time of the cycles below this one passes.
pub(crate) fn time_characters(period: Period, cycles: u32) -> usize
    requires { cycles ≤ most_cycles }
    ensures room { (cycle : ℕ) → cycle < cycles → length (concat (time_pieces period cycle)) ≤ result }
    ensures few { result ≤ 30 }
{
    digits_of(thousandths(period, cycles) / 1000) + 7
}

// What stands before these bytes, where a text ends with them.
fn front_before<'a>(end: &[u8], text: &'a [u8]) -> Option<&'a [u8]>
    ensures { option_map (λ front. front.now) result ≡ front_before_of end.now text.now }
{
    text.strip_suffix(end)
}

// The number of a unit that digits say.
fn numbered_in(unit: TimeUnit, digits: &[u8]) -> Option<Period>
    ensures { result ≡ numbered_in_of unit digits.now }
{
    let Some(number) = numeral(digits) else {
        return None;
    };
    if 1 <= number && number <= MOST_PERIOD {
        Some(Period {
            number: number as u32,
            unit,
        })
    } else {
        None
    }
}

/// How long a cycle takes, by a text as `500ms`: a number from 1 to 999,999,999 and behind it `s`, `ms` or `us`; `None` where
/// the text is none of these.
pub fn period_named(text: &[u8]) -> Option<Period>
    ensures { result ≡ period_of text.now }
{
    if let Some(digits) = front_before(b"ms", text) {
        return numbered_in(TimeUnit::Milliseconds, digits);
    }
    if let Some(digits) = front_before(b"us", text) {
        return numbered_in(TimeUnit::Microseconds, digits);
    }
    match front_before(b"s", text) {
        Some(digits) => numbered_in(TimeUnit::Seconds, digits),
        None => None,
    }
}
