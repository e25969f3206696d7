//! Literals.

ghost use Rattle.std.specs.Prelude.{◌≡◌, ◌≤◌, ◌<◌, ◌+◌, ◌^◌, ◌==◌, ◌||◌, IfSome, true, false, length, take, drop, slice_index, codes};
ghost use Rattle.std.specs.List.{prefix_len};
ghost use Rattle.st_lexer.specs.Literals as spec;

use crate::slices::{behind, first, front, same_word};
use vcp_base::{Ty, is_letter_or_digit};

/// The value of a literal, and how many bytes it has, without its type and `#`.
#[derive(Clone, Copy)]
pub struct Literal {
    pub value: i64,
    pub len: usize,
}

fn is_run(b: u8) -> bool
    ensures { result ≡ spec.is_run b }
{
    is_letter_or_digit(b) || b == b'#'
}

// The value of a digit in either case; 36 where the byte is none.
#[tactic(auto, unfolding(crate::specs::Literals::digit))]
fn digit(b: u8) -> u8
    ensures value { result ≡ spec.digit b }
    ensures small { result ≤ 36 }
{
    if b.is_ascii_digit() {
        b - b'0'
    } else if b.is_ascii_uppercase() {
        b - b'A' + 10
    } else if b.is_ascii_lowercase() {
        b - b'a' + 10
    } else {
        36
    }
}

/// The number that digits of the base spell, with a single `_` between two of them, up to 2^63 - 1.
#[tactic(auto, using(crate::proofs::Numbers::read_rules))]
fn digits(base: u8, run: &[u8]) -> Option<u64>
    requires some { 0 < base }
    requires most { base ≤ 36 }
    ensures value { result ≡ spec.digits base run.now }
    ensures small { IfSome result (λ n. n < 2 ^ 63) }
{
    let mut number: u64 = 0;
    let mut behind_digit = false;
    for byte in run {
        let value = digit(*byte);
        if value < base {
            let next = u128::from(number) * u128::from(base) + u128::from(value);
            if next > 9_223_372_036_854_775_807 {
                return None;
            }
            number = next as u64;
            behind_digit = true;
        } else if *byte == b'_' && behind_digit {
            behind_digit = false;
        } else {
            return None;
        }
    }
    if behind_digit { Some(number) } else { None }
}

/// The number of decimal digits, or of a base, `#` and digits of that base.
#[tactic(auto, unfolding(crate::specs::Literals::based))]
fn based(run: &[u8]) -> Option<u64>
    ensures value { result ≡ spec.based run.now }
    ensures small { IfSome result (λ n. n < 2 ^ 63) }
{
    if run.starts_with(b"2#") {
        digits(2, behind(run, 2))
    } else if run.starts_with(b"8#") {
        digits(8, behind(run, 2))
    } else if run.starts_with(b"16#") {
        digits(16, behind(run, 3))
    } else {
        digits(10, run)
    }
}

/// The number of a run without a sign, behind a type or none.
#[tactic(auto, unfolding(crate::specs::Literals::plain))]
fn plain(ty: Option<Ty>, run: &[u8]) -> Option<u64>
    ensures value { result ≡ spec.plain ty run.now }
    ensures small { IfSome result (λ n. n < 2 ^ 63) }
{
    match ty {
        Some(Ty::Bool) => {
            if same_word(run, b"TRUE") {
                Some(1)
            } else if same_word(run, b"FALSE") {
                Some(0)
            } else {
                based(run)
            }
        }
        Some(Ty::Int) => based(run),
        Some(Ty::Dint) => based(run),
        Some(Ty::Lint) => based(run),
        None => based(run),
    }
}

// Whether the text, behind a prefix, begins with a sign that belongs to the literal.
fn is_signed(ty: Option<Ty>, rest: &[u8]) -> bool
    ensures { result ≡ spec.signed ty rest.now }
{
    let first = first(rest);
    match ty {
        Some(Ty::Int | Ty::Dint | Ty::Lint) => first == b'+' || first == b'-',
        Some(Ty::Bool) | None => false,
    }
}

// The longest run at the front.
fn run(rest: &[u8]) -> &[u8]
    ensures { result.now ≡ spec.run rest.now }
{
    let mut n = 0;
    while n < rest.len() && is_run(rest[n]) {
        n += 1;
    }
    front(rest, n)
}

// The literal behind a sign that belongs to it.
#[tactic(auto, unfolding(crate::specs::Literals::literal_at))]
fn signed_literal(ty: Option<Ty>, rest: &[u8]) -> Option<Literal>
    requires { spec.signed ty rest.now ≡ true }
    ensures { result ≡ spec.literal_at ty rest.now }
{
    let run = run(behind(rest, 1));
    match digits(10, run) {
        Some(number) => {
            let number = number as i64;
            let value = if first(rest) == b'-' { -number } else { number };
            Some(Literal {
                value,
                len: run.len() + 1,
            })
        }
        None => None,
    }
}

// The literal without a sign.
#[tactic(auto, unfolding(crate::specs::Literals::literal_at))]
fn plain_literal(ty: Option<Ty>, rest: &[u8]) -> Option<Literal>
    requires { spec.signed ty rest.now ≡ false }
    ensures { result ≡ spec.literal_at ty rest.now }
{
    let run = run(rest);
    match plain(ty, run) {
        Some(number) => Some(Literal {
            value: number as i64,
            len: run.len(),
        }),
        None => None,
    }
}

/// The literal that begins at the front, behind its prefix.
pub fn literal_at(ty: Option<Ty>, rest: &[u8]) -> Option<Literal>
    ensures value { result ≡ spec.literal_at ty rest.now }
    ensures within { IfSome result (λ l. l.len ≤ length rest.now) }
{
    if is_signed(ty, rest) {
        signed_literal(ty, rest)
    } else {
        plain_literal(ty, rest)
    }
}
