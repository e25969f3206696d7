//! Coded words: a value and a residue in one integer.

ghost use Rattle.std.specs.Prelude.{◌≡◌, ℕ, ◌<◌, ◌+◌, ◌-◌, ◌^◌, ℤ, pos, negsuc, ◌+ℤ◌, ◌*ℤ◌, ◌≤ℤ◌, ◌<ℤ◌, true, IfSome, unsigned_abs};
ghost use Rattle.std.specs.Int.{int_div_euclid};
ghost use Rattle.std.specs.Option.{SomeIff};
ghost use Rattle.vcp_base.specs.Code.{modulus as modulus_of};
ghost use Rattle.coded_unit.specs.Words.{modulo, value_part, coded, nearest_word, Short, Middle, Small};

use std::marker::Model;
use vcp_base::{Profile, Residue, modulus};

/// The constant of the narrow code.
const NARROW: i64 = 2147483647;

/// The constant of the wide code.
const WIDE: i128 = 2305843009213693951;

/// The same on 64 bits.
const SHORT_WIDE: i64 = 2305843009213693951;

/// 2^62, of which a sum with less is one of 64 bits.
const MIDDLE: i128 = 4611686018427387904;

/// A coded word, seen as an integer w with |w| < 2^126. In a code with the constant `A`, `A*v + r` is
/// the word of the value `v` and the residue `r`, which is below `A`.
#[derive(Clone, Copy, PartialEq, Eq)]
pub struct Word {
    code: i128,
}

/// The value of 64 bits and the residue of a word.
#[derive(Clone, Copy)]
pub(crate) struct ShortParts {
    /// The value part.
    pub value: i64,
    /// The residue, below the constant of the code.
    pub residue: Residue,
}

impl Model for Word {
    ghost use Rattle.std.specs.Prelude.{ℤ, ◌<◌, ◌^◌, unsigned_abs};

    ghost Value = { ℤ };

    ghost view = { λ w. w.code };

    ghost invariant = { λ w. unsigned_abs w.code < 2 ^ 126 };

    ghost inverse = { λ z. record { code = z } };
}

impl Word {
    /// The word of the value 0 and the residue 0.
    pub const ZERO: Word = Word { code: 0 };

    /// The word that is the integer `w`; `None` where |w| is 2^126 or more. So it is in both codes.
    pub fn new(w: i128) -> Option<Word>
        ensures { SomeIff result (unsigned_abs w < 2 ^ 126) w }
    {
        if w.unsigned_abs() < 1 << 126 {
            Some(Word { code: w })
        } else {
            None
        }
    }

    /// The integer that the word is, above -2^126 and below 2^126.
    pub fn get(self) -> i128
        ensures value { result ≡ self }
        ensures bound { unsigned_abs self < 2 ^ 126 }
    {
        self.code
    }

    /// The value and the residue of the word in a code with the constant `A`: the one `(v, r)` with
    /// `w = A*v + r` and `r < A`. The value lies between -2^96 and 2^96.
    pub fn split(self, profile: Profile) -> (i128, Residue)
        ensures value { result.0 ≡ value_part profile self }
        ensures residue { result.1 ≡ modulo profile self }
        ensures below { result.1 < modulus_of profile }
        ensures whole { self ≡ coded profile result.0 result.1 }
        ensures small { unsigned_abs result.0 < 2 ^ 96 }
        ensures one { (v : ℤ) (r : ℕ) → r < modulus_of profile → self ≡ coded profile v r → (v ≡ result.0) × (r ≡ result.1) }
    {
        parts(profile, self.code)
    }

    /// What `split` gives, where it is found in 64 bits. `None` says nothing of the word.
    #[inline(always)]
    pub(crate) fn short_split(self, profile: Profile) -> Option<ShortParts>
        ensures value { IfSome result (λ parts. parts.value ≡ value_part profile self) }
        ensures residue { IfSome result (λ parts. parts.residue ≡ modulo profile self) }
        ensures below { IfSome result (λ parts. parts.residue < modulus_of profile) }
    {
        short_parts(profile, self.code)
    }

    /// The same for an operand that few kinds have, whose word mostly is 0.
    #[inline(always)]
    pub(crate) fn rare_short_split(self, profile: Profile) -> Option<ShortParts>
        ensures value { IfSome result (λ parts. parts.value ≡ value_part profile self) }
        ensures residue { IfSome result (λ parts. parts.residue ≡ modulo profile self) }
        ensures below { IfSome result (λ parts. parts.residue < modulus_of profile) }
    {
        short_parts_of_rare(profile, self.code)
    }

    /// The word `A*value + residue`, for a value from -2^63 to 2^63. The residue should be below `A`:
    /// only then does `split` give the two back, and a greater one adds to the value part.
    pub fn packed(profile: Profile, value: i128, residue: Residue) -> Word
        requires low { negsuc (2 ^ 63) ≤ℤ value }
        requires high { value ≤ℤ pos (2 ^ 63) }
        ensures { result ≡ coded profile value residue }
    {
        Word {
            code: modulus(profile) as i128 * value + residue as i128,
        }
    }

    /// The word itself, to which nothing is added.
    #[inline(always)]
    pub(crate) fn plus_nothing(self, nothing: i128) -> Word
        requires { nothing ≡ pos 0 }
        ensures { result ≡ self }
    {
        Word {
            code: self.code + nothing,
        }
    }

    /// The word `w + e`, or the nearest word to it where that is none.
    pub fn shift(self, e: i64) -> Word
        ensures { result ≡ nearest_word (self +ℤ e) }
    {
        let most = (1i128 << 126) - 1;
        Word {
            code: (self.code + e as i128).clamp(-most, most),
        }
    }
}

/// The value part and the residue of an integer in the narrow code, by 64 bits where they are
/// enough, which divide faster than 128.
fn narrow_parts(code: i128) -> (i128, Residue)
    ensures value { result.0 ≡ value_part Profile.Narrow code }
    ensures residue { result.1 ≡ modulo Profile.Narrow code }
{
    match i64::try_from(code) {
        Ok(code) => (
            code.div_euclid(NARROW) as i128,
            code.rem_euclid(NARROW) as Residue,
        ),
        Err(_) => (
            code.div_euclid(NARROW as i128),
            code.rem_euclid(NARROW as i128) as Residue,
        ),
    }
}

/// The residue of an integer of 64 bits in the narrow code.
#[inline(always)]
pub(crate) fn narrow_remainder(code: i64) -> Residue
    ensures value { result ≡ modulo Profile.Narrow code }
    ensures below { result < 2147483647 }
{
    narrow_split(code).residue
}

/// The parts of an integer of 64 bits in the narrow code.
///
/// 2^31 is the constant and 1, so an integer `2^31*high + low` is `A*high + (high + low)`, and where
/// that sum is near 0 to `A`, as in each right answer, a step of one gives the parts.
#[inline(always)]
fn narrow_split(code: i64) -> ShortParts
    ensures value { result.value ≡ value_part Profile.Narrow code }
    ensures residue { result.residue ≡ modulo Profile.Narrow code }
    ensures below { result.residue < 2147483647 }
{
    let (high, low) = short_halves(code);
    let rest = short_plus(high, low);
    // Mostly no step is needed, and of the parts below nothing is left to do here.
    if is_rest(rest) {
        near_split(code, high, low, rest)
    } else if is_near(rest) {
        near_split(code, high, low, rest)
    } else {
        far_split(code)
    }
}

/// An integer of 64 bits as `2^31*high + low`, with the low part from 0 to 2^31 - 1.
#[inline(always)]
fn short_halves(code: i64) -> (i64, i64)
    ensures whole { code ≡ pos (2 ^ 31) *ℤ result.0 +ℤ result.1 }
    ensures least { pos 0 ≤ℤ result.1 }
    ensures most { result.1 ≤ℤ pos (2 ^ 31 - 1) }
    ensures small { Short result.0 }
{
    let high = short_high_part(code);
    (high, code - high * (NARROW + 1))
}

/// The greatest integer h with `2^31*h` at most the code.
#[inline(always)]
fn short_high_part(code: i64) -> i64
    ensures { result ≡ int_div_euclid code (pos (2 ^ 31)) }
{
    code >> 31
}

/// The sum of two short integers.
#[inline(always)]
fn short_plus(a: i64, b: i64) -> i64
    requires first { Short a }
    requires second { Short b }
    ensures { result ≡ a +ℤ b }
{
    a + b
}

/// Whether an integer is a residue: from 0 and below A.
#[inline(always)]
fn is_rest(rest: i64) -> bool
    ensures low { result ≡ true → negsuc 2147483646 ≤ℤ rest }
    ensures high { result ≡ true → rest <ℤ pos 4294967294 }
{
    0 <= rest && rest < NARROW
}

/// Whether an integer is between -A and 2*A.
#[inline(always)]
fn is_near(rest: i64) -> bool
    ensures low { result ≡ true → negsuc 2147483646 ≤ℤ rest }
    ensures high { result ≡ true → rest <ℤ pos 4294967294 }
{
    -NARROW <= rest && rest < 2 * NARROW
}

/// The parts of `2^31*high + low` in the narrow code, where the sum of the two is near 0 to `A`.
#[inline(always)]
fn near_split(code: i64, high: i64, low: i64, rest: i64) -> ShortParts
    requires whole { code ≡ pos (2 ^ 31) *ℤ high +ℤ low }
    requires sum { rest ≡ high +ℤ low }
    requires small { Short high }
    requires rest_low { negsuc 2147483646 ≤ℤ rest }
    requires rest_high { rest <ℤ pos 4294967294 }
    ensures value { result.value ≡ value_part Profile.Narrow code }
    ensures residue { result.residue ≡ modulo Profile.Narrow code }
    ensures below { result.residue < 2147483647 }
{
    narrow_step_to(high, rest)
}

/// The parts of `A*value + rest` in the narrow code, where the rest is near 0 to `A`.
#[inline(always)]
fn narrow_step_to(value: i64, rest: i64) -> ShortParts
    requires small { Short value }
    requires rest_low { negsuc 2147483646 ≤ℤ rest }
    requires rest_high { rest <ℤ pos 4294967294 }
    ensures whole { pos 2147483647 *ℤ value +ℤ rest ≡ pos 2147483647 *ℤ result.value +ℤ pos result.residue }
    ensures below { result.residue < 2147483647 }
{
    if rest < 0 {
        ShortParts {
            value: value - 1,
            residue: (rest + NARROW) as Residue,
        }
    } else if rest >= NARROW {
        ShortParts {
            value: value + 1,
            residue: (rest - NARROW) as Residue,
        }
    } else {
        ShortParts {
            value,
            residue: rest as Residue,
        }
    }
}

/// The parts of any integer of 64 bits in the narrow code, by a division.
#[cold]
fn far_split(code: i64) -> ShortParts
    ensures value { result.value ≡ value_part Profile.Narrow code }
    ensures residue { result.residue ≡ modulo Profile.Narrow code }
    ensures below { result.residue < 2147483647 }
{
    ShortParts {
        value: code.div_euclid(NARROW),
        residue: code.rem_euclid(NARROW) as Residue,
    }
}

/// An integer as `2^61*high + low`, with the low part from 0 to 2^61 - 1.
fn halves(code: i128) -> (i128, i128)
    ensures whole { code ≡ pos (2 ^ 61) *ℤ result.0 +ℤ result.1 }
    ensures least { pos 0 ≤ℤ result.1 }
    ensures most { result.1 ≤ℤ pos (2 ^ 61 - 1) }
    ensures small { Small result.0 }
{
    let high = high_part(code);
    (high, code - high * (WIDE + 1))
}

/// The greatest integer h with `2^61*h` at most the code.
fn high_part(code: i128) -> i128
    ensures { result ≡ int_div_euclid code (pos (2 ^ 61)) }
{
    code >> 61
}

/// The value part and the residue of an integer in the wide code.
///
/// 2^61 is the constant and 1, so an integer `2^61*high + low` is `A*high + (high + low)`, and its
/// parts come from two shifts and a step of one.
#[inline(always)]
fn wide_parts(code: i128) -> (i128, Residue)
    ensures value { result.0 ≡ value_part Profile.Wide code }
    ensures residue { result.1 ≡ modulo Profile.Wide code }
    ensures below { result.1 < 2305843009213693951 }
{
    let (high, low) = halves(code);
    let (more, rest) = halves(plus(high, low));
    step_to(plus(high, more), plus(more, rest))
}

/// The sum of two small integers.
fn plus(a: i128, b: i128) -> i128
    requires first { Small a }
    requires second { Small b }
    ensures { result ≡ a +ℤ b }
{
    a + b
}

/// The value part and the residue of `A*value + rest`, where the rest is near 0 to `A`.
fn step_to(value: i128, rest: i128) -> (i128, Residue)
    requires value_low { negsuc (2 ^ 100) ≤ℤ value }
    requires value_high { value ≤ℤ pos (2 ^ 100) }
    requires rest_low { negsuc 2305843009213693950 ≤ℤ rest }
    requires rest_high { rest <ℤ pos 4611686018427387902 }
    ensures whole { pos 2305843009213693951 *ℤ value +ℤ rest ≡ pos 2305843009213693951 *ℤ result.0 +ℤ pos result.1 }
    ensures below { result.1 < 2305843009213693951 }
{
    if rest < 0 {
        (value - 1, (rest + WIDE) as Residue)
    } else if rest >= WIDE {
        (value + 1, (rest - WIDE) as Residue)
    } else {
        (value, rest as Residue)
    }
}

/// The value part and the residue of an integer.
///
/// Zero takes the place of an operand that a kind does not have, so it is split at once.
fn parts(profile: Profile, code: i128) -> (i128, Residue)
    ensures value { result.0 ≡ value_part profile code }
    ensures residue { result.1 ≡ modulo profile code }
{
    if code == 0 {
        return (0, 0);
    }
    match profile {
        Profile::Narrow => narrow_parts(code),
        Profile::Wide => wide_parts(code),
    }
}

/// The residue of an integer in a code. It is below the constant of the code.
#[tactic(auto, using(crate::proofs::Modular::modulo_below))]
pub fn remainder(profile: Profile, code: i128) -> Residue
    ensures value { result ≡ modulo profile code }
    ensures below { result < modulus_of profile }
{
    parts(profile, code).1
}

/// The parts of an integer, where they are found in 64 bits.
#[inline(always)]
fn short_parts(profile: Profile, code: i128) -> Option<ShortParts>
    ensures value { IfSome result (λ parts. parts.value ≡ value_part profile code) }
    ensures residue { IfSome result (λ parts. parts.residue ≡ modulo profile code) }
    ensures below { IfSome result (λ parts. parts.residue < modulus_of profile) }
{
    match profile {
        Profile::Narrow => short_narrow_parts(code),
        Profile::Wide => short_wide_parts(code),
    }
}

/// The same of an integer that mostly is 0, which is split at once.
#[inline(always)]
fn short_parts_of_rare(profile: Profile, code: i128) -> Option<ShortParts>
    ensures value { IfSome result (λ parts. parts.value ≡ value_part profile code) }
    ensures residue { IfSome result (λ parts. parts.residue ≡ modulo profile code) }
    ensures below { IfSome result (λ parts. parts.residue < modulus_of profile) }
{
    if code == 0 {
        return Some(ShortParts {
            value: 0,
            residue: 0,
        });
    }
    short_parts(profile, code)
}

/// The parts of an integer in the narrow code, where it has 64 bits.
#[inline(always)]
fn short_narrow_parts(code: i128) -> Option<ShortParts>
    ensures value { IfSome result (λ parts. parts.value ≡ value_part Profile.Narrow code) }
    ensures residue { IfSome result (λ parts. parts.residue ≡ modulo Profile.Narrow code) }
    ensures below { IfSome result (λ parts. parts.residue < 2147483647) }
{
    match i64::try_from(code) {
        Ok(code) => Some(narrow_split(code)),
        Err(_) => None,
    }
}

/// The parts of an integer in the wide code, where the numbers on the way to them have 64 bits.
#[inline(always)]
fn short_wide_parts(code: i128) -> Option<ShortParts>
    ensures value { IfSome result (λ parts. parts.value ≡ value_part Profile.Wide code) }
    ensures residue { IfSome result (λ parts. parts.residue ≡ modulo Profile.Wide code) }
    ensures below { IfSome result (λ parts. parts.residue < 2305843009213693951) }
{
    let (high, low) = halves(code);
    match middle(high) {
        Some(high) => Some(wide_split(code, high, low as i64)),
        None => None,
    }
}

/// An integer, where it is far from the ends of 64 bits.
#[inline(always)]
fn middle(z: i128) -> Option<i64>
    ensures same { IfSome result (λ short. short ≡ z) }
    ensures middle { IfSome result (λ short. Middle short) }
{
    if -MIDDLE <= z && z <= MIDDLE {
        Some(z as i64)
    } else {
        None
    }
}

/// The parts of `2^61*high + low` in the wide code, as `wide_parts` finds them, on 64 bits.
#[inline(always)]
fn wide_split(code: i128, high: i64, low: i64) -> ShortParts
    requires whole { code ≡ pos (2 ^ 61) *ℤ high +ℤ low }
    requires least { pos 0 ≤ℤ low }
    requires most { low ≤ℤ pos (2 ^ 61 - 1) }
    requires middle { Middle high }
    ensures value { result.value ≡ value_part Profile.Wide code }
    ensures residue { result.residue ≡ modulo Profile.Wide code }
    ensures below { result.residue < 2305843009213693951 }
{
    let sum = middle_plus(high, low);
    if is_wide_rest(sum) {
        return wide_near_split(code, high, sum);
    }
    let (more, rest) = middle_halves(sum);
    wide_near_split(code, middle_plus(high, more), middle_plus(more, rest))
}

/// Whether an integer is a residue: from 0 and below A.
#[inline(always)]
fn is_wide_rest(rest: i64) -> bool
    ensures low { result ≡ true → negsuc 2305843009213693950 ≤ℤ rest }
    ensures high { result ≡ true → rest <ℤ pos 4611686018427387902 }
{
    0 <= rest && rest < SHORT_WIDE
}

/// The sum of two integers far from the ends of 64 bits.
#[inline(always)]
fn middle_plus(a: i64, b: i64) -> i64
    requires first { Middle a }
    requires second_low { negsuc (2 ^ 61) ≤ℤ b }
    requires second_high { b ≤ℤ pos (2 ^ 61) }
    ensures { result ≡ a +ℤ b }
{
    a + b
}

/// A sum as `2^61*high + low`, with the low part from 0 to 2^61 - 1.
#[inline(always)]
fn middle_halves(sum: i64) -> (i64, i64)
    ensures whole { sum ≡ pos (2 ^ 61) *ℤ result.0 +ℤ result.1 }
    ensures least { pos 0 ≤ℤ result.1 }
    ensures most { result.1 ≤ℤ pos (2 ^ 61 - 1) }
    ensures few_low { negsuc 3 ≤ℤ result.0 }
    ensures few_high { result.0 ≤ℤ pos 3 }
{
    let high = middle_high_part(sum);
    (high, sum - high * 2305843009213693952)
}

/// The greatest integer h with `2^61*h` at most the sum.
#[inline(always)]
fn middle_high_part(sum: i64) -> i64
    ensures { result ≡ int_div_euclid sum (pos (2 ^ 61)) }
{
    sum >> 61
}

/// The parts of `A*value + rest` in the wide code, where the rest is near 0 to `A`.
#[inline(always)]
fn wide_near_split(code: i128, value: i64, rest: i64) -> ShortParts
    requires whole { code ≡ pos 2305843009213693951 *ℤ value +ℤ rest }
    requires value_low { negsuc (2 ^ 62 + 2 ^ 61) ≤ℤ value }
    requires value_high { value ≤ℤ pos (2 ^ 62 + 2 ^ 61) }
    requires rest_low { negsuc 2305843009213693950 ≤ℤ rest }
    requires rest_high { rest <ℤ pos 4611686018427387902 }
    ensures value { result.value ≡ value_part Profile.Wide code }
    ensures residue { result.residue ≡ modulo Profile.Wide code }
    ensures below { result.residue < 2305843009213693951 }
{
    short_step_to(value, rest)
}

/// What `step_to` gives, on 64 bits.
#[inline(always)]
fn short_step_to(value: i64, rest: i64) -> ShortParts
    requires value_low { negsuc (2 ^ 62 + 2 ^ 61) ≤ℤ value }
    requires value_high { value ≤ℤ pos (2 ^ 62 + 2 ^ 61) }
    requires rest_low { negsuc 2305843009213693950 ≤ℤ rest }
    requires rest_high { rest <ℤ pos 4611686018427387902 }
    ensures whole { pos 2305843009213693951 *ℤ value +ℤ rest ≡ pos 2305843009213693951 *ℤ result.value +ℤ pos result.residue }
    ensures below { result.residue < 2305843009213693951 }
{
    if rest < 0 {
        ShortParts {
            value: value - 1,
            residue: (rest + SHORT_WIDE) as Residue,
        }
    } else if rest >= SHORT_WIDE {
        ShortParts {
            value: value + 1,
            residue: (rest - SHORT_WIDE) as Residue,
        }
    } else {
        ShortParts {
            value,
            residue: rest as Residue,
        }
    }
}

/// The residue in the wide code of an integer of not many more than 64 bits.
#[inline(always)]
pub(crate) fn wide_remainder(code: i128) -> Residue
    requires low { negsuc (2 ^ 75) ≤ℤ code }
    requires high { code ≤ℤ pos (2 ^ 75) }
    ensures value { result ≡ modulo Profile.Wide code }
    ensures below { result < 2305843009213693951 }
{
    let (high, low) = halves(code);
    near_remainder(code, high as i64, low as i64)
}

/// The residue of `2^61*high + low` in the wide code, where the high part is small.
#[inline(always)]
fn near_remainder(code: i128, high: i64, low: i64) -> Residue
    requires whole { code ≡ pos (2 ^ 61) *ℤ high +ℤ low }
    requires least { pos 0 ≤ℤ low }
    requires most { low ≤ℤ pos (2 ^ 61 - 1) }
    requires high_low { negsuc (2 ^ 15) ≤ℤ high }
    requires high_high { high ≤ℤ pos (2 ^ 15) }
    ensures value { result ≡ modulo Profile.Wide code }
    ensures below { result < 2305843009213693951 }
{
    let rest = middle_plus(high, low);
    wide_near_split(code, high, rest).residue
}
