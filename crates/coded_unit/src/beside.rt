//! A second way to an answer's value: from the words of the operands, less their residues.
//!
//! A residue shows a changed operand, and none of the steps from an operand's word to the answer's value. So this value, times the constant of
//! the code, is found a second time, by other steps. The two are always the same, says the proof. Where a processor errs in one of the two ways,
//! they differ, and 1 is added to the answer's residue, so that the error is detected at the outputs as one of a residue is.

ghost use Rattle.std.specs.Prelude.{◌≡◌, false, Ok, pos, negsuc, cond, int_div, int_rem, int_lt, neg_ℤ, IfSome, ◌+ℤ◌, ◌-ℤ◌, ◌*ℤ◌, ◌≤ℤ◌, ◌<ℤ◌, ◌^◌};
ghost use Rattle.vcp_base.specs.Code.{modulus as modulus_of};
ghost use Rattle.vcp_base.specs.Kinds.{same, truth as truth_of, value as value_of, divides_by_zero, outcome};
ghost use Rattle.coded_unit.specs.Words.{modulo, value_part, coded};
ghost use Rattle.coded_unit.specs.Multiples.{multiple, IsMultiple, Wide};

use crate::call::Call;
use crate::word::{ShortParts, Word};
use vcp_base::{Kind, Profile, Residue, modulus};

/// An operand: its value, and that value times the constant of the code.
#[derive(Clone, Copy)]
pub(crate) struct Twofold {
    /// The value part of its word.
    pub value: i64,
    /// Its word less its residue.
    pub multiple: i128,
}

/// The operand with this word, which has these parts.
#[inline(always)]
pub(crate) fn found_twice(profile: Profile, word: Word, parts: ShortParts) -> Twofold
    requires value { parts.value ≡ value_part profile word }
    requires residue { parts.residue ≡ modulo profile word }
    ensures value { result.value ≡ value_part profile word }
    ensures multiple { IsMultiple profile result.multiple result.value }
{
    Twofold {
        value: parts.value,
        multiple: multiple_in(profile, word, parts),
    }
}

/// The value of a word times the constant.
#[inline(always)]
fn multiple_in(profile: Profile, word: Word, parts: ShortParts) -> i128
    requires value { parts.value ≡ value_part profile word }
    requires residue { parts.residue ≡ modulo profile word }
    ensures { IsMultiple profile result parts.value }
{
    less_residue(word, parts.residue)
}

/// A word less a residue.
#[inline(always)]
fn less_residue(word: Word, residue: Residue) -> i128
    ensures { result ≡ word -ℤ pos residue }
{
    word.get() - residue as i128
}

/// The word of the value that a kind gives, and of a residue: to it 1 is added where the value isn't the one that is found beside it.
#[inline(always)]
pub(crate) fn packed_twice(
    profile: Profile,
    call: &Call,
    value: i64,
    residue: Residue,
    first: Twofold,
    second: Twofold,
    third: Twofold,
) -> Word
    requires first { IsMultiple profile first.multiple first.value }
    requires second { IsMultiple profile second.multiple second.value }
    requires third { IsMultiple profile third.multiple third.value }
    requires value { outcome call.now.kind call.now.from call.now.ty call.now.imm first.value second.value third.value ≡ Ok value }
    ensures { result ≡ coded profile value residue }
{
    let beside = multiple_of_value(profile, call, first, second, third);
    let whole = own(profile, value as i128);
    Word::packed(profile, value as i128, residue).plus_nothing(apart(whole, beside))
}

/// 1 where two integers that should be one differ, else 0.
#[inline(always)]
fn apart(a: i128, b: i128) -> i128
    requires { a ≡ b }
    ensures { result ≡ pos 0 }
{
    if a != b { 1 } else { 0 }
}

/// The value of a kind times the constant, from that of the operands.
#[inline(always)]
pub(crate) fn multiple_of_value(
    profile: Profile,
    call: &Call,
    first: Twofold,
    second: Twofold,
    third: Twofold,
) -> i128
    requires first { IsMultiple profile first.multiple first.value }
    requires second { IsMultiple profile second.multiple second.value }
    requires third { IsMultiple profile third.multiple third.value }
    requires divisor { divides_by_zero call.now.kind second.value ≡ false }
    requires low { negsuc (2 ^ 63) ≤ℤ value_of call.now.kind call.now.imm first.value second.value third.value }
    requires high { value_of call.now.kind call.now.imm first.value second.value third.value ≤ℤ pos (2 ^ 63) }
    ensures { result ≡ multiple profile (value_of call.now.kind call.now.imm first.value second.value third.value) }
{
    match call.kind {
        Kind::Input | Kind::Const => own_number(profile, call),
        Kind::Load | Kind::Store | Kind::Out | Kind::Conv => first.multiple,
        Kind::Neg => negated(profile, first),
        Kind::Not => opposite(profile, first),
        Kind::Add => sum(profile, first, second),
        Kind::Sub => difference(profile, first, second),
        Kind::Mul => product(profile, first, second),
        Kind::Div => quotient(profile, first, second),
        Kind::Mod => rest(profile, first, second),
        Kind::Eq => truth(profile, are_equal(profile, first, second)),
        Kind::Lt => truth(profile, is_less(profile, first, second)),
        Kind::And => truth(
            profile,
            is_number(profile, first, 1) && is_number(profile, second, 1),
        ),
        Kind::Or => truth(
            profile,
            is_number(profile, first, 1) || is_number(profile, second, 1),
        ),
        Kind::Xor => truth(profile, !are_equal(profile, first, second)),
        Kind::Sel => chosen(profile, first, second, third),
    }
}

/// The number of an INPUT or a CONST times the constant. It stands apart, so that the number is read from the call once for each way,
/// and after its kind, so that it is read here.
#[inline(never)]
fn own_number(profile: Profile, call: &Call) -> i128
    ensures input { call.now.kind ≡ Kind.Input → IsMultiple profile result call.now.imm }
    ensures constant { call.now.kind ≡ Kind.Const → IsMultiple profile result call.now.imm }
{
    match call.kind {
        Kind::Input | Kind::Const => own(profile, call.imm as i128),
        _ => 0,
    }
}

/// The constant of a code.
#[inline(always)]
fn constant(profile: Profile) -> i128
    ensures { result ≡ pos (modulus_of profile) }
{
    modulus(profile) as i128
}

/// A number times the constant.
#[inline(always)]
fn own(profile: Profile, number: i128) -> i128
    requires low { negsuc (2 ^ 63) ≤ℤ number }
    requires high { number ≤ℤ pos (2 ^ 63) }
    ensures { IsMultiple profile result number }
{
    times(constant(profile), number)
}

/// 1 or 0 times the constant.
#[inline(always)]
fn truth(profile: Profile, holds: bool) -> i128
    ensures { result ≡ multiple profile (truth_of holds) }
{
    if holds {
        own(profile, 1)
    } else {
        own(profile, 0)
    }
}

/// The value with the other sign.
#[inline(always)]
fn negated(profile: Profile, first: Twofold) -> i128
    requires { IsMultiple profile first.multiple first.value }
    ensures { result ≡ multiple profile (neg_ℤ first.value) }
{
    minus(0, first.multiple)
}

/// 1 less the value.
#[inline(always)]
fn opposite(profile: Profile, first: Twofold) -> i128
    requires { IsMultiple profile first.multiple first.value }
    ensures { result ≡ multiple profile (pos 1 -ℤ first.value) }
{
    minus(own(profile, 1), first.multiple)
}

/// The sum.
#[inline(always)]
fn sum(profile: Profile, first: Twofold, second: Twofold) -> i128
    requires first { IsMultiple profile first.multiple first.value }
    requires second { IsMultiple profile second.multiple second.value }
    ensures { result ≡ multiple profile (first.value +ℤ second.value) }
{
    plus(first.multiple, second.multiple)
}

/// The difference.
#[inline(always)]
fn difference(profile: Profile, first: Twofold, second: Twofold) -> i128
    requires first { IsMultiple profile first.multiple first.value }
    requires second { IsMultiple profile second.multiple second.value }
    ensures { result ≡ multiple profile (first.value -ℤ second.value) }
{
    minus(first.multiple, second.multiple)
}

/// The product of two values. Of the second one its value is a factor, as in the other way: so how far this is from agreeing with its
/// multiple is added.
#[inline(always)]
fn product(profile: Profile, first: Twofold, second: Twofold) -> i128
    requires first { IsMultiple profile first.multiple first.value }
    requires second { IsMultiple profile second.multiple second.value }
    requires low { negsuc (2 ^ 63) ≤ℤ (first.value *ℤ second.value) }
    requires high { (first.value *ℤ second.value) ≤ℤ pos (2 ^ 63) }
    ensures { result ≡ multiple profile (first.value *ℤ second.value) }
{
    plus(
        multiplied(profile, first, second.value),
        disagreement(profile, second),
    )
}

/// The product of an operand and a number.
#[inline(always)]
fn multiplied(profile: Profile, first: Twofold, by: i64) -> i128
    requires first { IsMultiple profile first.multiple first.value }
    requires low { negsuc (2 ^ 63) ≤ℤ (first.value *ℤ by) }
    requires high { (first.value *ℤ by) ≤ℤ pos (2 ^ 63) }
    ensures { IsMultiple profile result (first.value *ℤ by) }
{
    times(first.multiple, by as i128)
}

/// By how much an operand's value, times the constant, differs from its multiple. It doesn't, says the proof; where the processor erred
/// in one of the two, it may.
#[inline(always)]
fn disagreement(profile: Profile, operand: Twofold) -> i128
    requires { IsMultiple profile operand.multiple operand.value }
    ensures { result ≡ pos 0 }
{
    minus(own(profile, operand.value as i128), operand.multiple)
}

/// The quotient of two values, cut towards zero.
#[inline(always)]
fn quotient(profile: Profile, first: Twofold, second: Twofold) -> i128
    requires first { IsMultiple profile first.multiple first.value }
    requires second { IsMultiple profile second.multiple second.value }
    requires divisor { same second.value (pos 0) ≡ false }
    requires low { negsuc (2 ^ 63) ≤ℤ int_div first.value second.value }
    requires high { int_div first.value second.value ≤ℤ pos (2 ^ 63) }
    ensures { result ≡ multiple profile (int_div first.value second.value) }
{
    own(profile, quotient_in(profile, first, second))
}

/// That quotient itself.
#[inline(always)]
fn quotient_in(profile: Profile, first: Twofold, second: Twofold) -> i128
    requires first { IsMultiple profile first.multiple first.value }
    requires second { IsMultiple profile second.multiple second.value }
    requires divisor { same second.value (pos 0) ≡ false }
    ensures { result ≡ int_div first.value second.value }
{
    divided(first.multiple, second.multiple)
}

/// The remainder of that division.
#[inline(always)]
fn rest(profile: Profile, first: Twofold, second: Twofold) -> i128
    requires first { IsMultiple profile first.multiple first.value }
    requires second { IsMultiple profile second.multiple second.value }
    requires divisor { same second.value (pos 0) ≡ false }
    ensures { result ≡ multiple profile (int_rem first.value second.value) }
{
    left_over(first.multiple, second.multiple)
}

/// Whether two values are equal.
#[inline(always)]
fn are_equal(profile: Profile, first: Twofold, second: Twofold) -> bool
    requires first { IsMultiple profile first.multiple first.value }
    requires second { IsMultiple profile second.multiple second.value }
    ensures { result ≡ same first.value second.value }
{
    is_same(first.multiple, second.multiple)
}

/// Whether the first value is less.
#[inline(always)]
fn is_less(profile: Profile, first: Twofold, second: Twofold) -> bool
    requires first { IsMultiple profile first.multiple first.value }
    requires second { IsMultiple profile second.multiple second.value }
    ensures { result ≡ int_lt first.value second.value }
{
    is_below(first.multiple, second.multiple)
}

/// Whether a value is a number, which is 0 or 1.
#[inline(always)]
fn is_number(profile: Profile, first: Twofold, number: i128) -> bool
    requires first { IsMultiple profile first.multiple first.value }
    requires low { negsuc (2 ^ 63) ≤ℤ number }
    requires high { number ≤ℤ pos (2 ^ 63) }
    ensures { result ≡ same first.value number }
{
    is_same(first.multiple, own(profile, number))
}

/// The second value where the first is 0, else the third.
#[inline(always)]
fn chosen(profile: Profile, first: Twofold, second: Twofold, third: Twofold) -> i128
    requires first { IsMultiple profile first.multiple first.value }
    requires second { IsMultiple profile second.multiple second.value }
    requires third { IsMultiple profile third.multiple third.value }
    ensures { result ≡ multiple profile (cond (same first.value (pos 0)) second.value third.value) }
{
    if is_number(profile, first, 0) {
        second.multiple
    } else {
        third.multiple
    }
}

/// A sum.
#[inline(always)]
fn plus(a: i128, b: i128) -> i128
    requires first { Wide a }
    requires second { Wide b }
    ensures { result ≡ a +ℤ b }
{
    a + b
}

/// A difference.
#[inline(always)]
fn minus(a: i128, b: i128) -> i128
    requires first { Wide a }
    requires second { Wide b }
    ensures { result ≡ a -ℤ b }
{
    a - b
}

/// A product.
#[inline(always)]
fn times(a: i128, b: i128) -> i128
    requires { Wide (a *ℤ b) }
    ensures { result ≡ a *ℤ b }
{
    a * b
}

/// A quotient, cut towards zero; on 64 bits where they are enough, which divide faster than 128.
#[inline(always)]
fn divided(a: i128, b: i128) -> i128
    requires dividend { Wide a }
    requires divisor { same b (pos 0) ≡ false }
    ensures { result ≡ int_div a b }
{
    match short_pair(a, b) {
        Some((a, b)) => short_divided(a, b),
        None => a / b,
    }
}

/// The remainder of that division.
#[inline(always)]
fn left_over(a: i128, b: i128) -> i128
    requires dividend { Wide a }
    requires divisor { same b (pos 0) ≡ false }
    ensures { result ≡ int_rem a b }
{
    match short_pair(a, b) {
        Some((a, b)) => short_left_over(a, b),
        None => a % b,
    }
}

/// Two integers, where both have 64 bits and the second is above 0, so that they may be divided there.
#[inline(always)]
fn short_pair(a: i128, b: i128) -> Option<(i64, i64)>
    ensures first { IfSome result (λ both. both.0 ≡ a) }
    ensures second { IfSome result (λ both. both.1 ≡ b) }
    ensures above { IfSome result (λ both. pos 0 <ℤ both.1) }
{
    let (Ok(a), Ok(b)) = (i64::try_from(a), i64::try_from(b)) else {
        return None;
    };
    if b > 0 { Some((a, b)) } else { None }
}

/// What `divided` gives, on 64 bits.
#[inline(always)]
fn short_divided(a: i64, b: i64) -> i128
    requires { pos 0 <ℤ b }
    ensures { result ≡ int_div a b }
{
    (a / b) as i128
}

/// What `left_over` gives, on 64 bits.
#[inline(always)]
fn short_left_over(a: i64, b: i64) -> i128
    requires { pos 0 <ℤ b }
    ensures { result ≡ int_rem a b }
{
    (a % b) as i128
}

/// Whether two integers are equal.
#[inline(always)]
fn is_same(a: i128, b: i128) -> bool
    ensures { result ≡ same a b }
{
    a == b
}

/// Whether the first integer is less.
#[inline(always)]
fn is_below(a: i128, b: i128) -> bool
    ensures { result ≡ int_lt a b }
{
    a < b
}
