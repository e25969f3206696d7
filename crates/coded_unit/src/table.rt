//! The right answer to a call.

ghost use Rattle.std.specs.Prelude.{◌≡◌, ◌<◌, ◌^◌, ℤ, pos, negsuc, ◌*ℤ◌, ◌+ℤ◌, ◌≤ℤ◌};
ghost use Rattle.vcp_base.specs.Code.{modulus as modulus_of};
ghost use Rattle.coded_unit.specs.Asked.{Asked};
ghost use Rattle.vcp_base.specs.Kinds.{outcome as outcome_of};
ghost use Rattle.coded_unit.specs.Words.{modulo, value_part, Short, Small};
ghost use Rattle.coded_unit.specs.Multiples.{IsMultiple};
ghost use Rattle.coded_unit.specs.Right.{residue as residue_of, stamp_share as stamp_share_of, answer_of, LeavesRoom, Right};
ghost use Rattle.coded_unit.specs.Step.{StepLaw};

use crate::beside::{Twofold, found_twice, packed_twice};
use crate::call::{Answer, Call};
use crate::word::{ShortParts, Word, narrow_remainder, wide_remainder};
use vcp_base::{Kind, Profile, Residue, StopKind, multiplier, outcome, short_outcome};

/// Names the narrow code to the compiler, which makes what is called with it once for each code: so it is a part of its
/// caller, where the call is at hand and its constant known.
struct InNarrow;

/// The same of the wide code.
struct InWide;

/// The right answer to a call.
///
/// `Operand` where an operand is outside its type, else `DivZero` where the divisor is 0, else
/// `Range` where the value is outside the call's type, else the word of the value. Its residue comes
/// from the operands' residues, the correction and the stamp alone, never from the value: what is
/// wrong with an operand's residue is carried on, times the operand's multiplier.
///
/// So operands with residues off by `d_j` give an answer off by the sum of `m_j*d_j`, and the same value or
/// stop. A word of it lies below 2^125 in size, whatever the operands. A call may be asked where its correction is below the `A` of its code, its stamp at most
/// 1,000,000,000, and its code has words of both its types.
#[inline(always)]
pub fn answer(call: &Call) -> Answer
    requires { Asked call.now }
    ensures right { result ≡ Right call.now }
    ensures step { StepLaw call.now result }
    ensures room { LeavesRoom result }
{
    right(call)
}

/// The right answer to a call whose correction is a residue of its code. It branches once on the code. It stands apart, so that what it
/// calls has one caller for each code, and is a part of it.
#[inline(never)]
fn right(call: &Call) -> Answer
    requires { call.now.corr < modulus_of call.now.profile }
    ensures { result ≡ Right call.now }
{
    match call.profile {
        Profile::Narrow => narrow_answer(call),
        Profile::Wide => wide_answer(call),
    }
}

/// The right answer to a call in the narrow code: in 64 bits where the operands' values are found there.
#[inline(always)]
fn narrow_answer(call: &Call) -> Answer
    requires code { call.now.profile ≡ Profile.Narrow }
    requires corr { call.now.corr < modulus_of Profile.Narrow }
    ensures { result ≡ Right call.now }
{
    let Some(first) = call.a.short_split(Profile::Narrow) else {
        return answer_of_copy(call);
    };
    let Some(second) = call.b.short_split(Profile::Narrow) else {
        return answer_of_copy(call);
    };
    let Some(third) = call.c.rare_short_split(Profile::Narrow) else {
        return answer_of_copy(call);
    };
    answer_from::<InNarrow>(Profile::Narrow, call, first, second, third)
}

/// The same for a call in the wide code.
#[inline(always)]
fn wide_answer(call: &Call) -> Answer
    requires code { call.now.profile ≡ Profile.Wide }
    requires corr { call.now.corr < modulus_of Profile.Wide }
    ensures { result ≡ Right call.now }
{
    let Some(first) = call.a.short_split(Profile::Wide) else {
        return answer_of_copy(call);
    };
    let Some(second) = call.b.short_split(Profile::Wide) else {
        return answer_of_copy(call);
    };
    let Some(third) = call.c.rare_short_split(Profile::Wide) else {
        return answer_of_copy(call);
    };
    answer_from::<InWide>(Profile::Wide, call, first, second, third)
}

/// The right answer, from the parts of the operands.
#[inline(always)]
fn answer_from<C>(
    profile: Profile,
    call: &Call,
    first: ShortParts,
    second: ShortParts,
    third: ShortParts,
) -> Answer
    requires code { profile ≡ call.now.profile }
    requires corr { call.now.corr < modulus_of profile }
    requires first_value { first.value ≡ value_part profile call.now.a }
    requires second_value { second.value ≡ value_part profile call.now.b }
    requires third_value { third.value ≡ value_part profile call.now.c }
    requires first_residue { first.residue ≡ modulo profile call.now.a }
    requires second_residue { second.residue ≡ modulo profile call.now.b }
    requires third_residue { third.residue ≡ modulo profile call.now.c }
    requires first_below { first.residue < modulus_of profile }
    requires second_below { second.residue < modulus_of profile }
    requires third_below { third.residue < modulus_of profile }
    ensures { result ≡ Right call.now }
{
    told::<C>(
        profile,
        call,
        first.residue,
        second.residue,
        third.residue,
        found_twice(profile, call.a, first),
        found_twice(profile, call.b, second),
        found_twice(profile, call.c, third),
    )
}

/// The answer that tells what the kind gives, from the operands and their residues. The answer's residue is made after its value, so that
/// where the processor takes another kind meanwhile, the residue isn't the right one's.
#[inline(always)]
fn told<C>(
    profile: Profile,
    call: &Call,
    r: Residue,
    s: Residue,
    t: Residue,
    first: Twofold,
    second: Twofold,
    third: Twofold,
) -> Answer
    requires r { r < modulus_of profile }
    requires s { s < modulus_of profile }
    requires t { t < modulus_of profile }
    requires corr { call.now.corr < modulus_of profile }
    requires first { IsMultiple profile first.multiple first.value }
    requires second { IsMultiple profile second.multiple second.value }
    requires third { IsMultiple profile third.multiple third.value }
    ensures { result ≡ answer_of profile (outcome_of call.now.kind call.now.from call.now.ty call.now.imm first.value second.value third.value)
        (residue_of profile call.now.kind r s t call.now.corr call.now.stamp) }
{
    match short_outcome(
        call.kind,
        call.from,
        call.ty,
        call.imm,
        first.value,
        second.value,
        third.value,
    ) {
        Ok(value) => {
            let carried = residue(profile, call.kind, r, s, t, call.corr, call.stamp);
            Answer::Word(packed_twice(profile, call, value, carried, first, second, third))
        }
        Err(StopKind::Range) => Answer::Range,
        Err(StopKind::DivZero) => Answer::DivZero,
        Err(StopKind::Operand) => Answer::Operand,
    }
}

/// The right answer for operands of any values, found from a copy of the call, so that where the answer is found in 64 bits the
/// call is never written to memory.
#[inline(always)]
fn answer_of_copy(call: &Call) -> Answer
    requires { call.now.corr < modulus_of call.now.profile }
    ensures { result ≡ Right call.now }
{
    let copy = *call;
    long_answer(&copy)
}

/// The right answer for operands of any values.
#[cold]
fn long_answer(call: &Call) -> Answer
    requires { call.now.corr < modulus_of call.now.profile }
    ensures { result ≡ Right call.now }
{
    let (a, r) = call.a.split(call.profile);
    let (b, s) = call.b.split(call.profile);
    let (c, t) = call.c.split(call.profile);
    match outcome(call.kind, call.from, call.ty, call.imm, a, b, c) {
        Ok(v) => Answer::Word(Word::packed(
            call.profile,
            v,
            residue(call.profile, call.kind, r, s, t, call.corr, call.stamp),
        )),
        Err(StopKind::Range) => Answer::Range,
        Err(StopKind::DivZero) => Answer::DivZero,
        Err(StopKind::Operand) => Answer::Operand,
    }
}

/// The residue of an answer, from those of the operands, the correction and the stamp. In the narrow
/// code it takes 64 bits, which multiply and divide faster than 128.
#[inline(always)]
fn residue(
    profile: Profile,
    kind: Kind,
    r: Residue,
    s: Residue,
    t: Residue,
    corr: Residue,
    stamp: u32,
) -> Residue
    requires r { r < modulus_of profile }
    requires s { s < modulus_of profile }
    requires t { t < modulus_of profile }
    requires corr { corr < modulus_of profile }
    ensures value { result ≡ residue_of profile kind r s t corr stamp }
    ensures below { result < modulus_of profile }
{
    match profile {
        Profile::Narrow => narrow_residue(kind, r as u32, s as u32, t as u32, corr as u32, stamp),
        Profile::Wide => wide_residue(kind, r, s, t, corr, stamp),
    }
}

/// The residue of an answer in the narrow code.
#[inline(always)]
fn narrow_residue(kind: Kind, r: u32, s: u32, t: u32, corr: u32, stamp: u32) -> Residue
    ensures value { result ≡ residue_of Profile.Narrow kind r s t corr stamp }
    ensures below { result < 2147483647 }
{
    let first = short_scaled(multiplier(kind, 0), r);
    let second = short_scaled(multiplier(kind, 1), s);
    let third = short_scaled(multiplier(kind, 2), t);
    let share = short_scaled(stamp_share(kind), stamp);
    narrow_remainder(short_total(first, second, third, corr, share))
}

/// A factor times a residue or a stamp of the narrow code.
#[inline(always)]
fn short_scaled(factor: i32, by: u32) -> i64
    requires low { negsuc 60 ≤ℤ factor }
    requires high { factor ≤ℤ pos 61 }
    ensures value { result ≡ factor *ℤ pos by }
    ensures small { Short result }
{
    factor as i64 * by as i64
}

/// A sum of four terms and a correction of the narrow code.
#[inline(always)]
fn short_total(first: i64, second: i64, third: i64, corr: u32, share: i64) -> i64
    requires first { Short first }
    requires second { Short second }
    requires third { Short third }
    requires share { Short share }
    ensures { result ≡ first +ℤ second +ℤ third +ℤ pos corr +ℤ share }
{
    first + second + third + corr as i64 + share
}

/// The residue of an answer in the wide code.
#[inline(always)]
fn wide_residue(
    kind: Kind,
    r: Residue,
    s: Residue,
    t: Residue,
    corr: Residue,
    stamp: u32,
) -> Residue
    ensures value { result ≡ residue_of Profile.Wide kind r s t corr stamp }
    ensures below { result < 2305843009213693951 }
{
    let first = scaled(multiplier(kind, 0), r);
    let second = scaled(multiplier(kind, 1), s);
    let third = scaled(multiplier(kind, 2), t);
    let share = scaled(stamp_share(kind), stamp as u64);
    wide_remainder(total(first, second, third, corr, share))
}

/// How often the stamp is added, so that it is in the answer's residue once.
#[inline(always)]
fn stamp_share(kind: Kind) -> i32
    ensures value { result ≡ stamp_share_of kind }
    ensures low { negsuc 60 ≤ℤ result }
    ensures high { result ≤ℤ pos 61 }
{
    1 - multiplier(kind, 0) - multiplier(kind, 1) - multiplier(kind, 2)
}

/// A factor times a residue or a stamp.
#[inline(always)]
fn scaled(factor: i32, by: u64) -> i128
    requires low { negsuc 60 ≤ℤ factor }
    requires high { factor ≤ℤ pos 61 }
    ensures value { result ≡ factor *ℤ pos by }
    ensures small { Small result }
{
    factor as i128 * by as i128
}

/// A sum of four terms and a correction.
#[inline(always)]
fn total(first: i128, second: i128, third: i128, corr: Residue, share: i128) -> i128
    requires first { Small first }
    requires second { Small second }
    requires third { Small third }
    requires share { Small share }
    ensures sum { result ≡ first +ℤ second +ℤ third +ℤ pos corr +ℤ share }
    ensures low { negsuc (2 ^ 75) ≤ℤ result }
    ensures high { result ≤ℤ pos (2 ^ 75) }
{
    first + second + third + corr as i128 + share
}
