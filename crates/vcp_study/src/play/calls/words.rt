//! The words of a single call as numbers, calls of a unit, and answers.

ghost use Rattle.std.specs.Prelude.{◌≡◌, IfSome, true};
ghost use Rattle.coded_unit.specs.Asked.{Asked};

use crate::play::texts::{count, integer, place_in, word};
use crate::play::told::Told;
use coded_unit::{Answer, Call, Word};
use fault_script::kind_named;
use memchr::memchr;
use vcp_base::{
    Kind, MOST_STAMP, Profile, StopKind, Ty, admits, kind_code, kind_of_code, modulus, stop_name,
};

/// The number of 32 bits that this is; else 0.
pub fn u32_of(number: i128) -> u32 {
    u32::try_from(number).unwrap_or(0)
}

/// The number of 64 bits that this is; else 0.
pub fn u64_of(number: i128) -> u64 {
    u64::try_from(number).unwrap_or(0)
}

/// The number of 64 bits with a sign that this is; else 0.
pub fn i64_of(number: i128) -> i64 {
    i64::try_from(number).unwrap_or(0)
}

/// The word that is this integer; else 0.
pub fn word_of(code: i128) -> Word {
    Word::new(code).unwrap_or(Word::ZERO)
}

/// The type of this code; LINT of another.
pub fn ty_of(code: i128) -> Ty {
    match code {
        0 => Ty::Bool,
        1 => Ty::Int,
        2 => Ty::Dint,
        _ => Ty::Lint,
    }
}

/// The kind of this code; INPUT of another.
pub fn kind_of(code: i128) -> Kind {
    kind_of_code(u8::try_from(code).unwrap_or(0)).unwrap_or(Kind::Input)
}

/// The code of the code of words, the type or the kind of this name, or else the integer that is written so; 0 of another text.
fn code_of(name: &[u8]) -> i128 {
    match place_in(b"INT wide DINT LINT", name) {
        0 | 1 => 1,
        2 => 2,
        3 => 3,
        _ => match kind_named(name) {
            Some(kind) => kind_code(kind) as i128,
            None => integer(name),
        },
    }
}

/// The number that is written so: as an integer, as the value and the residue of its word with `:` between them, as `@` and the number of an earlier
/// answer, or as a name.
fn number_of(word: &[u8], profile: Profile, answers: &[Word]) -> i128 {
    if let [b'@', earlier @ ..] = word {
        return match answers.get(count(earlier) as usize) {
            Some(word) => word.get(),
            None => 0,
        };
    }
    match memchr(b':', word) {
        Some(end) => (modulus(profile) as i128)
            .wrapping_mul(integer(word.get(..end).unwrap_or(b"")))
            .wrapping_add(integer(word.get(end.saturating_add(1)..).unwrap_or(b""))),
        None => code_of(word),
    }
}

/// The code of words of this code.
fn profile_of(code: i128) -> Profile {
    if code == 1 {
        Profile::Wide
    } else {
        Profile::Narrow
    }
}

/// The first words as numbers, with 0 for those that are lacking. The third says in which code the words behind it are.
pub fn numbers_in(words: &[u8], answers: &[Word]) -> [i128; 12] {
    let mut numbers = [0; 12];
    for i in 0..12 {
        numbers[i] = number_of(word(words, i), profile_of(numbers[2]), answers);
    }
    numbers
}

/// The call that these words say: its operation and cycle, its code, kind and types, the words of its operands, its number, its correction and its
/// stamp; None where no unit is asked it.
pub fn call_in(words: &[u8], answers: &[Word]) -> Option<Call>
    ensures { IfSome result (λ call. Asked call) }
{
    let n = numbers_in(words, answers);
    let call = Call {
        profile: profile_of(n[2]),
        op: u32_of(n[0]),
        cycle: u32_of(n[1]),
        kind: kind_of(n[3]),
        from: ty_of(n[4]),
        ty: ty_of(n[5]),
        a: word_of(n[6]),
        b: word_of(n[7]),
        c: word_of(n[8]),
        imm: i64_of(n[9]),
        corr: u64_of(n[10]),
        stamp: u32_of(n[11]),
    };
    if is_asked(&call) { Some(call) } else { None }
}

/// Whether a unit may be asked a call.
fn is_asked(call: &Call) -> bool
    ensures { result ≡ true → Asked call.now }
{
    admits(call.profile, call.from)
        && admits(call.profile, call.ty)
        && call.corr < modulus(call.profile)
        && call.stamp <= MOST_STAMP
}

/// Tells an answer: the integer of its word, or the name of its stop.
pub fn tell_answer(answer: &Answer, told: Told) -> Told {
    let kind = match answer {
        Answer::Word(word) => return told.number(word.get()),
        Answer::Range => StopKind::Range,
        Answer::DivZero => StopKind::DivZero,
        Answer::Operand => StopKind::Operand,
    };
    told.item(stop_name(kind))
}

/// Tells an answer, its word with its value and its residue.
pub fn tell_parts(profile: Profile, answer: &Answer, told: Told) -> Told {
    let told = tell_answer(answer, told);
    match answer {
        Answer::Word(word) => {
            let (value, residue) = word.split(profile);
            told.number(value).say(b":").number(residue as i128)
        }
        _ => told,
    }
}

/// The word of an answer; 0 where it has none.
pub fn word_in(answer: &Answer) -> Word {
    match answer {
        Answer::Word(word) => *word,
        _ => Word::ZERO,
    }
}
