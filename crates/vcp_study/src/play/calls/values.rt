//! Types, kinds, words and numbers.

use crate::play::calls::words::{i64_of, kind_of, tell_parts, ty_of, u32_of, u64_of, word_of};
use crate::play::sessions::came::Came;
use crate::play::texts::{behind, place_in, spelled};
use crate::play::told::Told;
use coded_unit::{Answer, Word};
use vcp_base::{
    Kind, Profile, StopKind, Ty, fits, greatest, kind_code, kind_name, kind_of_code, least,
    multiplier, number_in, numeral, operand_type, operands, stop_name, ty_code, ty_name,
    ty_of_code, within, without_first_blanks,
};

/// Calls on types and words that answer one number: whether a value is of a type, and the values of one are within another's; whether an integer is a
/// word; and a word that is shifted. Or a call of the next kind.
pub fn tell_value(came: &mut Came, name: &[u8], n: &[i128; 12], words: &[u8], told: Told) -> Told {
    let ty = ty_of(n[0]);
    let value = match place_in(b"fits within word shift", name) {
        0 => fits(ty, n[1]) as i128,
        1 => within(ty, ty_of(n[1])) as i128,
        2 => Word::new(n[0]).is_some() as i128,
        3 => word_of(n[0]).shift(i64_of(n[1])).get(),
        _ => return tell_table(came, name, n, words, told),
    };
    told.number(value)
}

/// Calls on the tables of types, kinds and stops; and the word of a value and a residue in the narrow code, with its parts. Or a call of the next kind.
fn tell_table(came: &mut Came, name: &[u8], n: &[i128; 12], words: &[u8], told: Told) -> Told {
    let kind = kind_of(n[0]);
    let ty = ty_of(n[0]);
    match place_in(b"type kind operand code stops packed", name) {
        0 => tell_type(ty, told),
        1 => tell_kind(kind, told),
        2 => told.item(ty_name(operand_type(kind, u32_of(n[1]), ty_of(n[2])))),
        3 => tell_code(n[0], told),
        4 => told
            .item(stop_name(StopKind::Range))
            .item(stop_name(StopKind::DivZero))
            .item(stop_name(StopKind::Operand)),
        5 => {
            let word = Word::packed(Profile::Narrow, i64_of(n[0]) as i128, u64_of(n[1]));
            tell_parts(Profile::Narrow, &Answer::Word(word), told)
        }
        _ => tell_text(came, name, ty, words, told),
    }
}

/// Tells the code, the name and the ends of a type.
fn tell_type(ty: Ty, told: Told) -> Told {
    told.number(ty_code(ty) as i128)
        .item(ty_name(ty))
        .number(least(ty) as i128)
        .number(greatest(ty) as i128)
}

/// Tells the code of a kind, the number of its operands and their multipliers.
fn tell_kind(kind: Kind, told: Told) -> Told {
    told.number(kind_code(kind) as i128)
        .number(operands(kind) as i128)
        .number(multiplier(kind, 0) as i128)
        .number(multiplier(kind, 1) as i128)
        .number(multiplier(kind, 2) as i128)
}

/// Tells the kind and the type of a code.
fn tell_code(code: i128, told: Told) -> Told {
    let code = u8::try_from(code).unwrap_or(255);
    let kind = match kind_of_code(code) {
        Some(kind) => kind_name(kind),
        None => b"none",
    };
    let ty = match ty_of_code(code) {
        Some(ty) => ty_name(ty),
        None => b"none",
    };
    told.item(kind).item(ty)
}

/// Calls on texts: the numeral and the number of a type that a text is, and a spelled text without its first blanks, between brackets.
fn tell_text(came: &mut Came, name: &[u8], ty: Ty, words: &[u8], told: Told) -> Told {
    match place_in(b"blanks numeral number", name) {
        0 => told
            .say(b"[")
            .say(without_first_blanks(&spelled(came.alloc, words)))
            .say(b"]"),
        1 => match numeral(words) {
            Some(number) => told.number(number as i128),
            None => told.say(b"none"),
        },
        2 => match number_in(ty, behind(words, 1)) {
            Some(number) => told.number(number as i128),
            None => told.say(b"none"),
        },
        _ => told.say(b"no call of this name"),
    }
}
