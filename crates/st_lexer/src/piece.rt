//! What is at a place of a text.

ghost use Rattle.std.specs.Prelude.{◌≡◌, ◌∷◌, ◌+◌, ◌<◌, ◌≤◌, ℕ, length, take, IfSome, IfNone, Some, None};
ghost use Rattle.std.specs.List.{prefix_len};
ghost use Rattle.std.specs.Str.{str_eq_ignore_ascii_case};
ghost use Rattle.vcp_base.specs.Names.{is_letter_or_digit as is_word_byte};
ghost use Rattle.st_lexer.specs.Spots.{is_not_lf};
ghost use Rattle.st_lexer.specs.declared.piece.Opening.TheVariants.{Literal};
ghost use Rattle.st_lexer.specs.Pieces as pieces;
ghost use Rattle.st_lexer.specs.Reading as spec;

use crate::fault::Reason;
use crate::literal::literal_at;
use crate::slices::{behind, first, front, same_word};
use crate::symbols::{spelling, symbol_of};
use crate::token::{Key, Sym, Tok};
use crate::words::word_token;
use vcp_base::{Ty, is_letter, is_letter_or_digit};

/// What begins at a place.
#[derive(Clone, Copy)]
pub enum Opening {
    /// A space, tab, CR or LF.
    Blank,
    /// The bytes EF BB BF at the very front.
    OrderMark,
    /// A comment that `*` and this byte close.
    Comment(u8),
    /// A comment up to the end of its line.
    LineComment,
    Word,
    /// A literal, behind a type and `#` or without.
    Literal(Option<Ty>),
    /// `&`, which is the word AND.
    Ampersand,
    Symbol(Sym),
    Nothing,
}

/// What is at a place, or why nothing is.
#[derive(Clone, Copy)]
pub enum Found {
    /// A piece of so many bytes: a token, or a gap.
    Piece(Option<Tok>, usize),
    Refused(Reason),
}

// Whether the text begins with the word, without regard to case.
fn begins(rest: &[u8], word: &[u8]) -> bool
    ensures { result ≡ str_eq_ignore_ascii_case (take (length word.now) rest.now) word.now }
{
    same_word(front(rest, word.len()), word)
}

// The type of the typed literal that begins at the front.
#[tactic(auto, unfolding(crate::specs::Pieces::type_at))]
fn type_at(rest: &[u8]) -> Option<Ty>
    ensures { result ≡ pieces.type_at rest.now }
{
    if begins(rest, b"BOOL#") {
        Some(Ty::Bool)
    } else if begins(rest, b"INT#") {
        Some(Ty::Int)
    } else if begins(rest, b"DINT#") {
        Some(Ty::Dint)
    } else if begins(rest, b"LINT#") {
        Some(Ty::Lint)
    } else {
        None
    }
}

/// What begins at place `at` of a text; `rest` is the text from there on.
#[tactic(auto, unfolding(crate::specs::Pieces::opening))]
fn opening_at(at: usize, rest: &[u8]) -> Opening
    ensures { result ≡ pieces.opening at rest.now }
{
    let first = first(rest);
    if first == b' ' || first == b'\t' || first == b'\r' || first == b'\n' {
        Opening::Blank
    } else if rest.starts_with(&[0xef, 0xbb, 0xbf]) && at == 0 {
        Opening::OrderMark
    } else if rest.starts_with(b"(*") {
        Opening::Comment(b')')
    } else if rest.starts_with(b"/*") {
        Opening::Comment(b'/')
    } else if rest.starts_with(b"//") {
        Opening::LineComment
    } else if is_letter(first) {
        match type_at(rest) {
            Some(ty) => Opening::Literal(Some(ty)),
            None => Opening::Word,
        }
    } else if first.is_ascii_digit() {
        Opening::Literal(None)
    } else if first == b'&' {
        Opening::Ampersand
    } else {
        match symbol_of(rest) {
            Some(symbol) => Opening::Symbol(symbol),
            None => Opening::Nothing,
        }
    }
}

fn word_len(rest: &[u8]) -> usize
    ensures { result ≡ prefix_len is_word_byte rest.now }
{
    let mut n = 0;
    while n < rest.len() && is_letter_or_digit(rest[n]) {
        n += 1;
    }
    n
}

fn line_len(rest: &[u8]) -> usize
    ensures { result ≡ prefix_len is_not_lf rest.now }
{
    let mut n = 0;
    while n < rest.len() && rest[n] != b'\n' {
        n += 1;
    }
    n
}

// Where the comment at the front ends; `last` is the last byte of its closing mark.
fn comment_end(last: u8, rest: &[u8]) -> Option<usize>
    ensures found { IfSome result (spec.ClosesFirst last rest.now) }
    ensures none { IfNone result ((k : ℕ) → 2 ≤ k → spec.Closes last rest.now k → ⊥) }
{
    let mut k: usize = 2;
    while k < rest.len() && rest.len() - k > 1 {
        if rest[k] == b'*' && rest[k + 1] == last {
            return Some(k + 2);
        }
        k += 1;
    }
    None
}

fn literal_piece(ty: Option<Ty>, rest: &[u8]) -> Found
    ensures { pieces.Finds (Literal ty) rest.now result }
{
    // The type with its `#`.
    let skipped = match ty {
        None => 0,
        Some(Ty::Int) => 4,
        Some(Ty::Bool | Ty::Dint | Ty::Lint) => 5,
    };
    match literal_at(ty, behind(rest, skipped)) {
        Some(literal) => {
            let value = literal.value;
            Found::Piece(Some(Tok::Number { ty, value }), skipped + literal.len)
        }
        None => Found::Refused(Reason::Number),
    }
}

fn found_at(at: usize, rest: &[u8]) -> Found
    ensures { pieces.Finds (pieces.opening at rest.now) rest.now result }
{
    match opening_at(at, rest) {
        Opening::Blank => Found::Piece(None, 1),
        Opening::OrderMark => Found::Piece(None, 3),
        Opening::Comment(last) => match comment_end(last, rest) {
            Some(n) => Found::Piece(None, n),
            None => Found::Refused(Reason::Comment),
        },
        Opening::LineComment => Found::Piece(None, line_len(rest)),
        Opening::Word => {
            let n = word_len(rest);
            Found::Piece(Some(word_token(front(rest, n))), n)
        }
        Opening::Literal(ty) => literal_piece(ty, rest),
        Opening::Ampersand => Found::Piece(Some(Tok::Key(Key::And)), 1),
        Opening::Symbol(symbol) => Found::Piece(Some(Tok::Sym(symbol)), spelling(symbol).len()),
        Opening::Nothing => Found::Refused(Reason::Byte),
    }
}

/// What is at place `at` of a text; `rest` is the text from there on.
pub fn piece_at(at: usize, rest: &[u8]) -> Found
    requires { 0 < length rest.now }
    ensures finds { pieces.FindsAt at rest.now result }
    ensures within { pieces.IsWithin (length rest.now) result }
{
    found_at(at, rest)
}
