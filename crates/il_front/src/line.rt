//! Lines as they are written.

ghost use Rattle.std.specs.Prelude.{◌≡◌, ◌<◌, ◌≤◌, ◌-◌, ◌+◌, ◌∷◌, ℕ, true, List, IfSome, All, option_map, length, take, drop};
ghost use Rattle.st_lexer.specs.declared.token.Sym.TheVariants as sym_;
ghost use Rattle.st_lexer.specs.declared.token.Tok.TheVariants as tok_;
ghost use Rattle.st_lexer.specs.declared.token.Token.{Token as TokenOf};
ghost use Rattle.st_lexer.specs.Reading.{IsInside};
ghost use Rattle.st_tree.specs.Spelling.{bytes_in};
ghost use Rattle.il_front.specs.Lines.{is_end_program as is_end_program_of, lines_of};
ghost use Rattle.il_front.specs.Judging.{written_one as one_of, written_negative as negative_of};
ghost use Rattle.il_front.specs.Judging.{line_with, line_of as line_of_tokens, is_last_word as is_last_word_of};
ghost use Rattle.il_front.specs.Writings.{goes_on as goes_on_of, AreWords, AreInside, InsideWriting, written_in, line_in};

use crate::operator::{Operator, operator_of};
use st_lexer::{Key, Sym, Tok, Token, Tokens};
use vcp_base::{Spot, Ty};

/// The tokens of a line, of which no instruction has more than three.
#[derive(Clone, Copy)]
pub enum Words {
    One(Token),
    Two(Token, Token),
    Three(Token, Token, Token),
    /// There are more than three.
    More,
}

/// An operand as it is written.
#[derive(Clone, Copy)]
pub enum Writing {
    /// There is none.
    Nothing,
    /// A name, which is this token.
    Name(Token),
    /// A literal, with its type where it is typed.
    Number { ty: Option<Ty>, value: i64 },
    /// `-` and a literal without a type, which has this value.
    Negative { value: i64 },
}

/// A line that has the form of an instruction, with the spots of its operator and its operand.
#[derive(Clone, Copy)]
pub struct FormedLine {
    pub operator: Operator,
    pub operand: Writing,
    pub spot: Spot,
    pub at: Spot,
}

// ---- the tokens of a line

// Whether the token behind that at place `last` is in its line.
fn goes_on(tokens: &Tokens, last: usize, count: usize) -> bool
    requires count { count ≡ length tokens.now.tokens }
    requires within { last < count }
    ensures is { result ≡ goes_on_of (drop last tokens.now.tokens) }
    ensures within { result ≡ true → last + 1 < length tokens.now.tokens }
{
    if count - last < 2 {
        return false;
    }
    tokens.at(last).spot.line == tokens.at(last + 1).spot.line
}

/// Where the line ends that begins with the token at place `at`: the place behind its last token.
pub fn line_end(tokens: &Tokens, at: usize) -> usize
    requires { at < length tokens.now.tokens }
    ensures more { at < result }
    ensures within { result ≤ length tokens.now.tokens }
    ensures line { lines_of (drop at tokens.now.tokens) ≡ take (result - at) (drop at tokens.now.tokens) ∷ lines_of (drop result tokens.now.tokens) }
{
    let count = tokens.len();
    let mut last = at;
    'line: while goes_on(tokens, last, count) {
        last += 1;
    }
    last + 1
}

/// The tokens from place `at` up to place `to`.
pub fn line_words(tokens: &Tokens, at: usize, to: usize) -> Words
    requires some { at < to }
    requires within { to ≤ length tokens.now.tokens }
    ensures are { AreWords result (take (to - at) (drop at tokens.now.tokens)) }
    ensures inside { (text : List ℕ) → All (IsInside text) tokens.now.tokens → AreInside text result }
{
    let count = to - at;
    if count == 1 {
        return Words::One(tokens.at(at));
    }
    if count == 2 {
        return Words::Two(tokens.at(at), tokens.at(at + 1));
    }
    if count == 3 {
        return Words::Three(tokens.at(at), tokens.at(at + 1), tokens.at(at + 2));
    }
    Words::More
}

fn is_end_program(tok: Tok) -> bool
    ensures { result ≡ is_end_program_of tok }
{
    match tok {
        Tok::Key(Key::EndProgram) => true,
        _ => false,
    }
}

/// Whether the line is END_PROGRAM alone.
pub fn is_last_word(words: Words) -> bool
    ensures { (l : List TokenOf) → AreWords words l → result ≡ is_last_word_of l }
{
    match words {
        Words::One(t) => is_end_program(t.tok),
        Words::Two(_, _) => false,
        Words::Three(_, _, _) => false,
        Words::More => false,
    }
}

// ---- the form of a line

// An operand of one token.
fn written_one(t: Token) -> Option<Writing>
    ensures value { (text : List ℕ) → option_map (written_in text) result ≡ one_of (bytes_in text t) t.tok }
    ensures inside { (text : List ℕ) → IsInside text t → IfSome result (InsideWriting text) }
{
    match t.tok {
        Tok::Name => Some(Writing::Name(t)),
        Tok::Key(Key::True) => Some(Writing::Number {
            ty: Some(Ty::Bool),
            value: 1,
        }),
        Tok::Key(Key::False) => Some(Writing::Number {
            ty: Some(Ty::Bool),
            value: 0,
        }),
        Tok::Key(_) => None,
        Tok::Number { ty, value } => Some(Writing::Number { ty, value }),
        Tok::Sym(_) => None,
    }
}

// An operand of two tokens: `-` and a literal without a type.
fn written_two(m: Token, t: Token) -> Option<Writing>
    ensures value { (text : List ℕ) → option_map (written_in text) result ≡ negative_of m.tok t.tok }
    ensures inside { (text : List ℕ) → IfSome result (InsideWriting text) }
{
    match m.tok {
        Tok::Sym(Sym::Minus) => match t.tok {
            Tok::Number { ty: None, value } => Some(Writing::Negative { value }),
            _ => None,
        },
        _ => None,
    }
}

// A line of an operator and an operand at these spots, where both are there and go together.
fn formed(
    spot: Spot,
    at: Spot,
    operator: Option<Operator>,
    operand: Option<Writing>,
) -> Option<FormedLine>
    ensures line { (text : List ℕ) → option_map (line_in text) result ≡ line_with spot at operator (option_map (written_in text) operand) }
    ensures inside { (text : List ℕ) → IfSome operand (InsideWriting text) → IfSome result (λ l. InsideWriting text l.operand) }
{
    let Some(operator) = operator else {
        return None;
    };
    let Some(operand) = operand else {
        return None;
    };
    match (operator, operand) {
        // NOT has no operand, and every other operator has one.
        (Operator::Complement, Writing::Nothing) => {}
        (Operator::Complement, _) | (_, Writing::Nothing) => return None,
        (_, _) => {}
    }
    Some(FormedLine {
        operator,
        operand,
        spot,
        at,
    })
}

/// The line that these tokens of the text are; none where they have no form of an instruction.
pub fn line_of(text: &[u8], words: Words) -> Option<FormedLine>
    requires { AreInside text.now words }
    ensures line { (l : List TokenOf) → AreWords words l → option_map (line_in text.now) result ≡ line_of_tokens text.now l }
    ensures inside { IfSome result (λ l. InsideWriting text.now l.operand) }
{
    match words {
        Words::One(t) => formed(t.spot, t.spot, operator_of(text, t), Some(Writing::Nothing)),
        Words::Two(t, u) => formed(t.spot, u.spot, operator_of(text, t), written_one(u)),
        Words::Three(t, u, v) => formed(t.spot, u.spot, operator_of(text, t), written_two(u, v)),
        Words::More => None,
    }
}
