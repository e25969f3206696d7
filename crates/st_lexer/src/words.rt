//! Reserved words.

ghost use Rattle.std.specs.Prelude.{◌≡◌};
ghost use Rattle.st_lexer.specs.Words as spec;

use crate::slices::same_word;
use crate::token::{Key, Tok};

/// All reserved words.
const KEYS: [Key; 52] = [
    Key::Program,
    Key::EndProgram,
    Key::Var,
    Key::VarInput,
    Key::VarOutput,
    Key::Constant,
    Key::Retain,
    Key::EndVar,
    Key::Bool,
    Key::Int,
    Key::Dint,
    Key::Lint,
    Key::If,
    Key::Then,
    Key::Elsif,
    Key::Else,
    Key::EndIf,
    Key::Case,
    Key::Of,
    Key::EndCase,
    Key::For,
    Key::To,
    Key::By,
    Key::Do,
    Key::EndFor,
    Key::And,
    Key::Or,
    Key::Xor,
    Key::Not,
    Key::Mod,
    Key::True,
    Key::False,
    Key::Sint,
    Key::Usint,
    Key::Uint,
    Key::Udint,
    Key::Ulint,
    Key::Real,
    Key::Lreal,
    Key::String,
    Key::Time,
    Key::Array,
    Key::Struct,
    Key::While,
    Key::Repeat,
    Key::Until,
    Key::Exit,
    Key::Continue,
    Key::Return,
    Key::At,
    Key::Function,
    Key::FunctionBlock,
];

/// The spelling of a reserved word, in capitals.
pub(crate) fn spelling(key: Key) -> &'static [u8]
    ensures { result.now ≡ spec.spelling key }
{
    match key {
        Key::Program => b"PROGRAM",
        Key::EndProgram => b"END_PROGRAM",
        Key::Var => b"VAR",
        Key::VarInput => b"VAR_INPUT",
        Key::VarOutput => b"VAR_OUTPUT",
        Key::Constant => b"CONSTANT",
        Key::Retain => b"RETAIN",
        Key::EndVar => b"END_VAR",
        Key::Bool => b"BOOL",
        Key::Int => b"INT",
        Key::Dint => b"DINT",
        Key::Lint => b"LINT",
        Key::If => b"IF",
        Key::Then => b"THEN",
        Key::Elsif => b"ELSIF",
        Key::Else => b"ELSE",
        Key::EndIf => b"END_IF",
        Key::Case => b"CASE",
        Key::Of => b"OF",
        Key::EndCase => b"END_CASE",
        Key::For => b"FOR",
        Key::To => b"TO",
        Key::By => b"BY",
        Key::Do => b"DO",
        Key::EndFor => b"END_FOR",
        Key::And => b"AND",
        Key::Or => b"OR",
        Key::Xor => b"XOR",
        Key::Not => b"NOT",
        Key::Mod => b"MOD",
        Key::True => b"TRUE",
        Key::False => b"FALSE",
        Key::Sint => b"SINT",
        Key::Usint => b"USINT",
        Key::Uint => b"UINT",
        Key::Udint => b"UDINT",
        Key::Ulint => b"ULINT",
        Key::Real => b"REAL",
        Key::Lreal => b"LREAL",
        Key::String => b"STRING",
        Key::Time => b"TIME",
        Key::Array => b"ARRAY",
        Key::Struct => b"STRUCT",
        Key::While => b"WHILE",
        Key::Repeat => b"REPEAT",
        Key::Until => b"UNTIL",
        Key::Exit => b"EXIT",
        Key::Continue => b"CONTINUE",
        Key::Return => b"RETURN",
        Key::At => b"AT",
        Key::Function => b"FUNCTION",
        Key::FunctionBlock => b"FUNCTION_BLOCK",
    }
}

// The first of the keys whose spelling `word` is, without regard to case.
#[tactic(auto, using(crate::proofs::Tables::key_rules))]
fn key_among(keys: &[Key], word: &[u8]) -> Option<Key>
    ensures { result ≡ spec.key_among keys.now word.now }
{
    for key in keys {
        if same_word(word, spelling(*key)) {
            return Some(*key);
        }
    }
    None
}

/// The token of a word: a reserved word or a name.
pub fn word_token(word: &[u8]) -> Tok
    ensures { result ≡ spec.word word.now }
{
    match key_among(&KEYS, word) {
        Some(key) => Tok::Key(key),
        None => Tok::Name,
    }
}
