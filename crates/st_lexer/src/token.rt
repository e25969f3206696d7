//! Tokens.

use vcp_base::{Spot, Ty};

/// A reserved word, those that no form of the language uses too.
#[derive(Clone, Copy)]
pub enum Key {
    Program,
    EndProgram,
    Var,
    VarInput,
    VarOutput,
    Constant,
    Retain,
    EndVar,
    Bool,
    Int,
    Dint,
    Lint,
    If,
    Then,
    Elsif,
    Else,
    EndIf,
    Case,
    Of,
    EndCase,
    For,
    To,
    By,
    Do,
    EndFor,
    And,
    Or,
    Xor,
    Not,
    Mod,
    True,
    False,
    Sint,
    Usint,
    Uint,
    Udint,
    Ulint,
    Real,
    Lreal,
    String,
    Time,
    Array,
    Struct,
    While,
    Repeat,
    Until,
    Exit,
    Continue,
    Return,
    At,
    Function,
    FunctionBlock,
}

/// A symbol.
#[derive(Clone, Copy)]
pub enum Sym {
    /// `:=`
    Assign,
    /// `:`
    Colon,
    /// `;`
    Semi,
    /// `,`
    Comma,
    /// `(`
    LParen,
    /// `)`
    RParen,
    /// `..`
    DotDot,
    /// `+`
    Plus,
    /// `-`
    Minus,
    /// `*`
    Star,
    /// `/`
    Slash,
    /// `=`
    Eq,
    /// `<>`
    Ne,
    /// `<=`
    Le,
    /// `>=`
    Ge,
    /// `<`
    Lt,
    /// `>`
    Gt,
}

/// What a token is.
#[derive(Clone, Copy)]
pub enum Tok {
    /// A name: its bytes are those of the token in the text.
    Name,
    /// A reserved word; `&` is AND.
    Key(Key),
    /// A literal with its value, and with its type where it is typed, as `INT#5`. Whether the value
    /// is one of the type is not asked here.
    Number { ty: Option<Ty>, value: i64 },
    Sym(Sym),
}

/// A token: its bytes are those of the text from `from` up to `to`, and `spot` is the place of the first.
#[derive(Clone, Copy)]
pub struct Token {
    pub tok: Tok,
    pub from: u32,
    pub to: u32,
    pub spot: Spot,
}
