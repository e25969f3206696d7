//! What a token does, by its place.

ghost use Rattle.std.specs.Prelude.{◌≡◌};
ghost use Rattle.st_parser.specs.Marks as spec;

use st_lexer::{Key, Sym, Tok, Token};
use st_tree::{BinOp, UnOp};
use vcp_base::Ty;

/// What a token begins where an operand is wanted.
#[derive(Clone, Copy, Drop)]
pub enum Begins {
    /// A literal.
    Literal { ty: Option<Ty>, value: i64 },
    /// A variable, or a function where a bracket follows.
    Named,
    /// An operator before its operand.
    Sign(UnOp),
    /// A bracket.
    Opens,
    /// No operand.
    Nothing,
}

/// What a token does behind an operand.
#[derive(Clone, Copy, Drop)]
pub enum Goes {
    /// It joins the operand to a next one.
    Joins(BinOp),
    /// It closes a bracket or the arguments of a call.
    Closes,
    /// It parts two arguments.
    Parts,
    /// It is no part of an expression.
    Ends,
}

/// What a token is outside expressions.
#[derive(Clone, Copy, Drop)]
pub enum Mark {
    Semi,
    Comma,
    Colon,
    Assign,
    DotDot,
    Name,
    Program,
    EndProgram,
    VarInput,
    VarOutput,
    Var,
    Constant,
    Retain,
    EndVar,
    Bool,
    Int,
    Dint,
    Lint,
    If,
    Then,
    Elsif,
    Else,
    EndIf,
    Case,
    Of,
    EndCase,
    For,
    To,
    By,
    Do,
    EndFor,
    /// Any other token.
    Other,
}

/// What a token begins where an operand is wanted.
pub fn begins_by(tok: Tok) -> Begins
    ensures { result ≡ spec.begins_by tok }
{
    match tok {
        Tok::Number { ty, value } => Begins::Literal { ty, value },
        Tok::Key(Key::True) => Begins::Literal {
            ty: Some(Ty::Bool),
            value: 1,
        },
        Tok::Key(Key::False) => Begins::Literal {
            ty: Some(Ty::Bool),
            value: 0,
        },
        Tok::Name => Begins::Named,
        Tok::Sym(Sym::Minus) => Begins::Sign(UnOp::Neg),
        Tok::Key(Key::Not) => Begins::Sign(UnOp::Not),
        Tok::Sym(Sym::LParen) => Begins::Opens,
        _ => Begins::Nothing,
    }
}

/// What a token does behind an operand.
pub fn goes_by(tok: Tok) -> Goes
    ensures { result ≡ spec.goes_by tok }
{
    match tok {
        Tok::Sym(Sym::Star) => Goes::Joins(BinOp::Mul),
        Tok::Sym(Sym::Slash) => Goes::Joins(BinOp::Div),
        Tok::Key(Key::Mod) => Goes::Joins(BinOp::Mod),
        Tok::Sym(Sym::Plus) => Goes::Joins(BinOp::Add),
        Tok::Sym(Sym::Minus) => Goes::Joins(BinOp::Sub),
        Tok::Sym(Sym::Lt) => Goes::Joins(BinOp::Lt),
        Tok::Sym(Sym::Gt) => Goes::Joins(BinOp::Gt),
        Tok::Sym(Sym::Le) => Goes::Joins(BinOp::Le),
        Tok::Sym(Sym::Ge) => Goes::Joins(BinOp::Ge),
        Tok::Sym(Sym::Eq) => Goes::Joins(BinOp::Eq),
        Tok::Sym(Sym::Ne) => Goes::Joins(BinOp::Ne),
        Tok::Key(Key::And) => Goes::Joins(BinOp::And),
        Tok::Key(Key::Xor) => Goes::Joins(BinOp::Xor),
        Tok::Key(Key::Or) => Goes::Joins(BinOp::Or),
        Tok::Sym(Sym::RParen) => Goes::Closes,
        Tok::Sym(Sym::Comma) => Goes::Parts,
        _ => Goes::Ends,
    }
}

/// What a token is outside expressions.
pub fn mark_of(tok: Tok) -> Mark
    ensures { result ≡ spec.mark_of tok }
{
    match tok {
        Tok::Sym(Sym::Semi) => Mark::Semi,
        Tok::Sym(Sym::Comma) => Mark::Comma,
        Tok::Sym(Sym::Colon) => Mark::Colon,
        Tok::Sym(Sym::Assign) => Mark::Assign,
        Tok::Sym(Sym::DotDot) => Mark::DotDot,
        Tok::Name => Mark::Name,
        Tok::Key(Key::Program) => Mark::Program,
        Tok::Key(Key::EndProgram) => Mark::EndProgram,
        Tok::Key(Key::VarInput) => Mark::VarInput,
        Tok::Key(Key::VarOutput) => Mark::VarOutput,
        Tok::Key(Key::Var) => Mark::Var,
        Tok::Key(Key::Constant) => Mark::Constant,
        Tok::Key(Key::Retain) => Mark::Retain,
        Tok::Key(Key::EndVar) => Mark::EndVar,
        Tok::Key(Key::Bool) => Mark::Bool,
        Tok::Key(Key::Int) => Mark::Int,
        Tok::Key(Key::Dint) => Mark::Dint,
        Tok::Key(Key::Lint) => Mark::Lint,
        Tok::Key(Key::If) => Mark::If,
        Tok::Key(Key::Then) => Mark::Then,
        Tok::Key(Key::Elsif) => Mark::Elsif,
        Tok::Key(Key::Else) => Mark::Else,
        Tok::Key(Key::EndIf) => Mark::EndIf,
        Tok::Key(Key::Case) => Mark::Case,
        Tok::Key(Key::Of) => Mark::Of,
        Tok::Key(Key::EndCase) => Mark::EndCase,
        Tok::Key(Key::For) => Mark::For,
        Tok::Key(Key::To) => Mark::To,
        Tok::Key(Key::By) => Mark::By,
        Tok::Key(Key::Do) => Mark::Do,
        Tok::Key(Key::EndFor) => Mark::EndFor,
        _ => Mark::Other,
    }
}

/// Whether two marks are one.
pub fn is(a: Mark, b: Mark) -> bool
    ensures { result ≡ spec.is a b }
{
    a as u8 == b as u8
}

/// Whether a token is this mark.
pub fn has(t: Token, mark: Mark) -> bool
    ensures { result ≡ spec.is (spec.mark_of t.tok) mark }
{
    is(mark_of(t.tok), mark)
}
