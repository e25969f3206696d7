//! Symbols.

ghost use Rattle.std.specs.Prelude.{◌≡◌};
ghost use Rattle.st_lexer.specs.Symbols as spec;

use crate::token::Sym;

/// All symbols, a longer one before each that it begins with.
const SYMBOLS: [Sym; 17] = [
    Sym::Assign,
    Sym::Colon,
    Sym::Semi,
    Sym::Comma,
    Sym::LParen,
    Sym::RParen,
    Sym::DotDot,
    Sym::Plus,
    Sym::Minus,
    Sym::Star,
    Sym::Slash,
    Sym::Eq,
    Sym::Ne,
    Sym::Le,
    Sym::Ge,
    Sym::Lt,
    Sym::Gt,
];

/// The bytes of a symbol.
pub(crate) fn spelling(symbol: Sym) -> &'static [u8]
    ensures { result.now ≡ spec.spelling symbol }
{
    match symbol {
        Sym::Assign => b":=",
        Sym::Colon => b":",
        Sym::Semi => b";",
        Sym::Comma => b",",
        Sym::LParen => b"(",
        Sym::RParen => b")",
        Sym::DotDot => b"..",
        Sym::Plus => b"+",
        Sym::Minus => b"-",
        Sym::Star => b"*",
        Sym::Slash => b"/",
        Sym::Eq => b"=",
        Sym::Ne => b"<>",
        Sym::Le => b"<=",
        Sym::Ge => b">=",
        Sym::Lt => b"<",
        Sym::Gt => b">",
    }
}

// The first of the symbols with which the text begins.
#[tactic(auto, using(crate::proofs::Tables::symbol_rules))]
fn symbol_among(symbols: &[Sym], rest: &[u8]) -> Option<Sym>
    ensures { result ≡ spec.symbol_among symbols.now rest.now }
{
    for symbol in symbols {
        if rest.starts_with(spelling(*symbol)) {
            return Some(*symbol);
        }
    }
    None
}

/// The longest symbol with which the text begins.
pub fn symbol_of(rest: &[u8]) -> Option<Sym>
    ensures { result ≡ spec.symbol_among spec.all_symbols rest.now }
{
    symbol_among(&SYMBOLS, rest)
}
