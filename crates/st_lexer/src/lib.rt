//! The lexer: the one reading of a source text as tokens, or the first place where it can't go on.
#![tactic(auto)]

mod fault;
mod literal;
mod piece;
mod reading;
mod slices;
mod spot;
mod symbols;
mod token;
mod tokens;
mod words;

pub use fault::LexFault;
pub use reading::{lex, one_reading};
pub use spot::spot_behind;
pub use token::{Key, Sym, Tok, Token};
pub use tokens::Tokens;
