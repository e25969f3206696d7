//! Lists of tokens.

ghost use Rattle.std.specs.Prelude.{◌≡◌, ◌<◌, [], ◌∷◌, ◌++◌, Some, OnOk, OnErr, length, slice_get};

use crate::token::Token;
use std::alloc::Global;
use std::marker::Model;
use vcp_base::{Memory, Spot};

/// The tokens of a text in order, and the spot of the byte after the last one of the text.
#[derive(Drop)]
pub struct Tokens {
    list: Vec<Token>,
    after: Spot,
}

impl Model for Tokens {
    ghost use Rattle.st_lexer.specs.TokenList.{TokenList};

    ghost Value = { TokenList };

    ghost view = { λ t. record { tokens = t.list.items; end = t.after } };
}

impl Tokens {
    /// The tokens of the empty text: none, and it ends at 1:1.
    pub fn new(alloc: Global) -> Tokens
        ensures tokens { result.tokens ≡ [] }
        ensures end { result.end ≡ record { line = 1; col = 1 } }
    {
        Tokens {
            list: Vec::new(alloc),
            after: Spot { line: 1, col: 1 },
        }
    }

    /// Appends a token; the end's spot stays.
    pub fn push(&mut self, token: Token) -> Result<(), Memory>
        ensures ok { OnOk result (self.new.tokens ≡ self.old.tokens ++ token ∷ []) }
        ensures err { OnErr result (self.new.tokens ≡ self.old.tokens) }
        ensures end { self.new.end ≡ self.old.end }
    {
        self.list.push(token)?;
        Ok(())
    }

    /// Sets the spot of the byte after the last of the text.
    pub fn set_end(&mut self, end: Spot)
        ensures tokens { self.new.tokens ≡ self.old.tokens }
        ensures end { self.new.end ≡ end }
    {
        self.after = end;
    }

    pub fn len(&self) -> usize
        ensures { result ≡ length self.now.tokens }
    {
        self.list.len()
    }

    pub fn at(&self, i: usize) -> Token
        requires { i < length self.now.tokens }
        ensures { slice_get self.now.tokens i ≡ Some result }
    {
        self.list[i]
    }

    /// The spot of the byte after the last of the text.
    pub fn end(&self) -> Spot
        ensures { result ≡ self.now.end }
    {
        self.after
    }
}
