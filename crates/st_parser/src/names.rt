//! What the parser reads by, and the names of a text.

ghost use Rattle.std.specs.Prelude.{◌≡◌, IfOk};
ghost use Rattle.st_lexer.specs.Reading.{IsInside};
ghost use Rattle.st_tree.specs.Spelling.{bytes_in};

use st_lexer::Token;
use std::alloc::Global;
use vcp_base::{Memory, Text};

/// What the parser reads by.
#[derive(Clone, Copy)]
pub struct Source<'a> {
    /// Where the nodes of the tree are allocated.
    pub alloc: Global,
    /// The text that has the tokens.
    pub text: &'a [u8],
    /// The greatest depth of a token.
    pub most: usize,
}

/// The bytes of a token; `Memory` where there is no room for them.
pub fn name_of(alloc: Global, text: &[u8], t: Token) -> Result<Text, Memory>
    requires { IsInside text.now t }
    ensures { IfOk result (λ name. name ≡ bytes_in text.now t) }
{
    Text::copy_of(alloc, &text[t.from as usize..t.to as usize])
}
