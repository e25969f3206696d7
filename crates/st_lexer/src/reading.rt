//! The reading of a text.

ghost use Rattle.std.specs.Prelude.{◌≡◌, ◌+◌, ◌≤◌, ◌<◌, ◌^◌, ◌++◌, ◌⊎◌, ℕ, List, length, take, IfOk, IfErr, OnOk, Some, None, true, false, All};
ghost use Rattle.vcp_base.specs.Limits.{most_source_bytes};
ghost use Rattle.st_lexer.specs.Reading as spec;
ghost use Rattle.st_lexer.specs.Spots.{spot_at};
ghost use Rattle.st_lexer.specs.Symbols.{all_symbols, begins, spelling, symbol_among};
ghost use Rattle.st_lexer.specs.TokenSpellings.{IsSpelling};
ghost use Rattle.st_lexer.specs.Words.{word, spelling as word_spelling};
ghost use Rattle.st_lexer.specs.declared.token.Key.{Key};
ghost use Rattle.st_lexer.specs.declared.token.Sym.{Sym};
ghost use Rattle.st_lexer.specs.declared.token.Tok.{Tok};
ghost use Rattle.st_lexer.specs.declared.token.Tok.TheVariants as tok;
ghost use Rattle.st_lexer.specs.declared.piece.Opening.{Opening};
ghost use Rattle.st_lexer.specs.declared.fault.Reason.{Reason};
ghost use Rattle.st_lexer.specs.declared.token.Token.{Token};

use crate::fault::{LexFault, fault_at};
use crate::piece::{Found, piece_at};
use crate::slices::front;
use crate::spot::spot_behind;
use crate::token::{Tok, Token};
use crate::tokens::Tokens;
use std::alloc::Global;
use vcp_base::{Memory, Spot};

// Appends the token of a piece; a gap has none.
fn add(
    tokens: &mut Tokens,
    tok: Option<Tok>,
    from: usize,
    len: usize,
    spot: Spot,
) -> Result<(), Memory>
    requires { from + len < 2 ^ 32 }
    ensures ok { OnOk result ((text : List ℕ) → spot ≡ spot_at text from
        → tokens.new.tokens ≡ tokens.old.tokens ++ spec.token_of text (record { from = from; to = from + len; is = tok }) tok) }
{
    match tok {
        Some(tok) => tokens.push(Token {
            tok,
            from: from as u32,
            to: (from + len) as u32,
            spot,
        }),
        None => Ok(()),
    }
}

/// The tokens of the one reading of a text, or the first place where it can't go on; or want of
/// memory.
///
/// The text has at most as many bytes as a source may have. Each byte is looked at a fixed number of times.
///
/// Where tokens are answered, they are those of a reading: pieces that adjoin and cover the text, each a gap
/// or, where no gap begins, the longest token at its place. A token's spot is that of its first byte, the
/// end's that of the byte after the last. Where a fault is answered, pieces cover the text up to that byte
/// and none is there, for that reason; the spot is its line and column.
pub fn lex(alloc: Global, text: &[u8]) -> Result<Tokens, LexFault>
    requires { length text.now ≤ most_source_bytes }
    ensures ok { IfOk result (λ t. spec.Reads text.now t.tokens) }
    ensures inside { IfOk result (λ t. All (spec.IsInside text.now) t.tokens) }
    ensures end { IfOk result (λ t. t.end ≡ spot_at text.now (length text.now)) }
    ensures err { IfErr result (spec.Faults text.now) }
{
    let mut tokens = Tokens::new(alloc);
    let mut spot = Spot { line: 1, col: 1 };
    let mut at: usize = 0;
    while at < text.len() {
        let (_, rest) = text.split_at(at);
        match piece_at(at, rest) {
            Found::Piece(tok, len) => {
                add(&mut tokens, tok, at, len, spot)?;
                spot = spot_behind(spot, front(rest, len));
                at += len;
            }
            Found::Refused(reason) => return Err(fault_at(reason, spot)),
        }
    }
    tokens.set_end(spot);
    Ok(tokens)
}

/// The laws of a reading. Every text has one, or a place at which no reading goes on, and not both;
/// the reading is one, with its gaps, and so are the place and its reason. At each place one thing
/// begins. Each token is inside the text, and only where no gap begins; its bytes are a spelling of
/// it, and no token has a longer spelling at its place. Of the symbols with which a text begins the longest is taken, and none only where it
/// begins with none. Each reserved word is found by its spelling.
///
/// So, but for want of memory, `lex` is exact.
pub fn one_reading()
    ensures total { (text : List ℕ) → ((a : List Token) × spec.Reads text a) ⊎ ((p : ℕ) × (r : Reason) × spec.LexAt text p r) }
    ensures pieces { (text : List ℕ) (ps qs : List spec.Piece) → spec.Cover text ps 0 (length text) → spec.Cover text qs 0 (length text) → ps ≡ qs }
    ensures tokens { (text : List ℕ) (a b : List Token) → spec.Reads text a → spec.Reads text b → a ≡ b }
    ensures inside { (text : List ℕ) (a : List Token) → spec.Reads text a → All (spec.IsInside text) a }
    ensures either { (text : List ℕ) (a : List Token) (p : ℕ) (r : Reason) → spec.Reads text a → spec.LexAt text p r → ⊥ }
    ensures place { (text : List ℕ) (p q : ℕ) (r s : Reason) → spec.LexAt text p r → spec.LexAt text q s → p ≡ q }
    ensures reason { (text : List ℕ) (p q : ℕ) (r s : Reason) → spec.LexAt text p r → spec.LexAt text q s → r ≡ s }
    ensures opens { (p : ℕ) (text : List ℕ) → (o : Opening) × spec.Begins p text o × ((q : Opening) → spec.Begins p text q → q ≡ o) }
    ensures gaps { (p : ℕ) (text : List ℕ) (n : ℕ) (t : Tok) → spec.StandsAt p text n (Some t) → spec.begins_gap p text ≡ false }
    ensures spelled { (p : ℕ) (text : List ℕ) (n : ℕ) (t : Tok) → 0 < length text → spec.StandsAt p text n (Some t) → IsSpelling t (take n text) }
    ensures longest { (p : ℕ) (text : List ℕ) (n m : ℕ) (t u : Tok) → spec.StandsAt p text n (Some t) → m ≤ length text → IsSpelling u (take m text) → m ≤ n }
    ensures begins { (text : List ℕ) (y : Sym) → symbol_among all_symbols text ≡ Some y → begins (spelling y) text ≡ true }
    ensures longest_symbol { (text : List ℕ) (y z : Sym) → symbol_among all_symbols text ≡ Some y → begins (spelling z) text ≡ true
        → length (spelling z) ≤ length (spelling y) }
    ensures symbols { (text : List ℕ) (z : Sym) → symbol_among all_symbols text ≡ None → begins (spelling z) text ≡ false }
    ensures words { (k : Key) → word (word_spelling k) ≡ tok.Key k }
{}
