//! The head of a text.

ghost use Rattle.std.specs.Prelude.{◌≡◌, ◌≤◌, ◌^◌, ◌<◌, ◌+◌, [], ◌∷◌, ◌++◌, IfErr, IfOk, List, ℕ, None, All, OnOk, length, take, drop, codes, map};
ghost use Rattle.vcp_base.specs.Limits.{most_source_bytes};
ghost use Rattle.st_lexer.specs.Reading.{Reads, IsInside};
ghost use Rattle.st_lexer.specs.Spots.{spot_at};
ghost use Rattle.st_parser.specs.Answers.{Refuses as RefusesTokens};
ghost use Rattle.st_tree.specs.Declarable.{names_of};
ghost use Rattle.st_tree.specs.ProgramViews.{program_tree, block_tree, decl_tree, declared_tree};
ghost use Rattle.st_tree.specs.ProgramTree.{DeclaredTree};
ghost use Rattle.il_front.specs.Lines.{is_end_var as is_end_var_of, through_end_var, head_count as head_count_of, head_of, end_of as end_of_tokens};
ghost use Rattle.il_front.specs.Lines.{head_tokens as head_tokens_of, head_end as head_end_of, ended as ended_of};
ghost use Rattle.il_front.specs.Heads.{IsHeadOf, blocks_names, decls_names};
ghost use Rattle.il_front.specs.TypedForm.{is_reserved as is_reserved_of, first_reserved};
ghost use Rattle.il_front.specs.Answers.{most_il_bytes, IsHead, NotIl};

use crate::fault::IlFault;
use st_lexer::{Key, Tok, Token, Tokens, spot_behind};
use st_parser::{SyntaxFault, parse};
use st_tree::{Block, Decl, Declared, Program, spelled_names_are_declarable};
use st_types::typed;
use std::alloc::Global;
use vcp_base::{Memory, Spot, is_same_name};
use vcp_typed::Typed;

// ---- the tokens of the head

fn is_end_var(tok: Tok) -> bool
    ensures { result ≡ is_end_var_of tok }
{
    match tok {
        Tok::Key(Key::EndVar) => true,
        _ => false,
    }
}

// How many tokens there are through the last END_VAR, 0 where there is none.
fn end_var(tokens: &Tokens) -> usize
    ensures count { result ≡ through_end_var tokens.now.tokens }
    ensures within { result ≤ length tokens.now.tokens }
{
    let mut at = tokens.len();
    while at > 0 {
        if is_end_var(tokens.at(at - 1).tok) {
            return at;
        }
        at -= 1;
    }
    0
}

/// How many tokens the head has: through the last END_VAR, else two, else all.
pub fn head_count(tokens: &Tokens) -> usize
    ensures count { result ≡ head_count_of tokens.now.tokens }
    ensures within { result ≤ length tokens.now.tokens }
{
    let count = end_var(tokens);
    if count > 0 {
        return count;
    }
    if tokens.len() < 2 { tokens.len() } else { 2 }
}

/// The text with a space and END_PROGRAM behind it.
fn ended(alloc: Global, text: &[u8]) -> Result<Vec<u8>, Memory>
    ensures { IfOk result (λ t. t.items ≡ ended_of text.now) }
{
    let Ok(mut bytes) = text.to_vec(alloc) else {
        return Err(Memory);
    };
    match bytes.extend_from_slice(b" END_PROGRAM") {
        Ok(()) => Ok(bytes),
        Err(_) => Err(Memory),
    }
}

// Where the last of the first tokens ends, and 0 where there is none.
fn end_of(tokens: &Tokens, count: usize) -> usize
    requires { count ≤ length tokens.now.tokens }
    ensures is { result ≡ end_of_tokens (take count tokens.now.tokens) }
    ensures within { (text : List ℕ) → All (IsInside text) tokens.now.tokens → result ≤ length text }
{
    if count == 0 {
        return 0;
    }
    tokens.at(count - 1).to as usize
}

// The place of byte `n` of the text.
fn spot_of(text: &[u8], n: usize) -> Spot
    requires short { length text.now ≤ most_il_bytes }
    requires within { n ≤ length text.now }
    ensures is { result ≡ spot_at text.now n }
    ensures col { result.col ≤ 1 + length text.now }
{
    spot_behind(Spot { line: 1, col: 1 }, text.split_at(n).0)
}

// Appends the first tokens, and one more behind them.
fn push_all(words: &mut Tokens, tokens: &Tokens, count: usize, more: Token) -> Result<(), Memory>
    requires { count ≤ length tokens.now.tokens }
    ensures { OnOk result (words.new.tokens ≡ words.old.tokens ++ take count tokens.now.tokens ++ more ∷ []) }
{
    for i in 0..count {
        match words.push(tokens.at(i)) {
            Ok(()) => {}
            Err(Memory) => return Err(Memory),
        }
    }
    words.push(more)
}

// The head in Structured Text: its tokens, and END_PROGRAM a space behind them.
fn head_tokens(alloc: Global, text: &[u8], tokens: &Tokens) -> Result<Tokens, Memory>
    requires short { length text.now ≤ most_il_bytes }
    requires inside { All (IsInside text.now) tokens.now.tokens }
    ensures tokens { IfOk result (λ w. w.tokens ≡ head_tokens_of text.now tokens.now.tokens) }
    ensures end { IfOk result (λ w. w.end ≡ head_end_of text.now tokens.now.tokens) }
{
    let count = head_count(tokens);
    let spot = spot_of(text, end_of(tokens, count));
    let from = text.len() as u32 + 1;
    let added = Token {
        tok: Tok::Key(Key::EndProgram),
        from,
        to: from + 11,
        spot: Spot {
            line: spot.line,
            col: spot.col + 1,
        },
    };
    let mut words = Tokens::new(alloc);
    match push_all(&mut words, tokens, count, added) {
        Ok(()) => {
            words.set_end(Spot {
                line: spot.line,
                col: spot.col + 12,
            });
            Ok(words)
        }
        Err(Memory) => Err(Memory),
    }
}

// ---- reserved names

// Whether the name is that of an accumulator.
fn is_reserved(name: &[u8]) -> bool
    ensures { result ≡ is_reserved_of name.now }
{
    is_same_name(b"_acc_bool", name)
        || is_same_name(b"_acc_int", name)
        || is_same_name(b"_acc_dint", name)
        || is_same_name(b"_acc_lint", name)
}

// The first reserved name among these.
fn among_names(names: &[Declared]) -> Option<Spot>
    ensures { result ≡ first_reserved (map declared_tree names.now) }
{
    'each: for d in names {
        if is_reserved(d.name.bytes()) {
            return Some(d.spot);
        }
    }
    None
}

// The first reserved name of these declarations.
fn among_decls(decls: &[Decl]) -> Option<Spot>
    ensures { result ≡ first_reserved (decls_names (map decl_tree decls.now)) }
{
    'each: for d in decls {
        match among_names(&d.names.items) {
            Some(spot) => return Some(spot),
            None => {}
        }
    }
    None
}

// The first reserved name of these blocks.
fn among_blocks(blocks: &[Block]) -> Option<Spot>
    ensures { result ≡ first_reserved (blocks_names (map block_tree blocks.now)) }
{
    'each: for b in blocks {
        match among_decls(&b.decls.items) {
            Some(spot) => return Some(spot),
            None => {}
        }
    }
    None
}

// ---- the head

// The program that the head spells.
fn head_program(alloc: Global, text: &[u8], tokens: &Tokens) -> Result<Program, SyntaxFault>
    requires short { length text.now ≤ most_il_bytes }
    requires inside { All (IsInside text.now) tokens.now.tokens }
    ensures ok { IfOk result (λ p. IsHead text.now tokens.now.tokens (program_tree p)) }
    ensures err { IfErr result
        (RefusesTokens (ended_of text.now) (head_tokens_of text.now tokens.now.tokens) (head_end_of text.now tokens.now.tokens)) }
{
    match head_tokens(alloc, text, tokens) {
        Ok(words) => match ended(alloc, text) {
            Ok(bytes) => parse(alloc, &bytes, &words),
            Err(Memory) => Err(SyntaxFault::Memory),
        },
        Err(Memory) => Err(SyntaxFault::Memory),
    }
}

/// The typed program of the head, which has no reserved name; or why there is none.
pub fn head(alloc: Global, text: &[u8], tokens: &Tokens) -> Result<Typed, IlFault>
    requires short { length text.now ≤ most_il_bytes }
    requires reads { Reads text.now tokens.now.tokens }
    requires inside { All (IsInside text.now) tokens.now.tokens }
    ensures ok { IfOk result (IsHeadOf text.now tokens.now.tokens) }
    ensures err { IfErr result (NotIl text.now) }
{
    let program = match head_program(alloc, text, tokens) {
        Ok(program) => program,
        Err(fault) => return Err(IlFault::from(fault)),
    };
    spelled_names_are_declarable();
    match typed(alloc, &program) {
        Ok(head) => match among_blocks(&program.blocks.items) {
            Some(spot) => Err(IlFault::Reserved { spot }),
            None => Ok(head),
        },
        Err(fault) => Err(IlFault::from(fault)),
    }
}
