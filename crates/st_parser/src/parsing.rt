//! The parser.

ghost use Rattle.std.specs.Prelude.{◌≡◌, All, IfOk, IfErr};
ghost use Rattle.vcp_base.specs.Limits.{most_depth};
ghost use Rattle.st_lexer.specs.Reading.{IsInside};
ghost use Rattle.st_tree.specs.ProgramTree.{ProgramTree};
ghost use Rattle.st_tree.specs.ProgramViews.{program_tree};
ghost use Rattle.st_tree.specs.Spelling.{bytes_in, Spells, SpellsWithin};
ghost use Rattle.st_parser.specs.Answers.{NoneTooDeep, Refuses, IsAnswered};
ghost use Rattle.st_parser.specs.StateViews.{Gives};
ghost use Rattle.st_parser.specs.ProgramViews as view;
ghost use Rattle.st_parser.specs.ProgramMachine as machine;

use crate::declarations::program_step;
use crate::fault::SyntaxFault;
use crate::levels::leave;
use crate::names::Source;
use crate::state::{Parsed, Phase, Place};
use st_lexer::Tokens;
use st_tree::{Program, Stmts, spelling_begins};
use std::alloc::Global;
use std::mem;
use vcp_base::{MOST_DEPTH, Spot};

// What is whole where the tokens end.
fn finish(alloc: Global, end: Spot, parsed: Parsed, place: Place) -> Result<Program, SyntaxFault>
    ensures { Gives program_tree result (machine.finish end (view.program parsed place)) }
{
    let mut parsed = parsed;
    match place {
        Place::InBody => match parsed.bodies.phase {
            Phase::Finished => match leave(&mut parsed.bodies.outer) {
                None => {
                    let body = mem::replace(&mut parsed.bodies.stmts, Stmts::new(alloc));
                    Ok(parsed.program(body))
                }
                Some(level) => {
                    drop(level);
                    Err(SyntaxFault::Syntax { spot: end })
                }
            },
            _ => Err(SyntaxFault::Syntax { spot: end }),
        },
        _ => Err(SyntaxFault::Syntax { spot: end }),
    }
}

/// The program that the tokens of a text spell, none deeper than `most`, as the machine reads it.
fn read_program(
    alloc: Global,
    text: &[u8],
    tokens: &Tokens,
    most: usize,
) -> Result<Program, SyntaxFault>
    requires inside { All (IsInside text.now) tokens.now.tokens }
    ensures { Gives program_tree result
        (machine.read_program (record { bytes = bytes_in text.now; most = most }) tokens.now.end tokens.now.tokens) }
{
    let source = Source { alloc, text, most };
    let mut parsed = Parsed::new(alloc);
    let mut place = Place::AtProgram;
    for i in 0..tokens.len() {
        match program_step(source, &mut parsed, place, tokens.at(i)) {
            Ok(next) => place = next,
            Err(fault) => return Err(fault),
        }
    }
    finish(alloc, tokens.end(), parsed, place)
}

/// The one program that the tokens of a text spell, no token deeper than 64; or the place of the
/// fault, or want of memory.
///
/// Each token is inside the text, as those of its reading are. Each is looked at once, and what is open round it is
/// at most 64 deep, so that time is linear in the tokens; nothing is kept on the machine's stack.
///
/// The program that is answered is the only one that the tokens spell, however deep. Its names are the bytes
/// of their tokens, and each node has its spot. A program that they spell with no token deeper than 64 is
/// answered, or `Memory`. `Syntax` comes only at the first token that no program can have there, behind those
/// before it, or at the end, where the program is incomplete; no token before it is too deep. `Depth` comes
/// only at the first token that is too deep.
pub fn parse(alloc: Global, text: &[u8], tokens: &Tokens) -> Result<Program, SyntaxFault>
    requires inside { All (IsInside text.now) tokens.now.tokens }

    // What is answered is spelled so, no token deeper than the limit, and is the only program that the
    // tokens spell, however deep; and no token is too deep, whatever program the tokens through it begin.
    ensures spelled { IfOk result (λ p. SpellsWithin most_depth (program_tree p) text.now tokens.now.tokens) }
    ensures one { (p : ProgramTree) → Spells p text.now tokens.now.tokens → IfOk result (λ q. program_tree q ≡ p) }
    ensures shallow { IfOk result (λ p. NoneTooDeep tokens.now.tokens) }

    // What is spelled so is answered; and so is what is spelled, where no token is too deep.
    ensures only { (p : ProgramTree) → SpellsWithin most_depth p text.now tokens.now.tokens → IsAnswered result p }
    ensures all { (p : ProgramTree) → Spells p text.now tokens.now.tokens → NoneTooDeep tokens.now.tokens → IsAnswered result p }

    // A fault of syntax is at the first token through which nothing begins, or at the end, and no token
    // before it is too deep; a fault of depth is at the first token that is too deep.
    ensures err { IfErr result (Refuses text.now tokens.now.tokens tokens.now.end) }
{
    spelling_begins();
    read_program(alloc, text, tokens, MOST_DEPTH as usize)
}
