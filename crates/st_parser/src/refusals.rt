//! What is given up where a token is refused, or where memory ends.
//!
//! Who refuses a token moves what is read so far into a function of this module: a value that is dropped
//! where it stands is taken apart there, in the proof of each function that holds it.

ghost use Rattle.std.specs.Prelude.{◌≡◌, Err};
ghost use Rattle.st_parser.specs.declared.fault.SyntaxFault.TheVariants.{Syntax};

use crate::expressions::Progress;
use crate::fault::SyntaxFault;
use crate::forms::Form;
use crate::state::{Body, LabelPhase, Phase, Place, Purpose, Selection};
use st_lexer::Token;
use st_tree::{Expr, Labels, Stmts};

/// An expression is given up.
pub fn discard(e: Expr) {
    drop(e);
}

/// What was read last is given up.
pub fn discard_phase(phase: Phase) {
    drop(phase);
}

/// What was read last of a label is given up.
pub fn discard_label(phase: LabelPhase) {
    drop(phase);
}

/// What an expression was read for is given up.
pub fn discard_purpose(purpose: Purpose) {
    drop(purpose);
}

/// The open forms of an expression are given up.
pub fn discard_forms(forms: Vec<Form>) {
    drop(forms);
}

/// A token that goes on with nothing that is read of the bodies.
pub fn refuse(t: Token) -> Result<Phase, SyntaxFault>
    ensures { result ≡ Err (Syntax t.spot) }
{
    Err(SyntaxFault::Syntax { spot: t.spot })
}

/// A token that does not end the body, which is given up.
pub fn refuse_end(body: Body, stmts: Stmts, t: Token) -> Result<Phase, SyntaxFault>
    ensures { result ≡ Err (Syntax t.spot) }
{
    drop(body);
    drop(stmts);
    refuse(t)
}

/// A CASE is given up.
pub fn give_up_case(
    selection: Selection,
    labels: Labels,
    fault: SyntaxFault,
) -> Result<Phase, SyntaxFault>
    ensures { result ≡ Err fault }
{
    drop(selection);
    drop(labels);
    Err(fault)
}

/// A token that goes on with no form of an expression.
pub fn refuse_form(taken: Option<Form>, e: Expr, t: Token) -> Result<Progress, SyntaxFault>
    ensures { result ≡ Err (Syntax t.spot) }
{
    drop(taken);
    drop(e);
    Err(SyntaxFault::Syntax { spot: t.spot })
}

/// A token that goes on with nothing that is read of a program.
pub fn refuse_program(t: Token) -> Result<Place, SyntaxFault>
    ensures { result ≡ Err (Syntax t.spot) }
{
    Err(SyntaxFault::Syntax { spot: t.spot })
}
