//! Expressions, read token by token.

ghost use Rattle.std.specs.Prelude.{◌≡◌, ◌∷◌, Ok};
ghost use Rattle.st_lexer.specs.Reading.{IsInside};
ghost use Rattle.st_tree.specs.ExprViews.{expr_tree};
ghost use Rattle.st_tree.specs.Spelling.{bytes_in};
ghost use Rattle.st_parser.specs.Marks.{begins_by as begins, goes_by as goes};
ghost use Rattle.st_parser.specs.ExprMachine as spec;
ghost use Rattle.st_parser.specs.FormViews as view;

use crate::fault::SyntaxFault;
use crate::forms::{Form, Mode, close, is_within, take};
use crate::marks::{Begins, Goes, begins_by, goes_by};
use crate::names::{Source, name_of};
use crate::refusals::refuse_form;
use st_lexer::Token;
use st_tree::{Expr, Exprs, level_of};
use std::alloc::Global;
use vcp_base::{Memory, append};

// The level of any expression.
const ANY_LEVEL: u8 = 1;

/// The outcome of reading one token.
#[derive(Drop)]
pub enum Progress {
    /// The token is part of the expression, which is not whole yet.
    On(Mode),
    /// The expression is whole, and the token is the one behind it.
    Ended(Expr),
}

/// Reads one token of an expression at a depth, or the token behind it.
///
/// `Syntax` where the tokens so far begin nothing that is wanted, `Depth` where the token begins an
/// operand deeper than the greatest depth; no more can then be read on.
pub fn read(
    source: Source,
    depth: usize,
    forms: &mut Vec<Form>,
    mode: Mode,
    t: Token,
) -> Result<Progress, SyntaxFault>
    requires inside { IsInside source.text.now t }
    ensures { view.Reads result forms.new.items
        (spec.ends_before (view.forms forms.old.items) (view.mode mode) t)
        (spec.step (record { bytes = bytes_in source.entry.text.now; most = source.entry.most })
        depth (view.forms forms.old.items) (view.mode mode) t) }
{
    match mode {
        Mode::Want => want(source, depth, forms, t),
        Mode::AfterName(name, spot) => match begins_by(t.tok) {
            Begins::Opens => {
                let args = Exprs::new(source.alloc);
                opens(forms, Form::Arguments(name, spot, args))
            }
            Begins::Literal { .. } | Begins::Named | Begins::Sign(_) | Begins::Nothing => {
                go_on(source.alloc, forms, Expr::name(name, spot), t)
            }
        },
        Mode::Have(e) => go_on(source.alloc, forms, e, t),
    }
}

// A form is opened, and an operand is wanted in it.
fn opens(forms: &mut Vec<Form>, form: Form) -> Result<Progress, SyntaxFault>
    ensures { view.GoesOn result forms.new.items
        (Ok (record { forms = view.form form ∷ view.forms forms.old.items; mode = spec.want })) }
{
    match append(forms, form) {
        Ok(()) => Ok(Progress::On(Mode::Want)),
        Err(Memory) => Err(SyntaxFault::Memory),
    }
}

// A token where an operand is wanted.
fn want(
    source: Source,
    depth: usize,
    forms: &mut Vec<Form>,
    t: Token,
) -> Result<Progress, SyntaxFault>
    requires inside { IsInside source.text.now t }
    ensures { view.GoesOn result forms.new.items
        (spec.step (record { bytes = bytes_in source.entry.text.now; most = source.entry.most })
        depth (view.forms forms.old.items) spec.want t) }
{
    let begins = begins_by(t.tok);
    if is_within(depth, forms, source.most) {
        return operand(source, forms, begins, t);
    }
    match begins {
        Begins::Nothing => Err(SyntaxFault::Syntax { spot: t.spot }),
        Begins::Literal { .. } | Begins::Named | Begins::Sign(_) | Begins::Opens => {
            Err(SyntaxFault::Depth { spot: t.spot })
        }
    }
}

// The first token of an operand, however deep.
fn operand(
    source: Source,
    forms: &mut Vec<Form>,
    begins: Begins,
    t: Token,
) -> Result<Progress, SyntaxFault>
    requires inside { IsInside source.text.now t }
    ensures { view.GoesOn result forms.new.items
        (spec.operand (record { bytes = bytes_in source.entry.text.now; most = source.entry.most })
        (view.forms forms.old.items) begins t) }
{
    match begins {
        Begins::Literal { ty, value } => {
            Ok(Progress::On(Mode::Have(Expr::literal(ty, value, t.spot))))
        }
        Begins::Named => match name_of(source.alloc, source.text, t) {
            Ok(name) => Ok(Progress::On(Mode::AfterName(name, t.spot))),
            Err(Memory) => Err(SyntaxFault::Memory),
        },
        Begins::Sign(op) => opens(forms, Form::Sign(op, t.spot)),
        Begins::Opens => opens(forms, Form::Bracket),
        Begins::Nothing => Err(SyntaxFault::Syntax { spot: t.spot }),
    }
}

// A token behind a whole operand.
fn go_on(
    alloc: Global,
    forms: &mut Vec<Form>,
    have: Expr,
    t: Token,
) -> Result<Progress, SyntaxFault>
    ensures { view.Reads result forms.new.items
        (spec.whole_before (goes t.tok) (view.forms forms.old.items) (expr_tree have))
        (spec.go_on (goes t.tok) (view.forms forms.old.items) (expr_tree have) t) }
{
    let goes = goes_by(t.tok);
    let level = match goes {
        Goes::Joins(op) => level_of(op),
        Goes::Closes | Goes::Parts | Goes::Ends => ANY_LEVEL,
    };
    let whole = match close(alloc, forms, level, have) {
        Ok(e) => e,
        Err(Memory) => return Err(SyntaxFault::Memory),
    };
    match goes {
        Goes::Joins(op) => opens(forms, Form::Left(op, whole, t.spot)),
        Goes::Closes => close_at(forms, whole, t),
        Goes::Parts => part_at(forms, whole, t),
        Goes::Ends => end_at(forms, whole, t),
    }
}

// A closing bracket behind an expression that is whole inside the forms.
fn close_at(forms: &mut Vec<Form>, e: Expr, t: Token) -> Result<Progress, SyntaxFault>
    ensures { view.GoesOn result forms.new.items
        (spec.close_at (view.forms forms.old.items) (expr_tree e) t) }
{
    let taken = take(forms);
    match taken {
        Some(Form::Bracket) => Ok(Progress::On(Mode::Have(e))),
        Some(Form::Arguments(name, spot, mut args)) => match args.push(e) {
            Ok(()) => Ok(Progress::On(Mode::Have(Expr::call(name, args, spot)))),
            Err(Memory) => Err(SyntaxFault::Memory),
        },
        Some(Form::Sign(_, _)) | Some(Form::Left(_, _, _)) | None => { refuse_form(taken, e, t) }
    }
}

// A comma behind an expression that is whole inside the forms.
fn part_at(forms: &mut Vec<Form>, e: Expr, t: Token) -> Result<Progress, SyntaxFault>
    ensures { view.GoesOn result forms.new.items
        (spec.part_at (view.forms forms.old.items) (expr_tree e) t) }
{
    let taken = take(forms);
    match taken {
        Some(Form::Arguments(name, spot, mut args)) => match args.push(e) {
            Ok(()) => opens(forms, Form::Arguments(name, spot, args)),
            Err(Memory) => Err(SyntaxFault::Memory),
        },
        Some(Form::Bracket) | Some(Form::Sign(_, _)) | Some(Form::Left(_, _, _)) | None => {
            refuse_form(taken, e, t)
        }
    }
}

// A token that is no part of an expression, behind one that is whole inside the forms.
fn end_at(forms: &mut Vec<Form>, e: Expr, t: Token) -> Result<Progress, SyntaxFault>
    ensures { view.Ends result forms.new.items
        (spec.alone (view.forms forms.old.items) (expr_tree e)) t }
{
    match take(forms) {
        None => Ok(Progress::Ended(e)),
        Some(form) => refuse_form(Some(form), e, t),
    }
}
