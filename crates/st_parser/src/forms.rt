//! The forms of an expression that are open.

ghost use Rattle.std.specs.Prelude.{◌≡◌, ◌+◌, ◌≤◌, ◌∷◌, [], IfOk, OnOk, ◌↔◌, IsTrue};
ghost use Rattle.st_tree.specs.ExprViews.{expr_tree};
ghost use Rattle.st_tree.specs.Operators.{chain};
ghost use Rattle.st_parser.specs.ExprMachine as spec;
ghost use Rattle.st_parser.specs.FormViews as view;

use crate::refusals::discard;
use st_tree::{BinOp, Expr, Exprs, UnOp, level_of};
use std::alloc::Global;
use vcp_base::{Memory, Spot, Text, append};

/// A part of an expression that is open, and what it has so far.
#[derive(Drop)]
pub enum Form {
    /// An operator before its operand, and its spot.
    Sign(UnOp, Spot),
    /// An operator behind its left operand, and its spot.
    Left(BinOp, Expr, Spot),
    /// A bracket.
    Bracket,
    /// A call: the function's name, its spot, and the arguments that are whole.
    Arguments(Text, Spot, Exprs),
}

/// What was read last.
#[derive(Drop)]
pub enum Mode {
    /// An operand is wanted.
    Want,
    /// A name: a variable, or a function where a bracket follows.
    AfterName(Text, Spot),
    /// A whole operand.
    Have(Expr),
}

/// No form is open.
pub fn no_forms(alloc: Global) -> Vec<Form>
    ensures { view.forms result.items ≡ [] }
{
    Vec::new(alloc)
}

/// Takes the innermost form off.
pub fn take(forms: &mut Vec<Form>) -> Option<Form>
    ensures { view.Takes (view.forms forms.old.items) result (view.forms forms.new.items) }
{
    forms.pop()
}

// Opens a form again, round an operand that does not close it.
fn reopened(forms: &mut Vec<Form>, form: Form, have: Expr) -> Result<Expr, Memory>
    ensures { IfOk result (λ e. view.closed forms.new.items e
        ≡ record { forms = view.form form ∷ view.forms forms.old.items; expr = expr_tree have }) }
{
    match append(forms, form) {
        Ok(()) => Ok(have),
        Err(Memory) => {
            discard(have);
            Err(Memory)
        }
    }
}

/// Closes the signs, and the operators of the level and above, round an operand.
pub fn close(alloc: Global, forms: &mut Vec<Form>, level: u8, have: Expr) -> Result<Expr, Memory>
    ensures { IfOk result (λ e. spec.close level (view.forms forms.old.items) (expr_tree have)
        ≡ view.closed forms.new.items e) }
{
    let mut have = have;
    'closing: loop {
        match forms.pop() {
            Some(Form::Sign(op, spot)) => match Expr::unary(alloc, op, have, spot) {
                Ok(e) => have = e,
                Err(Memory) => return Err(Memory),
            },
            Some(Form::Left(op, left, spot)) => {
                if level_of(op) < level {
                    return reopened(forms, Form::Left(op, left, spot), have);
                }
                match Expr::binary(alloc, op, left, have, spot) {
                    Ok(e) => have = e,
                    Err(Memory) => return Err(Memory),
                }
            }
            Some(Form::Bracket) => return reopened(forms, Form::Bracket, have),
            Some(Form::Arguments(name, spot, args)) => {
                return reopened(forms, Form::Arguments(name, spot, args), have);
            }
            None => return Ok(have),
        }
    }
}

// The operators of the chain that ends in the expression, unless they are more than `most`.
fn chain_within(level: u8, e: &Expr, most: usize) -> Option<usize>
    ensures { view.AtMost (chain level (expr_tree e.now)) most result }
{
    match e {
        Expr::Binary { op, left, .. } => {
            if level_of(*op) != level {
                return Some(0);
            }
            if most == 0 {
                return None;
            }
            match chain_within(level, left, most - 1) {
                Some(n) => Some(n + 1),
                None => None,
            }
        }
        _ => Some(0),
    }
}

// What the form adds to the depth of a token inside it, unless it is more than `most`.
fn weight_within(form: &Form, most: usize) -> Option<usize>
    ensures { view.AtMost (view.weight form.now) most result }
{
    if most == 0 {
        return None;
    }
    match form {
        Form::Left(op, left, _) => match chain_within(level_of(*op), left, most - 1) {
            Some(n) => Some(n + 1),
            None => None,
        },
        _ => Some(1),
    }
}

/// Whether a token inside the forms of an expression at a depth is no deeper than `most`.
pub fn is_within(depth: usize, forms: &[Form], most: usize) -> bool
    ensures { IsTrue result ↔ (depth + spec.depth_in (view.forms forms.now) ≤ most) }
{
    if most < depth {
        return false;
    }
    let mut left = most - depth;
    for form in forms {
        match weight_within(form, left) {
            Some(n) => left -= n,
            None => return false,
        }
    }
    true
}
