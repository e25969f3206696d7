//! Labels of the branches of a CASE.

ghost use Rattle.std.specs.Prelude.{◌≡◌, ◌∷◌, [], ◌++◌, List, Option, Result, None, Some, suc, cond};
ghost use Rattle.st_lexer.specs.Reading.{IsInside};
ghost use Rattle.st_tree.specs.ExprTree.{ExprTree};
ghost use Rattle.st_tree.specs.StmtTree.{StmtTrees};
ghost use Rattle.st_tree.specs.ExprViews.{expr_tree, expr_tree_or_none};
ghost use Rattle.st_tree.specs.StmtViews.{label_tree, label_trees, stmt_trees};
ghost use Rattle.st_tree.specs.Spelling.{bytes_in};
ghost use Rattle.st_parser.specs.declared.fault.SyntaxFault.{SyntaxFault as FaultOf};
ghost use Rattle.st_parser.specs.Marks.{begins_by as begins, mark_of as mark, is as is_mark};
ghost use Rattle.st_parser.specs.ExprMachine.{no_deeper};
ghost use Rattle.st_parser.specs.StateViews as view;
ghost use Rattle.st_parser.specs.StmtMachine as machine;

use crate::fault::SyntaxFault;
use crate::levels::{depth_of_labels, opened};
use crate::marks::{Begins, Mark, begins_by, has, is, mark_of};
use crate::names::{Source, name_of};
use crate::refusals::give_up_case;
use crate::state::{Bodies, Body, Constant, LabelPhase, Phase, Selection};
use st_lexer::{Tok, Token};
use st_tree::{Expr, Label, Labels, UnOp};
use std::alloc::Global;
use vcp_base::{Memory, Spot};

// The first token of a constant at a depth.
fn constant_at(source: Source, depth: usize, t: Token) -> Result<Constant, SyntaxFault>
    requires inside { IsInside source.text.now t }
    ensures { (first : Option ExprTree) → view.Gives (view.constant first) result
        (no_deeper source.entry.most depth t
        (machine.const_at (record { bytes = bytes_in source.entry.text.now; most = source.entry.most }) (view.read first) (view.negated first)
        (begins t.tok) t)) }
{
    let begins = begins_by(t.tok);
    if depth > source.most {
        return match begins {
            Begins::Literal { .. } | Begins::Named | Begins::Sign(UnOp::Neg) => {
                Err(SyntaxFault::Depth { spot: t.spot })
            }
            Begins::Sign(UnOp::Not) | Begins::Opens | Begins::Nothing => {
                Err(SyntaxFault::Syntax { spot: t.spot })
            }
        };
    }
    match begins {
        Begins::Literal { ty, value } => Ok(Constant::Read {
            value: Expr::literal(ty, value, t.spot),
        }),
        Begins::Named => match name_of(source.alloc, source.text, t) {
            Ok(name) => Ok(Constant::Read {
                value: Expr::name(name, t.spot),
            }),
            Err(Memory) => Err(SyntaxFault::Memory),
        },
        Begins::Sign(UnOp::Neg) => Ok(Constant::Negated { sign: t.spot }),
        Begins::Sign(UnOp::Not) | Begins::Opens | Begins::Nothing => {
            Err(SyntaxFault::Syntax { spot: t.spot })
        }
    }
}

// The number behind the sign of a constant at a depth; it is one deeper than the sign.
fn number_at(source: Source, depth: usize, sign: Spot, t: Token) -> Result<Constant, SyntaxFault>
    ensures { (first : Option ExprTree) → view.Gives (view.constant first) result
        (no_deeper source.entry.most (suc depth) t (machine.number_at (view.read first) sign t.tok t)) }
{
    match t.tok {
        Tok::Number { ty, value } => {
            if depth >= source.most {
                return Err(SyntaxFault::Depth { spot: t.spot });
            }
            let number = Expr::literal(ty, value, t.spot);
            match Expr::unary(source.alloc, UnOp::Neg, number, sign) {
                Ok(value) => Ok(Constant::Read { value }),
                Err(Memory) => Err(SyntaxFault::Memory),
            }
        }
        Tok::Name | Tok::Key(_) | Tok::Sym(_) => Err(SyntaxFault::Syntax { spot: t.spot }),
    }
}

// A CASE whose label has come so far, or the fault of its token.
fn with_constant(
    selection: Selection,
    labels: Labels,
    first: Option<Expr>,
    constant: Result<Constant, SyntaxFault>,
) -> Result<Phase, SyntaxFault>
    ensures { (outer : List machine.Level) → (ss : StmtTrees) → (r : Result machine.LabelPhase FaultOf) →
        view.Gives (view.constant (expr_tree_or_none first)) constant r → view.Gives (view.within outer ss) result
        (machine.with_phase outer ss (view.selection selection) (label_trees labels.items.items) r) }
{
    match constant {
        Ok(constant) => Ok(Phase::Labelling {
            selection,
            labels,
            phase: LabelPhase { first, constant },
        }),
        Err(fault) => give_up_case(selection, labels, fault),
    }
}

// The token behind the first constant of a label.
fn first_ends(
    alloc: Global,
    bodies: &mut Bodies,
    selection: Selection,
    labels: Labels,
    first: Expr,
    t: Token,
) -> Result<Phase, SyntaxFault>
    ensures { view.Gives (view.state bodies.new) result
        (cond (is_mark (mark t.tok) Mark.DotDot)
        (machine.to (view.levels bodies.old.outer.items) (stmt_trees bodies.old.stmts.items.items)
        (machine.labelling (view.selection selection) (label_trees labels.items.items) (machine.last_wanted (expr_tree first))))
        (machine.label_ends (view.levels bodies.old.outer.items) (stmt_trees bodies.old.stmts.items.items) (view.selection selection)
        (label_trees labels.items.items ++ record { first = expr_tree first; last = None } ∷ []) (mark t.tok) t)) }
{
    if has(t, Mark::DotDot) {
        return Ok(Phase::Labelling {
            selection,
            labels,
            phase: LabelPhase {
                first: Some(first),
                constant: Constant::Wanted,
            },
        });
    }
    let label = Label { first, last: None };
    label_ends(alloc, bodies, selection, labels, label, t)
}

// The token behind a whole label.
fn label_ends(
    alloc: Global,
    bodies: &mut Bodies,
    selection: Selection,
    labels: Labels,
    label: Label,
    t: Token,
) -> Result<Phase, SyntaxFault>
    ensures { view.Gives (view.state bodies.new) result
        (machine.label_ends (view.levels bodies.old.outer.items) (stmt_trees bodies.old.stmts.items.items) (view.selection selection)
        (label_trees labels.items.items ++ label_tree label ∷ []) (mark t.tok) t) }
{
    let mut labels = labels;
    if let Err(Memory) = labels.push(label) {
        return give_up_case(selection, labels, SyntaxFault::Memory);
    }
    let mark = mark_of(t.tok);
    if is(mark, Mark::Comma) {
        return Ok(Phase::Labelling {
            selection,
            labels,
            phase: LabelPhase {
                first: None,
                constant: Constant::Wanted,
            },
        });
    }
    if is(mark, Mark::Colon) {
        return opened(alloc, Body::OfBranch { selection, labels }, bodies);
    }
    give_up_case(selection, labels, SyntaxFault::Syntax { spot: t.spot })
}

/// A token of a label.
pub fn label_step(
    source: Source,
    bodies: &mut Bodies,
    selection: Selection,
    labels: Labels,
    phase: LabelPhase,
    t: Token,
) -> Result<Phase, SyntaxFault>
    requires inside { IsInside source.text.now t }
    ensures { view.Gives (view.state bodies.new) result
        (machine.label_step (record { bytes = bytes_in source.entry.text.now; most = source.entry.most })
        (view.levels bodies.old.outer.items) (stmt_trees bodies.old.stmts.items.items) (view.selection selection)
        (label_trees labels.items.items) (view.label_phase phase) t) }
{
    let depth = depth_of_labels(bodies);
    let LabelPhase { first, constant } = phase;
    match constant {
        Constant::Wanted => {
            let constant = constant_at(source, depth, t);
            with_constant(selection, labels, first, constant)
        }
        Constant::Negated { sign } => {
            let constant = number_at(source, depth, sign, t);
            with_constant(selection, labels, first, constant)
        }
        Constant::Read { value } => match first {
            None => first_ends(source.alloc, bodies, selection, labels, value, t),
            Some(first) => {
                let label = Label {
                    first,
                    last: Some(value),
                };
                label_ends(source.alloc, bodies, selection, labels, label, t)
            }
        },
    }
}
