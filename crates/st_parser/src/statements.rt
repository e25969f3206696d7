//! Statements, read token by token.

ghost use Rattle.std.specs.Prelude.{◌≡◌, [], ◌∷◌, List, Option, length};
ghost use Rattle.st_lexer.specs.Reading.{IsInside};
ghost use Rattle.st_tree.specs.ExprTree.{ExprTree};
ghost use Rattle.st_tree.specs.StmtTree.{StmtTrees};
ghost use Rattle.st_tree.specs.ExprViews.{expr_tree};
ghost use Rattle.st_tree.specs.StmtViews.{arm_trees, stmt_trees};
ghost use Rattle.st_tree.specs.Items.{arm_items};
ghost use Rattle.st_tree.specs.Spelling.{bytes_in};
ghost use Rattle.st_parser.specs.Marks.{mark_of as mark};
ghost use Rattle.st_parser.specs.ExprMachine.{Context, no_deeper};
ghost use Rattle.st_parser.specs.FormViews as form_view;
ghost use Rattle.st_parser.specs.StateViews as view;
ghost use Rattle.st_parser.specs.StmtMachine as machine;

use crate::endings::{else_at, elsif_at, end_case_at, end_for_at, end_if_at};
use crate::expressions::{Progress, read};
use crate::fault::SyntaxFault;
use crate::forms::{Form, Mode};
use crate::labels::label_step;
use crate::levels::{depth, expects, leave, opened};
use crate::marks::{Mark, has, is, mark_of};
use crate::names::{Source, name_of};
use crate::refusals::{
    discard, discard_forms, discard_label, discard_phase, discard_purpose, refuse, refuse_end,
};
use crate::state::{Bodies, Body, Constant, LabelPhase, Level, Loop, Phase, Purpose, Selection};
use st_lexer::Token;
use st_tree::{Arms, Branch, Branches, Expr, Labels, Stmt, Stmts};
use std::alloc::Global;
use std::mem;
use vcp_base::{Memory, Spot, Text};

// A label of the next branch has come so far, behind the statements of a body that ends.
fn next_label_in(
    source: Source,
    body: Body,
    bodies: &mut Bodies,
    stmts: Stmts,
    phase: LabelPhase,
    t: Token,
) -> Result<Phase, SyntaxFault>
    requires inside { IsInside source.text.now t }
    ensures { view.Gives (view.state bodies.new) result
        (machine.next_label_in (record { bytes = bytes_in source.entry.text.now; most = source.entry.most }) (view.body body)
        (view.levels bodies.old.outer.items) (stmt_trees bodies.old.stmts.items.items) (stmt_trees stmts.items.items) (view.label_phase phase) t) }
{
    match body {
        Body::OfBranch {
            mut selection,
            labels,
        } => match selection.branches.push(Branch {
            labels,
            body: stmts,
        }) {
            Ok(()) => {
                let labels = Labels::new(source.alloc);
                label_step(source, bodies, selection, labels, phase, t)
            }
            Err(Memory) => {
                discard_label(phase);
                Err(SyntaxFault::Memory)
            }
        },
        Body::OfArm { .. }
        | Body::OfIfElse { .. }
        | Body::OfCaseElse { .. }
        | Body::OfLoop { .. } => {
            discard_label(phase);
            refuse_end(body, stmts, t)
        }
    }
}

// A label of the next branch has come so far, behind these statements.
fn next_label(
    source: Source,
    bodies: &mut Bodies,
    phase: LabelPhase,
    t: Token,
) -> Result<Phase, SyntaxFault>
    requires inside { IsInside source.text.now t }
    ensures { view.Gives (view.state bodies.new) result
        (machine.next_label (record { bytes = bytes_in source.entry.text.now; most = source.entry.most })
        (view.levels bodies.old.outer.items) (stmt_trees bodies.old.stmts.items.items) (view.label_phase phase) t) }
{
    match leave(&mut bodies.outer) {
        None => {
            discard_label(phase);
            refuse(t)
        }
        Some(level) => {
            let stmts = mem::replace(&mut bodies.stmts, level.before);
            next_label_in(source, level.body, bodies, stmts, phase, t)
        }
    }
}

// A token that ends a body behind these statements, or begins the next branch.
fn level_ends(
    source: Source,
    body: Body,
    bodies: &mut Bodies,
    stmts: Stmts,
    mark: Mark,
    t: Token,
) -> Result<Phase, SyntaxFault>
    requires inside { IsInside source.text.now t }
    ensures { view.Gives (view.state bodies.new) result
        (machine.body_ends (record { bytes = bytes_in source.entry.text.now; most = source.entry.most })
        (record { body = view.body body; before = stmt_trees bodies.old.stmts.items.items } ∷ view.levels bodies.old.outer.items)
        (stmt_trees stmts.items.items) mark t) }
{
    match mark {
        Mark::Elsif => elsif_at(source.alloc, body, bodies, stmts, t),
        Mark::Else => else_at(source.alloc, body, bodies, stmts, t),
        Mark::EndIf => end_if_at(body, bodies, stmts, t),
        Mark::EndCase => end_case_at(body, bodies, stmts, t),
        Mark::EndFor => end_for_at(body, bodies, stmts, t),
        _ => {
            let phase = LabelPhase {
                first: None,
                constant: Constant::Wanted,
            };
            next_label_in(source, body, bodies, stmts, phase, t)
        }
    }
}

// A token that ends the innermost body, or begins the next branch.
fn body_ends(
    source: Source,
    bodies: &mut Bodies,
    mark: Mark,
    t: Token,
) -> Result<Phase, SyntaxFault>
    requires inside { IsInside source.text.now t }
    ensures { view.Gives (view.state bodies.new) result
        (machine.body_ends (record { bytes = bytes_in source.entry.text.now; most = source.entry.most })
        (view.levels bodies.old.outer.items) (stmt_trees bodies.old.stmts.items.items) mark t) }
{
    match leave(&mut bodies.outer) {
        None => {
            if is(mark, Mark::EndProgram) {
                return Ok(Phase::Finished);
            }
            refuse(t)
        }
        Some(level) => {
            let stmts = mem::replace(&mut bodies.stmts, level.before);
            level_ends(source, level.body, bodies, stmts, mark, t)
        }
    }
}

// The first token of a statement, after which the phase is this one, where the token is not too deep.
fn begun(most: usize, bodies: &Bodies, phase: Phase, t: Token) -> Result<Phase, SyntaxFault>
    ensures { view.Gives (view.state bodies.now) result (no_deeper most (length (view.levels bodies.now.outer.items)) t
        (machine.to (view.levels bodies.now.outer.items) (stmt_trees bodies.now.stmts.items.items) (view.phase phase))) }
{
    if depth(bodies) > most {
        discard_phase(phase);
        return Err(SyntaxFault::Depth { spot: t.spot });
    }
    Ok(phase)
}

// A token where a statement may begin.
fn start_at(source: Source, bodies: &mut Bodies, mark: Mark, t: Token) -> Result<Phase, SyntaxFault>
    requires inside { IsInside source.text.now t }
    ensures { view.Gives (view.state bodies.new) result
        (machine.start_at (record { bytes = bytes_in source.entry.text.now; most = source.entry.most })
        (view.levels bodies.old.outer.items) (stmt_trees bodies.old.stmts.items.items) mark t) }
{
    match mark {
        Mark::Semi => begun(source.most, bodies, Phase::Start, t),
        Mark::Name => match name_of(source.alloc, source.text, t) {
            Ok(name) => {
                let phase = Phase::Named { name, spot: t.spot };
                begun(source.most, bodies, phase, t)
            }
            Err(Memory) => Err(SyntaxFault::Memory),
        },
        Mark::If => {
            let arms = Arms::new(source.alloc);
            let purpose = Purpose::ToTest { arms, spot: t.spot };
            begun(source.most, bodies, expects(source.alloc, purpose), t)
        }
        Mark::Case => {
            let purpose = Purpose::ToSelect { spot: t.spot };
            begun(source.most, bodies, expects(source.alloc, purpose), t)
        }
        Mark::For => begun(source.most, bodies, Phase::LoopBegun { spot: t.spot }, t),
        _ => body_ends(source, bodies, mark, t),
    }
}

// A token behind a name that begins a statement, or a label of the next branch.
fn named_at(
    source: Source,
    bodies: &mut Bodies,
    name: Text,
    spot: Spot,
    t: Token,
) -> Result<Phase, SyntaxFault>
    requires inside { IsInside source.text.now t }
    ensures { view.Gives (view.state bodies.new) result
        (machine.named_at (record { bytes = bytes_in source.entry.text.now; most = source.entry.most })
        (view.levels bodies.old.outer.items) (stmt_trees bodies.old.stmts.items.items) name spot (mark t.tok) t) }
{
    if has(t, Mark::Assign) {
        return Ok(expects(source.alloc, Purpose::ToAssign { name, spot }));
    }
    let phase = LabelPhase {
        first: None,
        constant: Constant::Read {
            value: Expr::name(name, spot),
        },
    };
    next_label(source, bodies, phase, t)
}

// The token behind the value of an assignment.
fn assigned(
    bodies: &mut Bodies,
    name: Text,
    spot: Spot,
    e: Expr,
    t: Token,
) -> Result<Phase, SyntaxFault>
    ensures { view.Gives (view.state bodies.new) result
        (machine.take (view.levels bodies.old.outer.items) (stmt_trees bodies.old.stmts.items.items) (machine.to_assign name spot)
        (expr_tree e) (mark t.tok) t) }
{
    if has(t, Mark::Semi) {
        return match bodies.stmts.push(Stmt::assign(name, e, spot)) {
            Ok(()) => Ok(Phase::Start),
            Err(Memory) => Err(SyntaxFault::Memory),
        };
    }
    discard(e);
    refuse(t)
}

// The token behind the condition of an IF or ELSIF.
fn tested(
    alloc: Global,
    bodies: &mut Bodies,
    arms: Arms,
    spot: Spot,
    cond: Expr,
    t: Token,
) -> Result<Phase, SyntaxFault>
    ensures { view.Gives (view.state bodies.new) result
        (machine.take (view.levels bodies.old.outer.items) (stmt_trees bodies.old.stmts.items.items)
        (machine.to_test (arm_trees (arm_items arms)) spot) (expr_tree cond) (mark t.tok) t) }
{
    if has(t, Mark::Then) {
        return opened(alloc, Body::OfArm { arms, cond, spot }, bodies);
    }
    discard(cond);
    discard_purpose(Purpose::ToTest { arms, spot });
    refuse(t)
}

// The token behind the value of a CASE.
fn selected(alloc: Global, spot: Spot, on: Expr, t: Token) -> Result<Phase, SyntaxFault>
    ensures { (outer : List machine.Level) → (ss : StmtTrees) → view.Gives (view.within outer ss) result
        (machine.take outer ss (machine.to_select spot) (expr_tree on) (mark t.tok) t) }
{
    if has(t, Mark::Of) {
        let branches = Branches::new(alloc);
        return Ok(Phase::Labelling {
            selection: Selection { on, spot, branches },
            labels: Labels::new(alloc),
            phase: LabelPhase {
                first: None,
                constant: Constant::Wanted,
            },
        });
    }
    discard(on);
    refuse(t)
}

// The token behind the first value of a FOR.
fn loop_begins(alloc: Global, head: Loop, first: Expr, t: Token) -> Result<Phase, SyntaxFault>
    ensures { (outer : List machine.Level) → (ss : StmtTrees) → view.Gives (view.within outer ss) result
        (machine.take outer ss (machine.to_begin (view.loop head)) (expr_tree first) (mark t.tok) t) }
{
    if has(t, Mark::To) {
        return Ok(expects(alloc, Purpose::ToEnd { head, first }));
    }
    discard(first);
    refuse(t)
}

// The token behind the last value of a FOR.
fn loop_ends(
    alloc: Global,
    bodies: &mut Bodies,
    head: Loop,
    first: Expr,
    last: Expr,
    t: Token,
) -> Result<Phase, SyntaxFault>
    ensures { view.Gives (view.state bodies.new) result
        (machine.take (view.levels bodies.old.outer.items) (stmt_trees bodies.old.stmts.items.items)
        (machine.to_end (view.loop head) (expr_tree first)) (expr_tree last) (mark t.tok) t) }
{
    let mark = mark_of(t.tok);
    if is(mark, Mark::By) {
        return Ok(expects(alloc, Purpose::ToStep { head, first, last }));
    }
    if is(mark, Mark::Do) {
        let body = Body::OfLoop {
            head,
            first,
            last,
            by: None,
        };
        return opened(alloc, body, bodies);
    }
    discard(first);
    discard(last);
    refuse(t)
}

// The token behind the step of a FOR.
fn loop_steps(
    alloc: Global,
    bodies: &mut Bodies,
    head: Loop,
    first: Expr,
    last: Expr,
    by: Expr,
    t: Token,
) -> Result<Phase, SyntaxFault>
    ensures { view.Gives (view.state bodies.new) result
        (machine.take (view.levels bodies.old.outer.items) (stmt_trees bodies.old.stmts.items.items)
        (machine.to_step (view.loop head) (expr_tree first) (expr_tree last)) (expr_tree by) (mark t.tok) t) }
{
    if has(t, Mark::Do) {
        let body = Body::OfLoop {
            head,
            first,
            last,
            by: Some(by),
        };
        return opened(alloc, body, bodies);
    }
    discard(first);
    discard(last);
    discard(by);
    refuse(t)
}

// The token behind a whole expression.
fn take(
    alloc: Global,
    bodies: &mut Bodies,
    purpose: Purpose,
    e: Expr,
    t: Token,
) -> Result<Phase, SyntaxFault>
    ensures { view.Gives (view.state bodies.new) result
        (machine.take (view.levels bodies.old.outer.items) (stmt_trees bodies.old.stmts.items.items) (view.purpose purpose)
        (expr_tree e) (mark t.tok) t) }
{
    match purpose {
        Purpose::ToAssign { name, spot } => assigned(bodies, name, spot, e, t),
        Purpose::ToTest { arms, spot } => tested(alloc, bodies, arms, spot, e, t),
        Purpose::ToSelect { spot } => selected(alloc, spot, e, t),
        Purpose::ToBegin { head } => loop_begins(alloc, head, e, t),
        Purpose::ToEnd { head, first } => loop_ends(alloc, bodies, head, first, e, t),
        Purpose::ToStep { head, first, last } => {
            loop_steps(alloc, bodies, head, first, last, e, t)
        }
    }
}

// A token of an expression, or the one behind it.
fn read_at(
    source: Source,
    bodies: &mut Bodies,
    purpose: Purpose,
    forms: Vec<Form>,
    mode: Mode,
    t: Token,
) -> Result<Phase, SyntaxFault>
    requires inside { IsInside source.text.now t }
    ensures { view.Gives (view.state bodies.new) result
        (machine.stmt_step (record { bytes = bytes_in source.entry.text.now; most = source.entry.most })
        (view.levels bodies.old.outer.items) (stmt_trees bodies.old.stmts.items.items)
        (machine.reading (view.purpose purpose) (form_view.forms forms.items) (form_view.mode mode)) t) }
{
    let mut forms = forms;
    match read(source, depth(bodies), &mut forms, mode, t) {
        Ok(Progress::On(mode)) => Ok(Phase::Reading {
            purpose,
            forms,
            mode,
        }),
        Ok(Progress::Ended(e)) => {
            discard_forms(forms);
            take(source.alloc, bodies, purpose, e, t)
        }
        Err(fault) => {
            discard_forms(forms);
            discard_purpose(purpose);
            Err(fault)
        }
    }
}

// The token behind FOR.
fn loop_begun_at(source: Source, spot: Spot, t: Token) -> Result<Phase, SyntaxFault>
    requires inside { IsInside source.text.now t }
    ensures { (outer : List machine.Level) → (ss : StmtTrees) → view.Gives (view.within outer ss) result
        (machine.stmt_step (record { bytes = bytes_in source.entry.text.now; most = source.entry.most }) outer ss
        (machine.loop_begun spot) t) }
{
    if has(t, Mark::Name) {
        return match name_of(source.alloc, source.text, t) {
            Ok(name) => {
                let head = Loop {
                    name,
                    name_spot: t.spot,
                    spot,
                };
                Ok(Phase::LoopNamed { head })
            }
            Err(Memory) => Err(SyntaxFault::Memory),
        };
    }
    refuse(t)
}

// The token behind the name of a FOR's control variable.
fn loop_named_at(alloc: Global, head: Loop, t: Token) -> Result<Phase, SyntaxFault>
    ensures { (c : Context) → (outer : List machine.Level) → (ss : StmtTrees) → view.Gives (view.within outer ss) result
        (machine.stmt_step c outer ss (machine.loop_named (view.loop head)) t) }
{
    if has(t, Mark::Assign) {
        return Ok(expects(alloc, Purpose::ToBegin { head }));
    }
    refuse(t)
}

/// A token of the body of a program, through END_PROGRAM.
pub fn stmt_step(
    source: Source,
    bodies: &mut Bodies,
    phase: Phase,
    t: Token,
) -> Result<Phase, SyntaxFault>
    requires inside { IsInside source.text.now t }
    ensures { view.Gives (view.state bodies.new) result
        (machine.stmt_step (record { bytes = bytes_in source.entry.text.now; most = source.entry.most })
        (view.levels bodies.old.outer.items) (stmt_trees bodies.old.stmts.items.items) (view.phase phase) t) }
{
    match phase {
        Phase::Start => start_at(source, bodies, mark_of(t.tok), t),
        Phase::Named { name, spot } => named_at(source, bodies, name, spot, t),
        Phase::Reading {
            purpose,
            forms,
            mode,
        } => read_at(source, bodies, purpose, forms, mode, t),
        Phase::Closed => {
            if has(t, Mark::Semi) {
                return Ok(Phase::Start);
            }
            refuse(t)
        }
        Phase::LoopBegun { spot } => loop_begun_at(source, spot, t),
        Phase::LoopNamed { head } => loop_named_at(source.alloc, head, t),
        Phase::Labelling {
            selection,
            labels,
            phase,
        } => label_step(source, bodies, selection, labels, phase, t),
        Phase::Finished => refuse(t),
    }
}
