//! What ends a body, or begins the next branch.

ghost use Rattle.st_tree.specs.StmtViews.{stmt_trees};
ghost use Rattle.st_parser.specs.StateViews as view;
ghost use Rattle.st_parser.specs.StmtMachine as machine;

use crate::fault::SyntaxFault;
use crate::levels::{expects, opened, whole};
use crate::refusals::refuse_end;
use crate::state::{Bodies, Body, Phase, Purpose, Selection};
use st_lexer::Token;
use st_tree::{Arm, Branch, Stmt, Stmts};
use std::alloc::Global;
use vcp_base::Memory;

/// ELSIF behind these statements of a body that ends.
pub fn elsif_at(
    alloc: Global,
    body: Body,
    bodies: &mut Bodies,
    stmts: Stmts,
    t: Token,
) -> Result<Phase, SyntaxFault>
    ensures { view.Gives (view.state bodies.new) result
        (machine.elsif_at (view.body body) (view.levels bodies.old.outer.items) (stmt_trees bodies.old.stmts.items.items)
        (stmt_trees stmts.items.items) t) }
{
    match body {
        Body::OfArm {
            mut arms,
            cond,
            spot,
        } => match arms.push(Arm {
            cond,
            body: stmts,
            spot,
        }) {
            Ok(()) => Ok(expects(alloc, Purpose::ToTest { arms, spot: t.spot })),
            Err(Memory) => Err(SyntaxFault::Memory),
        },
        Body::OfIfElse { .. }
        | Body::OfBranch { .. }
        | Body::OfCaseElse { .. }
        | Body::OfLoop { .. } => { refuse_end(body, stmts, t) }
    }
}

/// ELSE behind these statements of a body that ends.
pub fn else_at(
    alloc: Global,
    body: Body,
    bodies: &mut Bodies,
    stmts: Stmts,
    t: Token,
) -> Result<Phase, SyntaxFault>
    ensures { view.Gives (view.state bodies.new) result
        (machine.else_at (view.body body) (view.levels bodies.old.outer.items) (stmt_trees bodies.old.stmts.items.items)
        (stmt_trees stmts.items.items) t) }
{
    match body {
        Body::OfArm {
            mut arms,
            cond,
            spot,
        } => match arms.push(Arm {
            cond,
            body: stmts,
            spot,
        }) {
            Ok(()) => opened(alloc, Body::OfIfElse { arms }, bodies),
            Err(Memory) => Err(SyntaxFault::Memory),
        },
        Body::OfBranch {
            mut selection,
            labels,
        } => match selection.branches.push(Branch {
            labels,
            body: stmts,
        }) {
            Ok(()) => opened(alloc, Body::OfCaseElse { selection }, bodies),
            Err(Memory) => Err(SyntaxFault::Memory),
        },
        Body::OfIfElse { .. } | Body::OfCaseElse { .. } | Body::OfLoop { .. } => {
            refuse_end(body, stmts, t)
        }
    }
}

/// END_IF behind these statements of a body that ends.
pub fn end_if_at(
    body: Body,
    bodies: &mut Bodies,
    stmts: Stmts,
    t: Token,
) -> Result<Phase, SyntaxFault>
    ensures { view.Gives (view.state bodies.new) result
        (machine.end_if_at (view.body body) (view.levels bodies.old.outer.items) (stmt_trees bodies.old.stmts.items.items)
        (stmt_trees stmts.items.items) t) }
{
    match body {
        Body::OfArm {
            mut arms,
            cond,
            spot,
        } => match arms.push(Arm {
            cond,
            body: stmts,
            spot,
        }) {
            Ok(()) => whole(bodies, Stmt::if_(arms, None)),
            Err(Memory) => Err(SyntaxFault::Memory),
        },
        Body::OfIfElse { arms } => whole(bodies, Stmt::if_(arms, Some(stmts))),
        Body::OfBranch { .. } | Body::OfCaseElse { .. } | Body::OfLoop { .. } => {
            refuse_end(body, stmts, t)
        }
    }
}

/// END_CASE behind these statements of a body that ends.
pub fn end_case_at(
    body: Body,
    bodies: &mut Bodies,
    stmts: Stmts,
    t: Token,
) -> Result<Phase, SyntaxFault>
    ensures { view.Gives (view.state bodies.new) result
        (machine.end_case_at (view.body body) (view.levels bodies.old.outer.items) (stmt_trees bodies.old.stmts.items.items)
        (stmt_trees stmts.items.items) t) }
{
    match body {
        Body::OfBranch {
            mut selection,
            labels,
        } => match selection.branches.push(Branch {
            labels,
            body: stmts,
        }) {
            Ok(()) => {
                let Selection { on, spot, branches } = selection;
                whole(bodies, Stmt::case(on, branches, None, spot))
            }
            Err(Memory) => Err(SyntaxFault::Memory),
        },
        Body::OfCaseElse { selection } => {
            let Selection { on, spot, branches } = selection;
            whole(bodies, Stmt::case(on, branches, Some(stmts), spot))
        }
        Body::OfArm { .. } | Body::OfIfElse { .. } | Body::OfLoop { .. } => {
            refuse_end(body, stmts, t)
        }
    }
}

/// END_FOR behind these statements of a body that ends.
pub fn end_for_at(
    body: Body,
    bodies: &mut Bodies,
    stmts: Stmts,
    t: Token,
) -> Result<Phase, SyntaxFault>
    ensures { view.Gives (view.state bodies.new) result
        (machine.end_for_at (view.body body) (view.levels bodies.old.outer.items) (stmt_trees bodies.old.stmts.items.items)
        (stmt_trees stmts.items.items) t) }
{
    match body {
        Body::OfLoop {
            head,
            first,
            last,
            by,
        } => {
            let stmt = Stmt::for_(head.name, head.name_spot, first, last, by, stmts, head.spot);
            whole(bodies, stmt)
        }
        Body::OfArm { .. }
        | Body::OfIfElse { .. }
        | Body::OfBranch { .. }
        | Body::OfCaseElse { .. } => { refuse_end(body, stmts, t) }
    }
}
