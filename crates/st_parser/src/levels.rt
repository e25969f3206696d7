//! The bodies that are open.

ghost use Rattle.std.specs.Prelude.{◌≡◌, [], ◌∷◌, OnOk, length, suc};
ghost use Rattle.st_tree.specs.StmtTree.{no_stmts};
ghost use Rattle.st_tree.specs.StmtViews.{stmt_tree, stmt_trees};
ghost use Rattle.st_parser.specs.declared.state.Phase.TheVariants as phase_;
ghost use Rattle.st_parser.specs.ExprMachine.{want};
ghost use Rattle.st_parser.specs.StateViews as view;
ghost use Rattle.st_parser.specs.StmtMachine as machine;

use crate::fault::SyntaxFault;
use crate::forms::{Mode, no_forms};
use crate::state::{Bodies, Body, Level, Phase, Purpose};
use st_tree::{Stmt, Stmts};
use std::alloc::Global;
use std::mem;
use vcp_base::{Memory, append};

/// Takes the innermost level off.
pub fn leave(outer: &mut Vec<Level>) -> Option<Level>
    ensures { view.Leaves (view.levels outer.old.items) result (view.levels outer.new.items) }
{
    outer.pop()
}

/// How many bodies are open.
pub fn depth(bodies: &Bodies) -> usize
    ensures { result ≡ length (view.levels bodies.now.outer.items) }
{
    bodies.outer.len()
}

/// The depth of the labels of the CASE that is read last.
pub fn depth_of_labels(bodies: &Bodies) -> usize
    ensures { result ≡ suc (length (view.levels bodies.now.outer.items)) }
{
    bodies.outer.len() + 1
}

/// A body is opened behind the statements of the innermost one.
pub fn opened(alloc: Global, body: Body, bodies: &mut Bodies) -> Result<Phase, SyntaxFault>
    ensures { view.Gives (view.state bodies.new) result
        (machine.opened (view.body body) (view.levels bodies.old.outer.items) (stmt_trees bodies.old.stmts.items.items)) }
{
    let before = mem::replace(&mut bodies.stmts, Stmts::new(alloc));
    match append(&mut bodies.outer, Level { body, before }) {
        Ok(()) => Ok(Phase::Start),
        Err(Memory) => Err(SyntaxFault::Memory),
    }
}

/// A statement is whole up to its semicolon.
pub fn whole(bodies: &mut Bodies, stmt: Stmt) -> Result<Phase, SyntaxFault>
    ensures { view.Gives (view.state bodies.new) result
        (machine.whole (view.levels bodies.old.outer.items) (stmt_trees bodies.old.stmts.items.items) (stmt_tree stmt)) }
{
    match bodies.stmts.push(stmt) {
        Ok(()) => Ok(Phase::Closed),
        Err(Memory) => Err(SyntaxFault::Memory),
    }
}

/// An expression is to be read.
pub fn expects(alloc: Global, purpose: Purpose) -> Phase
    ensures { view.phase result ≡ machine.reading (view.purpose purpose) [] want }
{
    Phase::Reading {
        purpose,
        forms: no_forms(alloc),
        mode: Mode::Want,
    }
}

/// The place before the first statement of a program.
pub fn nothing_read(alloc: Global) -> Bodies
    ensures outer { view.levels result.outer.items ≡ [] }
    ensures stmts { stmt_trees result.stmts.items.items ≡ no_stmts }
    ensures phase { result.phase ≡ phase_.Start }
{
    Bodies {
        outer: Vec::new(alloc),
        stmts: Stmts::new(alloc),
        phase: Phase::Start,
    }
}
