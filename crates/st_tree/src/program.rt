//! Programs and their declarations.

use crate::expr::Expr;
use crate::nodes::Nodes;
use crate::stmt::Stmts;
use vcp_base::{Spot, Text, Ty};

/// What a block declares.
#[derive(Clone, Copy, PartialEq, Eq, Drop)]
pub enum Section {
    /// VAR_INPUT
    Input,
    /// VAR_OUTPUT
    Output,
    /// VAR
    Local,
    /// VAR RETAIN, which means what VAR means.
    Retain,
    /// VAR CONSTANT
    Constant,
}

/// A declared name, with its spot.
pub struct Declared {
    pub name: Text,
    pub spot: Spot,
}

impl Drop for Declared {
    fn drop(self) {
        let Declared { name: _, spot: _ } = self;
    }
}

/// The names of a declaration.
pub type DeclaredNames = Nodes<Declared>;

/// A declaration: names, their type, and their initial value where one is given.
pub struct Decl {
    pub names: DeclaredNames,
    pub ty: Ty,
    pub init: Option<Expr>,
}

impl Drop for Decl {
    fn drop(self) {
        let Decl {
            names: _,
            ty: _,
            init: _,
        } = self;
    }
}

/// The declarations of a block.
pub type Decls = Nodes<Decl>;

/// A block of declarations.
pub struct Block {
    pub section: Section,
    pub decls: Decls,
}

impl Drop for Block {
    fn drop(self) {
        let Block {
            section: _,
            decls: _,
        } = self;
    }
}

/// The blocks of a program.
pub type Blocks = Nodes<Block>;

/// A program: its name, its blocks of declarations and its body.
pub struct Program {
    pub name: Text,
    pub blocks: Blocks,
    pub body: Stmts,
}

impl Drop for Program {
    fn drop(self) {
        let Program {
            name: _,
            blocks: _,
            body: _,
        } = self;
    }
}
