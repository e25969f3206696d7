//! What is read so far of a program: what is whole, the bodies that are open, and what was read last.

ghost use Rattle.std.specs.Prelude.{◌≡◌};

use crate::forms::{Form, Mode};
use crate::levels::nothing_read;
use crate::refusals::{discard_forms, discard_phase};
use st_tree::{
    Arms, Blocks, Branches, DeclaredNames, Decls, Expr, Labels, Program, Section, Stmts,
};
use std::alloc::Global;
use vcp_base::{Spot, Text, Ty};

/// A CASE and the branches that are whole.
#[derive(Drop)]
pub struct Selection {
    pub on: Expr,
    pub spot: Spot,
    pub branches: Branches,
}

/// A FOR and the name of its control variable.
#[derive(Drop)]
pub struct Loop {
    pub name: Text,
    pub name_spot: Spot,
    pub spot: Spot,
}

/// What a body belongs to that is open.
#[derive(Drop)]
pub enum Body {
    /// The condition of an IF or ELSIF, behind the arms that are whole.
    OfArm {
        arms: Arms,
        cond: Expr,
        spot: Spot,
    },
    /// The ELSE of an IF.
    OfIfElse {
        arms: Arms,
    },
    /// Labels of a CASE.
    OfBranch {
        selection: Selection,
        labels: Labels,
    },
    /// The ELSE of a CASE.
    OfCaseElse {
        selection: Selection,
    },
    /// A FOR.
    OfLoop {
        head: Loop,
        first: Expr,
        last: Expr,
        by: Option<Expr>,
    },
}

/// An open body, and the statements before the one that it belongs to.
#[derive(Drop)]
pub struct Level {
    pub body: Body,
    pub before: Stmts,
}

/// What an expression is read for.
#[derive(Drop)]
pub enum Purpose {
    ToAssign { name: Text, spot: Spot },
    /// The condition of an IF or ELSIF, behind the arms that are whole.
    ToTest { arms: Arms, spot: Spot },
    ToSelect { spot: Spot },
    /// The first value of a FOR.
    ToBegin { head: Loop },
    /// The last value of a FOR.
    ToEnd { head: Loop, first: Expr },
    /// The step of a FOR.
    ToStep { head: Loop, first: Expr, last: Expr },
}

/// How far a constant of a label is read.
#[derive(Drop)]
pub enum Constant {
    /// Nothing of it.
    Wanted,
    /// Its sign alone.
    Negated { sign: Spot },
    /// The whole.
    Read { value: Expr },
}

/// How far a label is read.
#[derive(Drop)]
pub struct LabelPhase {
    /// The first constant, where it is whole and a last one belongs to the label.
    pub first: Option<Expr>,
    /// The constant that is read.
    pub constant: Constant,
}

/// What was read last.
#[derive(Drop)]
pub enum Phase {
    /// A statement may begin, or the body end.
    Start,
    /// A name that begins a statement, or a label of the next branch.
    Named {
        name: Text,
        spot: Spot,
    },
    /// A part of an expression.
    Reading {
        purpose: Purpose,
        forms: Vec<Form>,
        mode: Mode,
    },
    /// A statement but for its semicolon.
    Closed,
    /// FOR.
    LoopBegun {
        spot: Spot,
    },
    /// The name of a FOR's control variable.
    LoopNamed {
        head: Loop,
    },
    /// A part of the labels of a branch.
    Labelling {
        selection: Selection,
        labels: Labels,
        phase: LabelPhase,
    },
    /// END_PROGRAM.
    Finished,
}

/// What is read so far of the body of a program.
pub struct Bodies {
    /// The levels that are open. The last one is the innermost.
    pub outer: Vec<Level>,
    /// The statements so far of the innermost body.
    pub stmts: Stmts,
    /// What was read last.
    pub phase: Phase,
}

impl Drop for Bodies {
    fn drop(self) {
        let Bodies {
            outer: _,
            stmts: _,
            phase,
        } = self;
        discard_phase(phase);
    }
}

/// What is read so far of a program. What its place does not speak of is what was there before.
pub struct Parsed {
    /// The program's name.
    pub name: Text,
    /// The blocks that are whole.
    pub blocks: Blocks,
    /// The section of the block that is read.
    pub section: Section,
    /// Its declarations that are whole.
    pub decls: Decls,
    /// The names of the declaration that is read.
    pub names: DeclaredNames,
    /// The type of these names.
    pub ty: Ty,
    /// The open forms of their initial value.
    pub forms: Vec<Form>,
    /// What was read last of their initial value.
    pub mode: Mode,
    /// The body.
    pub bodies: Bodies,
}

impl Drop for Parsed {
    fn drop(self) {
        let Parsed {
            name: _,
            blocks: _,
            section: _,
            decls: _,
            names: _,
            ty: _,
            forms,
            mode: _,
            bodies: _,
        } = self;
        discard_forms(forms);
    }
}

impl Parsed {
    /// Nothing is read. It takes no memory.
    pub fn new(alloc: Global) -> Parsed {
        Parsed {
            name: Text::from_vec(Vec::new(alloc)),
            blocks: Blocks::new(alloc),
            section: Section::Local,
            decls: Decls::new(alloc),
            names: DeclaredNames::new(alloc),
            ty: Ty::Bool,
            forms: Vec::new(alloc),
            mode: Mode::Want,
            bodies: nothing_read(alloc),
        }
    }

    /// The program of the name and the blocks that are whole, with its body.
    pub fn program(self, body: Stmts) -> Program
        ensures name { result.name ≡ self.name }
        ensures blocks { result.blocks ≡ self.blocks }
        ensures body { result.body ≡ body }
    {
        let Parsed {
            name,
            blocks,
            section: _,
            decls: _,
            names: _,
            ty: _,
            forms,
            mode: _,
            bodies: _,
        } = self;
        discard_forms(forms);
        Program { name, blocks, body }
    }
}

/// What was read last of a program.
#[derive(Clone, Copy, Drop)]
pub enum Place {
    /// Nothing: PROGRAM is wanted.
    AtProgram,
    /// PROGRAM.
    AtName,
    /// The program's name, or END_VAR.
    AtBlock,
    /// VAR.
    AtVar,
    /// The head of a block, or a declaration.
    AtDecl,
    /// A declared name.
    AtComma,
    /// The comma behind a declared name.
    AtNextName,
    /// The colon behind the declared names.
    AtType,
    /// The type of the declared names.
    AtInit,
    /// A part of an initial value.
    InInit,
    /// A part of the body.
    InBody,
}
