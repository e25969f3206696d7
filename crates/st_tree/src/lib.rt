//! The tree of a program: what its source says, without brackets, comments and empty statements.
//!
//! A node keeps the spot of its name, literal, operator, function name or keyword. Contracts see a
//! tree as what it holds, never where it lies in memory. Lists are made by `new` and `push`, nodes by
//! the functions named after what they hold; `trees_of_nodes` states laws for a caller that matches on
//! a node. `same_tree` compares programs and leaves spots aside.
#![tactic(auto)]

mod expr;
mod laws;
mod nodes;
mod program;
mod same_expr;
mod same_program;
mod same_stmt;
mod spelling;
mod stmt;

pub use expr::{BinOp, Expr, Exprs, UnOp};
pub use laws::{trees_of_appended, trees_of_listed, trees_of_nodes};
pub use nodes::Nodes;
pub use program::{Block, Blocks, Decl, Declared, DeclaredNames, Decls, Program, Section};
pub use same_program::same_tree;
pub use spelling::{level_of, spelled_names_are_declarable, spelling_begins};
pub use stmt::{Arm, Arms, Branch, Branches, Label, Labels, Stmt, Stmts};
