//! Checked programs: every name is a slot or a value, every node has its type, and every FOR its turns.
//!
//! It has the meaning of programs, too, as definitions over the tree: the values of expressions, what
//! statements do, the run over rows of inputs, and the room that flattening may take.
#![tactic(auto)]

mod expr;
mod laws;
mod measure;
mod slot;
mod stmt;
mod typed;
mod types;

pub use expr::{Fun, TExpr, TExprs, conversion};
pub use laws::{causes_of_stops, trees_of_appended, trees_of_nodes, turns_name_slots, values_fit};
pub use measure::size_of;
pub use slot::{Slot, Slots};
pub use stmt::{TArm, TArms, TBranch, TBranches, TLabel, TLabels, TStmt, TStmts, next_value};
pub use typed::Typed;
pub use types::{result, ty_of};
