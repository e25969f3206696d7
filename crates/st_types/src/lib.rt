//! Typing: the checked program of a tree, or its first fault.
#![tactic(auto)]

mod constants;
mod declaration;
mod environment;
mod expression;
mod fault;
mod function;
mod initial;
mod inside;
mod labels;
mod laws;
mod literal;
mod names;
mod note;
mod operator;
mod place;
mod refusals;
mod statement;
mod typing;
mod variable;

pub use fault::TypeFault;
pub use laws::{
    answers_are_one, faultless_programs_are_checked, faults_prevent_checked_trees,
    slots_have_declared_names, turns_go_up_to_the_last_bound, widened_parts_are_checked,
};
pub use literal::literal_type;
pub use names::{Entry, Names};
pub use operator::{common, widened_from};
pub use typing::typed;
pub use variable::is_set;
