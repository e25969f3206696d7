//! The parser: the one program that the tokens of a text spell, or the place of the fault.
#![tactic(auto)]

mod declarations;
mod endings;
mod expressions;
mod fault;
mod forms;
mod labels;
mod laws;
mod levels;
mod marks;
mod names;
mod parsing;
mod refusals;
mod state;
mod statements;

pub use fault::SyntaxFault;
pub use laws::one_answer;
pub use parsing::parse;
