//! The table of signatures: each operation's signature, its correction and its expected residue.
//!
//! A word is made by one operation in one cycle. Its residue is the operation's signature and the cycle's stamp: it
//! names the operation, given the cycle, and the cycle, given the operation.
#![tactic(auto)]

mod corrections;
mod laws;
mod signatures;
mod table;

pub use corrections::{correction, read_signature};
pub use laws::{
    a_cycle_later_residues_are_five_steps_apart, constants_are_in_range,
    expected_residues_are_residues, signatures_are_distinct,
};
pub use signatures::{expected, signature_of, stamp};
pub use table::{Table, store_of};
