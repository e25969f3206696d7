//! What expressions and statements are typed in.

use crate::names::Names;
use std::alloc::Global;

/// The names that are declared, the slots of the FORs round the place, which may not be set there, and the allocator of
/// what is made. Its methods type the nodes: each notes the faults of its node, and gives the typed node, none
/// where it has a fault or memory runs out.
#[derive(Clone, Copy)]
pub(crate) struct Environment<'a> {
    pub alloc: Global,
    pub names: &'a Names,
    pub held: &'a [u32],
}
