//! What is before the operations.

use op_graph::{Cell, Loaded, Outlet, Var};
use vcp_base::Profile;

/// What the fields before the operations say.
#[derive(Clone, Copy)]
pub(crate) struct Scope<'a> {
    pub(crate) profile: Profile,
    pub(crate) seed: u32,
    pub(crate) step: u16,
    pub(crate) inputs: &'a [Var],
    pub(crate) outputs: &'a [Outlet],
    pub(crate) cells: &'a [Cell],
    pub(crate) loads: &'a [Loaded],
    pub(crate) stores: &'a [u32],
    pub(crate) turn_nodes: u32,
}
