//! Slots: the variables of a program.

use st_tree::{Nodes, Section};
use vcp_base::{Spot, Text, Ty};

/// A variable: its declared name with the spot, its section, its type and its initial value.
pub struct Slot {
    pub name: Text,
    pub spot: Spot,
    pub section: Section,
    pub ty: Ty,
    pub init: i64,
}

impl Drop for Slot {
    fn drop(self) {
        let Slot {
            name: _,
            spot: _,
            section: _,
            ty: _,
            init: _,
        } = self;
    }
}

/// The variables of a program, in order of declaration.
pub type Slots = Nodes<Slot>;
