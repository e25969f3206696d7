//! How much may still be searched.

use op_graph::Graph;

/// How many operations may still be gone through in a search, and whether memory was lacking in it: then none may. What was found holds all the
/// same, but isn't told.
#[derive(Drop)]
pub(crate) struct Effort {
    /// How many operations may be gone through.
    pub(crate) left: u64,
    /// Whether memory was lacking.
    pub(crate) full: bool,
}

impl Effort {
    /// So many operations.
    pub(crate) fn of(operations: u64) -> Effort {
        Effort {
            left: operations,
            full: false,
        }
    }

    /// Takes the operations of two cases from those that may still be gone through. Whether there were as many.
    pub(crate) fn spend(&mut self, graph: &Graph) -> bool {
        let many = (graph.len() as u64).saturating_mul(2);
        if self.left < many {
            self.left = 0;
            return false;
        }
        self.left = self.left - many;
        true
    }

    /// Memory is lacking.
    pub(crate) fn lack(&mut self) {
        self.left = 0;
        self.full = true;
    }
}
