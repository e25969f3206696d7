//! Why a builder adds nothing.

ghost use Rattle.std.specs.Prelude.{◌≡◌};
ghost use Rattle.op_graph.specs.declared.build.Build.TheVariants as build;

use vcp_base::Memory;

/// Why an operation was not added. The builder is unchanged.
#[derive(Clone, Copy)]
pub enum Build {
    /// There are 65,536 operations already.
    Full,
    /// An allocation failed.
    Memory,
}

impl From<Memory> for Build {
    ghost from_gives = { λ _ e. e ≡ build.Memory };

    fn from(_: Memory) -> Self {
        Build::Memory
    }
}
