//! The shapes and the colours of nodes.

ghost use Rattle.std.specs.Prelude.{◌≡◌};
ghost use Rattle.pictures.specs.DotText.{shape_of, fill_of};

use crate::Colour;
use vcp_base::Kind;

/// The shape of the node of an operation.
pub(crate) fn shape(kind: Kind) -> &'static [u8]
    ensures { result.now ≡ shape_of kind }
{
    match kind {
        Kind::Input | Kind::Out => b"ellipse",
        Kind::Load | Kind::Store => b"cylinder",
        Kind::Const => b"plaintext",
        _ => b"box",
    }
}

/// What a node is filled with.
pub(crate) fn fill(colour: Colour) -> &'static [u8]
    ensures { result.now ≡ fill_of colour }
{
    match colour {
        Colour::Unreached => b"#dddddd",
        Colour::Plain => b"#ffffff",
        Colour::Blind { .. } => b"#ff9999",
    }
}
