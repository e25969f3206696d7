//! Spaces and tabs.

ghost use Rattle.std.specs.Prelude.{◌≡◌};
ghost use Rattle.vcp_base.specs.Blanks.{unindented};

/// A text without the spaces and tabs at its start.
pub fn without_first_blanks(text: &[u8]) -> &[u8]
    ensures { result.now ≡ unindented text.now }
{
    let mut rest = text;
    'blanks: while let [b' ' | b'\t', more @ ..] = rest {
        rest = more;
    }
    rest
}
