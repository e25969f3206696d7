//! Why a file isn't taken.

ghost use Rattle.std.specs.Prelude.{◌≡◌};
ghost use Rattle.vcp_inputs.specs.Refusals.{unread, no_rows, unimaged, unscripted, unwired};

use fault_script::ScriptFault;
use il_front::IlFault;
use image_file::ImageFault;
use input_rows::RowFault;
use st_lexer::LexFault;
use st_parser::SyntaxFault;
use st_types::TypeFault;
use telegram::WireFault;
use vcp_outside::ReadAll;

/// Why a file is refused. Where its bytes are looked at, the fault is one of the layer that looks, and
/// never its want of memory.
#[derive(Clone, Copy)]
pub enum Refusal {
    /// The file has more bytes than its limit.
    Bytes,
    /// The source can't be read on as tokens.
    Lexing(LexFault),
    /// The source's tokens are no program, or go too deep.
    Parsing(SyntaxFault),
    /// The source's program breaks a rule of types, or is too large.
    Typing(TypeFault),
    /// The text is no instruction list. A fault of its tokens, its head or its limits is in it as in a source's refusal.
    Listing(IlFault),
    /// The file is no table of rows for the program, or has too many or too few.
    Rows(RowFault),
    /// The file is no image.
    Image(ImageFault),
    /// The graph of the image has too many weights for an audit.
    Audit,
    /// The rows have too many cycles for faults to be judged over the graph of the image.
    Trace,
    /// The seed of a second channel is the image's own.
    Seed,
    /// The file is no script of faults for the graph of the image.
    Script(ScriptFault),
    /// The file is no script of a wire.
    Wire(WireFault),
}

/// Why there is nothing of a file.
#[derive(Clone, Copy)]
pub enum NoInput {
    /// The file couldn't be begun or read, as where its name is lacking.
    Unread,
    /// The file is refused.
    Refused(Refusal),
    /// An allocation failed.
    Memory,
}

impl From<ReadAll> for NoInput {
    ghost from_gives = { λ r e. e ≡ unread r };

    fn from(fault: ReadAll) -> NoInput {
        match fault {
            ReadAll::Failed => NoInput::Unread,
            ReadAll::TooLong => NoInput::Refused(Refusal::Bytes),
            ReadAll::Memory => NoInput::Memory,
        }
    }
}

impl From<RowFault> for NoInput {
    ghost from_gives = { λ r e. e ≡ no_rows r };

    fn from(fault: RowFault) -> NoInput {
        match fault {
            RowFault::Memory => NoInput::Memory,
            RowFault::Header
            | RowFault::Width { .. }
            | RowFault::Cell { .. }
            | RowFault::Form
            | RowFault::Cycles
            | RowFault::Cycle => NoInput::Refused(Refusal::Rows(fault)),
        }
    }
}

impl From<ImageFault> for NoInput {
    ghost from_gives = { λ i e. e ≡ unimaged i };

    fn from(fault: ImageFault) -> NoInput {
        match fault {
            ImageFault::Memory => NoInput::Memory,
            ImageFault::Magic { .. }
            | ImageFault::Version { .. }
            | ImageFault::Short { .. }
            | ImageFault::Field { .. }
            | ImageFault::Operand { .. }
            | ImageFault::Table { .. }
            | ImageFault::Rest { .. } => NoInput::Refused(Refusal::Image(fault)),
        }
    }
}

impl From<ScriptFault> for NoInput {
    ghost from_gives = { λ s e. e ≡ unscripted s };

    fn from(fault: ScriptFault) -> NoInput {
        match fault {
            ScriptFault::Memory => NoInput::Memory,
            ScriptFault::Form { .. }
            | ScriptFault::Site { .. }
            | ScriptFault::Early { .. }
            | ScriptFault::Kind { .. }
            | ScriptFault::Group { .. }
            | ScriptFault::Twice { .. }
            | ScriptFault::Faults { .. } => NoInput::Refused(Refusal::Script(fault)),
        }
    }
}

impl From<WireFault> for NoInput {
    ghost from_gives = { λ w e. e ≡ unwired w };

    fn from(fault: WireFault) -> NoInput {
        match fault {
            WireFault::Memory => NoInput::Memory,
            WireFault::Form { .. } | WireFault::Range { .. } | WireFault::Unsent { .. } => {
                NoInput::Refused(Refusal::Wire(fault))
            }
        }
    }
}
