//! What is told of each refusal: its place, and the code and the name of the fault that is there.

ghost use Rattle.std.specs.Prelude.{◌≡◌};
ghost use Rattle.vcp_inputs.specs.Lines.{diagnostic_of, of_lexing as lexing, of_parsing as parsing, of_typing as typing};
ghost use Rattle.vcp_inputs.specs.Told.{as_diagnostic};
ghost use Rattle.vcp_inputs.specs.declared.refusal.Refusal.TheVariants as refusal;

use crate::refusal::Refusal;
use fault_script::ScriptFault;
use il_front::IlFault;
use image_file::ImageFault;
use input_rows::RowFault;
use st_lexer::LexFault;
use st_parser::SyntaxFault;
use st_types::TypeFault;
use telegram::WireFault;
use vcp_base::Residue;

/// What is told behind a file's name.
#[derive(Clone, Copy)]
pub enum Told {
    /// Of the file as a whole.
    Whole(&'static [u8]),
    /// At a record, an offset or a line of a script.
    Place(u32, &'static [u8]),
    /// At a line and a column of a source, or a record and a column of rows.
    Pair(u32, u32, &'static [u8]),
    /// A correction that isn't the expected one.
    Correction {
        /// Its offset.
        offset: u32,
        /// The correction.
        stored: Residue,
        /// The expected one.
        expected: Residue,
    },
    /// Memory was wanted.
    Memory,
}

/// What is told of a refusal.
pub fn told_of(refusal: &Refusal) -> Told
    ensures { as_diagnostic result ≡ diagnostic_of refusal.now }
{
    match refusal {
        Refusal::Bytes => Told::Whole(b"L1 Bytes"),
        Refusal::Lexing(fault) => of_lexing(*fault),
        Refusal::Parsing(fault) => of_parsing(*fault),
        Refusal::Typing(fault) => of_typing(*fault),
        Refusal::Listing(fault) => of_listing(*fault),
        Refusal::Rows(fault) => of_rows(*fault),
        Refusal::Image(fault) => of_image(*fault),
        Refusal::Audit => Told::Whole(b"L6 Audit"),
        Refusal::Trace => Told::Whole(b"L7 Trace"),
        Refusal::Seed => Told::Whole(b"L8 Seed"),
        Refusal::Script(fault) => of_script(*fault),
        Refusal::Wire(fault) => of_wire(*fault),
    }
}

/// Of a fault of the lexer.
fn of_lexing(fault: LexFault) -> Told
    ensures { as_diagnostic result ≡ lexing fault }
{
    match fault {
        LexFault::Byte { spot } => Told::Pair(spot.line, spot.col, b"S1 Byte"),
        LexFault::Comment { spot } => Told::Pair(spot.line, spot.col, b"S2 Comment"),
        LexFault::Number { spot } => Told::Pair(spot.line, spot.col, b"S3 Number"),
        LexFault::Memory => Told::Memory,
    }
}

/// Of a fault of the parser.
fn of_parsing(fault: SyntaxFault) -> Told
    ensures { as_diagnostic result ≡ parsing fault }
{
    match fault {
        SyntaxFault::Syntax { spot } => Told::Pair(spot.line, spot.col, b"S4 Syntax"),
        SyntaxFault::Depth { spot } => Told::Pair(spot.line, spot.col, b"S5 Depth"),
        SyntaxFault::Memory => Told::Memory,
    }
}

/// Of a fault of typing.
fn of_typing(fault: TypeFault) -> Told
    ensures { as_diagnostic result ≡ typing fault }
{
    match fault {
        TypeFault::Duplicate { spot } => Told::Pair(spot.line, spot.col, b"T1 Duplicate"),
        TypeFault::Unknown { spot } => Told::Pair(spot.line, spot.col, b"T2 Unknown"),
        TypeFault::Mismatch { spot } => Told::Pair(spot.line, spot.col, b"T3 Mismatch"),
        TypeFault::Assign { spot } => Told::Pair(spot.line, spot.col, b"T4 Assign"),
        TypeFault::Bound { spot } => Told::Pair(spot.line, spot.col, b"T5 Bound"),
        TypeFault::Label { spot } => Told::Pair(spot.line, spot.col, b"T6 Label"),
        TypeFault::Call { spot } => Told::Pair(spot.line, spot.col, b"T7 Call"),
        TypeFault::Literal { spot } => Told::Pair(spot.line, spot.col, b"T8 Literal"),
        TypeFault::Names { spot } => Told::Pair(spot.line, spot.col, b"L3 Names"),
        TypeFault::Size => Told::Whole(b"L2 Size"),
        TypeFault::Memory => Told::Memory,
    }
}

/// Of a fault of a reader of instructions.
fn of_listing(fault: IlFault) -> Told
    ensures { as_diagnostic result ≡ diagnostic_of (refusal.Listing fault) }
{
    match fault {
        IlFault::Lex(fault) => of_lexing(fault),
        IlFault::Syntax(fault) => of_parsing(fault),
        IlFault::Types(fault) => of_typing(fault),
        IlFault::Instruction { spot } => Told::Pair(spot.line, spot.col, b"Q1 Instruction"),
        IlFault::Operand { spot } => Told::Pair(spot.line, spot.col, b"Q2 Operand"),
        IlFault::Target { spot } => Told::Pair(spot.line, spot.col, b"Q3 Target"),
        IlFault::Empty { spot } => Told::Pair(spot.line, spot.col, b"Q4 Empty"),
        IlFault::Mismatch { spot } => Told::Pair(spot.line, spot.col, b"Q5 Mismatch"),
        IlFault::Reserved { spot } => Told::Pair(spot.line, spot.col, b"Q6 Reserved"),
        IlFault::Memory => Told::Memory,
    }
}

/// Of a refusal of rows.
fn of_rows(fault: RowFault) -> Told
    ensures { as_diagnostic result ≡ diagnostic_of (refusal.Rows fault) }
{
    match fault {
        RowFault::Header => Told::Place(1, b"R1 Header"),
        RowFault::Width { row } => Told::Place(row, b"R2 Width"),
        RowFault::Cell { row, column } => Told::Pair(row, column, b"R3 Cell"),
        RowFault::Form => Told::Whole(b"R4 Form"),
        RowFault::Cycles => Told::Whole(b"L4 Cycles"),
        RowFault::Cycle => Told::Whole(b"R5 Cycle"),
        RowFault::Memory => Told::Memory,
    }
}

/// Of a fault of an image.
fn of_image(fault: ImageFault) -> Told
    ensures { as_diagnostic result ≡ diagnostic_of (refusal.Image fault) }
{
    match fault {
        ImageFault::Magic { at } => Told::Place(at, b"I1 Magic"),
        ImageFault::Version { at } => Told::Place(at, b"I2 Version"),
        ImageFault::Short { at } => Told::Place(at, b"I3 Short"),
        ImageFault::Field { at } => Told::Place(at, b"I4 Field"),
        ImageFault::Operand { at } => Told::Place(at, b"I5 Operand"),
        ImageFault::Table {
            at,
            stored,
            expected,
        } => Told::Correction {
            offset: at,
            stored,
            expected,
        },
        ImageFault::Rest { at } => Told::Place(at, b"I7 Rest"),
        ImageFault::Memory => Told::Memory,
    }
}

/// Of a fault of a script of faults.
fn of_script(fault: ScriptFault) -> Told
    ensures { as_diagnostic result ≡ diagnostic_of (refusal.Script fault) }
{
    match fault {
        ScriptFault::Form { line } => Told::Place(line, b"F1 Form"),
        ScriptFault::Site { line } => Told::Place(line, b"F2 Site"),
        ScriptFault::Early { line } => Told::Place(line, b"F3 Early"),
        ScriptFault::Kind { line } => Told::Place(line, b"F4 Kind"),
        ScriptFault::Group { line } => Told::Place(line, b"F5 Group"),
        ScriptFault::Twice { line } => Told::Place(line, b"F6 Twice"),
        ScriptFault::Faults { line } => Told::Place(line, b"L5 Faults"),
        ScriptFault::Memory => Told::Memory,
    }
}

/// Of a fault of the script of a wire.
fn of_wire(fault: WireFault) -> Told
    ensures { as_diagnostic result ≡ diagnostic_of (refusal.Wire fault) }
{
    match fault {
        WireFault::Form { line } => Told::Place(line, b"G1 Form"),
        WireFault::Range { line } => Told::Place(line, b"G2 Range"),
        WireFault::Unsent { line } => Told::Place(line, b"G3 Unsent"),
        WireFault::Memory => Told::Memory,
    }
}
