//! Bytes, read as a graph and its table.

ghost use Rattle.std.specs.Prelude.{◌≡◌, ◌≤◌, length, ℕ, IfOk};
ghost use Rattle.vcp_base.specs.Limits.{most_image_bytes};
ghost use Rattle.op_graph.specs.Lists.{Lists};
ghost use Rattle.signature_table.specs.Signatures.{IsTableOf, table_of};
ghost use Rattle.image_file.specs.declared.fields.fault.ReadError.TheVariants as errors;
ghost use Rattle.image_file.specs.Image.{image_of};
ghost use Rattle.image_file.specs.Graphs.{HasImage, placed as placed_of, Reads, OrMemory};

use crate::fault::ImageFault;
use crate::fields::{FieldFault, ReadError};
use crate::laws::images_are_told_apart;
use crate::whole::read;
use op_graph::Graph;
use signature_table::Table;
use std::alloc::Global;

/// The fault with its offset, in so many bytes.
fn placed(len: usize, fault: FieldFault) -> ImageFault
    requires { len ≤ most_image_bytes }
    ensures { result ≡ placed_of len fault }
{
    match fault {
        FieldFault::Magic { left } => ImageFault::Magic {
            at: len.saturating_sub(left) as u32,
        },
        FieldFault::Version { left } => ImageFault::Version {
            at: len.saturating_sub(left) as u32,
        },
        FieldFault::Short => ImageFault::Short { at: len as u32 },
        FieldFault::Field { left } => ImageFault::Field {
            at: len.saturating_sub(left) as u32,
        },
        FieldFault::Operand { left } => ImageFault::Operand {
            at: len.saturating_sub(left) as u32,
        },
        FieldFault::Table {
            left,
            stored,
            expected,
        } => ImageFault::Table {
            at: len.saturating_sub(left) as u32,
            stored,
            expected,
        },
        FieldFault::Rest { left } => ImageFault::Rest {
            at: len.saturating_sub(left) as u32,
        },
    }
}

/// What is answered for an error, in so many bytes.
fn told(len: usize, error: ReadError) -> ImageFault
    requires { len ≤ most_image_bytes }
    ensures memory { error ≡ errors.Memory → result ≡ ImageFault.Memory }
    ensures fault { (f : _) → error ≡ errors.FieldFault f → result ≡ placed_of len f }
{
    match error {
        ReadError::Memory => ImageFault::Memory,
        ReadError::FieldFault(fault) => placed(len, fault),
    }
}

/// The graph and the table that the bytes say.
fn answered(alloc: Global, bytes: &[u8]) -> Result<(Graph, Table), ImageFault>
    requires { length bytes.now ≤ most_image_bytes }
    ensures { Reads bytes.now result }
{
    let whole = match read(alloc, bytes) {
        Ok(whole) => whole,
        Err(error) => return Err(told(bytes.len(), error)),
    };
    match whole.into_graph(alloc) {
        Ok(both) => Ok(both),
        Err(_) => Err(ImageFault::Memory),
    }
}

/// Reads the image of a graph, a seed and a step. There are at most 16,777,216 bytes.
///
/// Ok exactly where the bytes are such an image: the graph, and its table of that seed and step. Else
/// the fault at the first place where the format fails, field by field, or `Memory`.
///
/// The first place where the format fails: the bytes begin with the spellings of fields, each of which keeps
/// its rule, and then a field is whole and breaks its rule, at its first byte; or they end within it, which
/// is `Short` at their end; or there is no next field, which is `Rest` at the first byte that is left.
pub fn read_image(alloc: Global, bytes: &[u8]) -> Result<(Graph, Table), ImageFault>
    requires { length bytes.now ≤ most_image_bytes }
    ensures answer { Reads bytes.now result }
    ensures table { IfOk result (λ x. IsTableOf x.1 x.0) }
    ensures image { (g : Lists) (seed step : ℕ) → HasImage g seed step → bytes.now ≡ image_of g seed step → OrMemory result (g, table_of seed step g) }
{
    images_are_told_apart();
    answered(alloc, bytes)
}
