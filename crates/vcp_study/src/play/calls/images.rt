//! Images that are read and written again.

ghost use Rattle.std.specs.Prelude.{IfOk};
ghost use Rattle.signature_table.specs.Signatures.{IsTableOf};

use crate::play::calls::graphs::text_in;
use crate::play::calls::words::u32_of;
use crate::play::sessions::came::Came;
use crate::play::texts::{copy_of, word};
use crate::play::told::Told;
use image_file::{ImageFault, read_image, write_image};
use op_graph::Graph;
use signature_table::Table;
use std::alloc::Global;
use vcp_base::{MOST_IMAGE_BYTES, Memory, Text, same_bytes};

/// The graph and the table of bytes, if they aren't too many.
pub fn read(alloc: Global, bytes: &[u8]) -> Result<(Graph, Table), ImageFault>
    ensures { IfOk result (λ x. IsTableOf x.1 x.0) }
{
    if bytes.len() as u64 > MOST_IMAGE_BYTES {
        return Err(ImageFault::Memory);
    }
    read_image(alloc, bytes)
}

/// The image of what bytes read to.
fn written_again(alloc: Global, bytes: &[u8]) -> Result<Text, ImageFault> {
    match read(alloc, bytes) {
        Ok((graph, table)) => match write_image(alloc, &graph, &table) {
            Ok(image) => Ok(image),
            Err(Memory) => Err(ImageFault::Memory),
        },
        Err(fault) => Err(fault),
    }
}

/// Tells the image of what a file reads to.
pub fn tell_again(came: &mut Came, name: &[u8], told: Told) -> Told {
    let text = text_in(came, name);
    match written_again(came.alloc, text.bytes()) {
        Ok(image) => told.say(image.bytes()),
        Err(_) => told.say(b"no image"),
    }
}

/// Whether bytes are told to end too early, at their end.
fn is_short(alloc: Global, bytes: &[u8]) -> bool {
    match read(alloc, bytes) {
        Err(ImageFault::Short { at }) => at as usize == bytes.len(),
        _ => false,
    }
}

/// Whether the byte at a place may have each value, and the bytes are refused then, or are the image of what they read to.
fn may_change(alloc: Global, bytes: &[u8], at: usize) -> bool {
    let mut bytes = copy_of(alloc, bytes);
    let mut may = true;
    for value in 0..=255u8 {
        if let Some(byte) = bytes.get_mut(at) {
            *byte = value;
        }
        match written_again(alloc, &bytes) {
            Ok(image) => may = may && same_bytes(image.bytes(), &bytes),
            Err(ImageFault::Memory) => may = false,
            Err(_) => {}
        }
    }
    may
}

/// Tells at how many places of a file, from one to before another, the bytes before it are told to end too early there, and the byte at it may have each
/// value: `M FROM TO`.
pub fn tell_places(came: &mut Came, n: &[i128; 12], words: &[u8], told: Told) -> Told {
    let text = text_in(came, word(words, 0));
    let bytes = text.bytes();
    let mut places = 0u32;
    for at in u32_of(n[1])..u32_of(n[2]) {
        let front = bytes.get(..at as usize).unwrap_or(bytes);
        if is_short(came.alloc, front) && may_change(came.alloc, bytes, at as usize) {
            places = places.saturating_add(1);
        }
    }
    told.number(places as i128)
}
