//! The digest of an image: SHA-256 of its bytes, in hexadecimal digits. It tells which image a text was made for.

ghost use Rattle.std.specs.Prelude.{◌≡◌, ◌≤◌, All, IfOk, length};
ghost use Rattle.hex.specs.Hex.{encode_lower};
ghost use Rattle.signature_table.specs.Signatures.{IsTableOf};
ghost use Rattle.fault_sites.specs.Digest.{digest_of};

use hex::encode_to_slice;
use image_file::write_image;
use op_graph::Graph;
use sha2::{Digest, Sha256};
use signature_table::Table;
use std::alloc::Global;
use vcp_base::Memory;

/// The hexadecimal digits of 32 bytes, two a byte, with lower case letters.
fn digits_of(hash: &[u8]) -> [u8; 64]
    requires { length hash.now ≡ 32 }
    ensures digits { result ≡ encode_lower hash.now }
    ensures plain { All (λ b. 32 ≤ b) result }
{
    let mut digits = [0; 64];
    let _written = encode_to_slice(hash, &mut digits);
    digits
}

/// The 64 digits of the digest of the image of a graph with the seed and the step of its table. Want of
/// memory is the only refusal. The digest is SHA-256 of the image's bytes (FIPS 180-4), in hexadecimal
/// digits.
pub fn image_digest(alloc: Global, graph: &Graph, table: &Table) -> Result<[u8; 64], Memory>
    requires { IsTableOf table.now graph.now }
    ensures digits { IfOk result (λ d. d ≡ digest_of graph.now table.now.seed table.now.step) }
    ensures count { IfOk result (λ d. length d ≡ 64) }
    // They are no control characters, so that they can stand in a line.
    ensures plain { IfOk result (λ d. All (λ b. 32 ≤ b) d) }
{
    let image = write_image(alloc, graph, table)?;
    let hash = Sha256::digest(image.bytes());
    Ok(digits_of(&hash))
}
