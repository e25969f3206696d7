//! Made programs, by the sums of their texts.

use crate::play::told::Told;
use program_maker::make;
use std::alloc::Global;
use vcp_base::Memory;

/// Tells how many bytes there are, with their FNV-1a sum of 64 bits.
fn tell_sum(bytes: &[u8], told: Told) -> Told {
    let mut sum: u64 = 0xcbf2_9ce4_8422_2325;
    for byte in bytes {
        sum = (sum ^ *byte as u64).wrapping_mul(0x100_0000_01b3);
    }
    told.number(bytes.len() as i128).number(sum as i128)
}

/// Tells how many bytes the made program of a number has, with their sum, and the same of its rows.
pub fn tell_made(alloc: Global, number: u32, told: Told) -> Told {
    match make(alloc, number) {
        Ok(made) => tell_sum(made.rows.bytes(), tell_sum(made.source.bytes(), told)),
        Err(Memory) => told.say(b"no memory"),
    }
}
