//! Images that are too large to be written out. They have the seed 0 and the step 1.

use crate::play::told::Told;
use signature_table::signature_of;
use vcp_base::Profile;

/// One of 16 letters.
fn letter(n: u32) -> u8 {
    b'a' + (n % 16) as u8
}

/// Tells an image of so many names of 2,000 bytes, which differ in their last three alone, up to 4,096.
pub fn tell_names(count: u32, told: Told) -> Told {
    let mut told = told
        .say(b"VCPANBD\n\0\x01\0\x01\0\0\0\0")
        .say(&count.to_be_bytes())
        .say(&[0; 20]);
    for n in 0..count {
        told = told
            .say(b"\0\0\x07\xd0")
            .say(&[b'a'; 1997])
            .say(&[letter(n), letter(n / 16), letter(n / 256)]);
    }
    told
}

/// Tells an image of so many turn nodes, each in the one before and with its number from 0, and so many operations CONST 0 of DINT, each in its node.
pub fn tell_chain(count: u32, told: Told) -> Told {
    let mut told = told
        .say(b"VCPANBD\n\0\x01\0\x01\0\0\0\0\0\0\0\x01\0\0\0\0\0\0\0\0\0\0\0\0")
        .say(&count.to_be_bytes())
        .say(&count.to_be_bytes())
        .say(b"\0\0\0\x01x");
    for i in 0..count {
        told = told
            .say(&i.to_be_bytes())
            .say(&[0; 8])
            .say(&i.to_be_bytes());
    }
    for i in 0..count {
        let correction = (signature_of(Profile::Narrow, 0, i) & 4294967295) as u32;
        told = told
            .say(&[1, 2, 2])
            .say(&[0; 28])
            .say(&i.saturating_add(1).to_be_bytes())
            .say(&correction.to_be_bytes());
    }
    told
}
