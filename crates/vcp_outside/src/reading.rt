//! Reading whole files.

ghost use Rattle.std.specs.Prelude.{◌≡◌, ◌≢◌, ◌+◌, ◌<◌, ◌≤◌, ◌^◌, ◌⊎◌, length, Err, IfSome, IfOk, OnOk, IsErrOf};
ghost use Rattle.std.specs.Io.{ReadsAtMost};
ghost use Rattle.std.specs.Io.KnownBytes.{ReadConsumes, IsAtEnd};
ghost use Rattle.vcp_outside.specs.Counts.{HasCause, Rose, last_count};
ghost use Rattle.vcp_outside.specs.Held.{OnlyBroken};
ghost use Rattle.vcp_outside.specs.ReadAll.{ReadsAll, TakesBetween, Takes};
ghost use Rattle.vcp_outside.specs.declared.reading.ReadAll.TheVariants as cause;

use crate::failed::Failed;
use crate::files::Files;
use std::alloc::Global;
use std::marker::Brand;
use std::sync::ledger::{Blank, Ledger};
use vcp_base::{Steps, Text};

/// Why a whole file isn't answered.
#[derive(Clone, Copy)]
pub enum ReadAll {
    /// The files failed, as for a name that is lacking; their count of faults rose.
    Failed,
    /// The file has more bytes than the limit.
    TooLong,
    /// An allocation failed.
    Memory,
}

// The most bytes that are read at once.
const CHUNK: u64 = 4096;

// One read, which is counted.
fn read_counted<F: Files, L: Ledger>(
    files: &mut F,
    buf: &mut [u8],
    reads: &mut Steps<L>,
) -> Result<usize, Failed>
    requires { 0 < length buf.old }
    ensures held { (F.seen files.new).held ≡ (F.seen files.old).held }
    ensures bound { ReadsAtMost result buf.new }
    ensures bytes { ReadConsumes (F.seen files.old).rest (F.seen files.new).rest result buf.new }
    ensures cause { HasCause (F.seen files.old).faults (F.seen files.new).faults result }
    ensures broken_later { (F.seen files.old).broken ≤ (F.seen files.new).broken }
    ensures broken_capped { (F.seen files.old).broken ≤ last_count → (F.seen files.new).broken ≤ last_count }
    ensures only_broken { OnlyBroken (F.seen files.old).held (F.seen files.old).broken (F.seen files.new).broken result }
    ensures counted { reads.new ≡ reads.old + 1 }
    ensures room { 0 < length buf.new }
{
    reads.tick();
    files.read(buf)
}

/// Reads a whole file as `read_all` does, and counts its reads, of which it makes at most
/// `limit + 1`.
pub fn read_all_counting<F: Files, L: Ledger>(
    alloc: Global,
    files: &mut F,
    name: &[u8],
    limit: u64,
    reads: &mut Steps<L>,
) -> Result<Text, ReadAll>
    requires { limit < 2 ^ 32 }

    // What is answered.
    ensures reads { IfSome (F.seen files.old).held (λ h. ReadsAll h name.now limit (F.seen files.old).broken (F.seen files.new).broken result) }
    ensures within { IfOk result (λ text. length text ≤ limit) }
    ensures failed { IsErrOf result ReadAll.Failed → Rose (F.seen files.old).faults (F.seen files.new).faults }
    ensures stayed { result ≢ Err cause.Failed → (F.seen files.new).faults ≡ (F.seen files.old).faults }

    // What was taken of the file, and in how many reads.
    ensures ended { OnOk result (IsAtEnd (F.seen files.new).rest) }
    ensures taken { IfSome (F.seen files.old).held (λ h. Takes h name.now limit (F.seen files.new).rest result) }
    ensures counted { reads.new ≤ reads.old + limit + 1 }
    ensures failed_taken { IsErrOf result ReadAll.Failed
        → IfSome (F.seen files.old).held (λ h. TakesBetween 0 limit h name.now (F.seen files.new).rest ⊎ (IsAtEnd (F.seen files.new).rest × (reads.new ≡ reads.old))) }

    // What stays.
    ensures held { (F.seen files.new).held ≡ (F.seen files.old).held }
    ensures later { (F.seen files.old).faults ≤ (F.seen files.new).faults }
    ensures capped { (F.seen files.old).faults ≤ last_count → (F.seen files.new).faults ≤ last_count }
    ensures broken_later { (F.seen files.old).broken ≤ (F.seen files.new).broken }
    ensures broken_capped { (F.seen files.old).broken ≤ last_count → (F.seen files.new).broken ≤ last_count }
{
    match files.begin(name) {
        Ok(()) => {}
        Err(Failed) => return Err(ReadAll::Failed),
    }
    let mut content = Vec::new(alloc);
    let mut chunk = [0u8; CHUNK as usize];
    'reading: while content.len() as u64 <= limit {
        let room = (limit + 1 - content.len() as u64).min(CHUNK) as usize;
        match read_counted(files, &mut chunk[..room], reads) {
            Ok(0) => return Ok(Text::from_vec(content)),
            Ok(count) => match content.extend_from_slice(&chunk[..count]) {
                Ok(()) => {}
                Err(_) => return Err(ReadAll::Memory),
            },
            Err(Failed) => return Err(ReadAll::Failed),
        }
    }
    Err(ReadAll::TooLong)
}

// Reads a whole file, with a new counter of the ledger that the blank becomes.
fn read_all_with<F: Files, L: Ledger>(
    alloc: Global,
    files: &mut F,
    name: &[u8],
    limit: u64,
    blank: Blank,
) -> Result<Text, ReadAll>
    requires limit { limit < 2 ^ 32 }
    requires name { blank.name ≡ L.name }
    requires parts { blank.parts ≡ L.parts }
    requires some { 0 < L.parts }
    ensures reads { IfSome (F.seen files.old).held (λ h. ReadsAll h name.now limit (F.seen files.old).broken (F.seen files.new).broken result) }
    ensures within { IfOk result (λ text. length text ≤ limit) }
    ensures failed { IsErrOf result ReadAll.Failed → Rose (F.seen files.old).faults (F.seen files.new).faults }
    ensures stayed { result ≢ Err cause.Failed → (F.seen files.new).faults ≡ (F.seen files.old).faults }
    ensures ended { OnOk result (IsAtEnd (F.seen files.new).rest) }
    ensures taken { IfSome (F.seen files.old).held (λ h. Takes h name.now limit (F.seen files.new).rest result) }
    ensures held { (F.seen files.new).held ≡ (F.seen files.old).held }
    ensures later { (F.seen files.old).faults ≤ (F.seen files.new).faults }
    ensures capped { (F.seen files.old).faults ≤ last_count → (F.seen files.new).faults ≤ last_count }
    ensures broken_later { (F.seen files.old).broken ≤ (F.seen files.new).broken }
    ensures broken_capped { (F.seen files.old).broken ≤ last_count → (F.seen files.new).broken ≤ last_count }
{
    let mut reads = Steps::<L>::none(blank);
    read_all_counting(alloc, files, name, limit, &mut reads)
}

/// Reads a whole file of at most `limit` bytes, in at most `limit + 1` reads. The limit is below 2^32.
///
/// `Failed` where the name is lacking or a call of the files failed, `TooLong` where the file has more
/// bytes than the limit, and `Memory` where an allocation failed. After `Ok` the file is at its
/// end. After a refusal what was taken stays taken: at most `limit` bytes after `Failed`, `limit + 1`
/// after `TooLong`, and 1 to `limit + 1` after `Memory`.
///
/// After `Failed` alone the count of faults rose, and else it is as before: no failure was passed over, and
/// none was tried again. How many reads are made is said by `read_all_counting`, of which this is the call
/// with a counter of its own.
pub fn read_all<F: Files>(
    alloc: Global,
    files: &mut F,
    name: &[u8],
    limit: u64,
) -> Result<Text, ReadAll>
    requires { limit < 2 ^ 32 }

    // What is answered.
    ensures reads { IfSome (F.seen files.old).held (λ h. ReadsAll h name.now limit (F.seen files.old).broken (F.seen files.new).broken result) }
    ensures within { IfOk result (λ text. length text ≤ limit) }
    ensures failed { IsErrOf result ReadAll.Failed → Rose (F.seen files.old).faults (F.seen files.new).faults }
    ensures stayed { result ≢ Err cause.Failed → (F.seen files.new).faults ≡ (F.seen files.old).faults }

    // What was taken of the file.
    ensures ended { OnOk result (IsAtEnd (F.seen files.new).rest) }
    ensures taken { IfSome (F.seen files.old).held (λ h. Takes h name.now limit (F.seen files.new).rest result) }

    // What stays.
    ensures held { (F.seen files.new).held ≡ (F.seen files.old).held }
    ensures later { (F.seen files.old).faults ≤ (F.seen files.new).faults }
    ensures capped { (F.seen files.old).faults ≤ last_count → (F.seen files.new).faults ≤ last_count }
    ensures broken_later { (F.seen files.old).broken ≤ (F.seen files.new).broken }
    ensures broken_capped { (F.seen files.old).broken ≤ last_count → (F.seen files.new).broken ≤ last_count }
{
    read_all_with::<F, Brand>(alloc, files, name, limit, Blank::new(1))
}
