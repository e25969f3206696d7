//! Files that are read whole.

ghost use Rattle.std.specs.Prelude.{◌≡◌, ◌≢◌, ◌<◌, ◌≤◌, ◌^◌, IfSome, IfOk, OnOk, Err, length};
ghost use Rattle.std.specs.Io.KnownBytes.{IsAtEnd};
ghost use Rattle.vcp_outside.specs.Counts.{Rose};
ghost use Rattle.vcp_inputs.specs.Files.{FileRead, LeavesLong};
ghost use Rattle.vcp_inputs.specs.declared.refusal.NoInput.TheVariants as input;
ghost use Rattle.vcp_inputs.specs.declared.refusal.Refusal.{Refusal as RefusalOf};
ghost use Rattle.vcp_inputs.specs.declared.refusal.Refusal.TheVariants as refusal;

use crate::refusal::NoInput;
use std::alloc::Global;
use vcp_base::Text;
use vcp_outside::{Files, read_all};

/// Reads the file under a name whole, which has at most so many bytes, fewer than 2^32. It is lacking, or the
/// files broke, or it has more bytes than the limit, exactly so. It is unread only where the files' count of
/// faults rose, and else that count is as it was: no failure was passed over or tried again. After `Ok`, and
/// after each refusal but that of the length, nothing is unread; after that one, all but the bytes up to the
/// limit and one more. So it is of each file that is loaded below, and no refusal is want of memory.
pub fn read_file<F: Files>(
    alloc: Global,
    files: &mut F,
    name: &Text,
    limit: u64,
) -> Result<Text, NoInput>
    requires { limit < 2 ^ 32 }
    // What is answered: the bytes, or why there are none.
    ensures reads { IfSome (F.seen files.old).held (λ h. FileRead h name.now limit (F.seen files.old).broken (F.seen files.new).broken result) }
    ensures within { IfOk result (λ text. length text ≤ limit) }
    ensures unread { result ≡ Err input.Unread → Rose (F.seen files.old).faults (F.seen files.new).faults }
    ensures long { (r : RefusalOf) → result ≡ Err (input.Refused r) → r ≡ refusal.Bytes }
    // What was taken of the file: all, unless it has too many bytes.
    ensures ended { OnOk result (IsAtEnd (F.seen files.new).rest) }
    ensures left { result ≡ Err (input.Refused refusal.Bytes) → IfSome (F.seen files.old).held (LeavesLong name.now limit (F.seen files.new).rest) }
    // What stays.
    ensures stayed { result ≢ Err input.Unread → (F.seen files.new).faults ≡ (F.seen files.old).faults }
    ensures held { (F.seen files.new).held ≡ (F.seen files.old).held }
    ensures later { (F.seen files.old).faults ≤ (F.seen files.new).faults }
    ensures broken_later { (F.seen files.old).broken ≤ (F.seen files.new).broken }
{
    match read_all(alloc, files, name.bytes(), limit) {
        Ok(text) => Ok(text),
        Err(fault) => Err(NoInput::from(fault)),
    }
}
