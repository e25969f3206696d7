//! Writing whole pieces.

ghost use Rattle.vcp_outside.specs.Written.{WritesTo};

use crate::failed::Failed;
use crate::sink::Sink;

/// Writes a whole piece, and nothing where it is empty. After `Failed` a front of it is written that lacks at
/// least its last byte. That comes only where the count of faults rose; after `Ok` it is as before.
pub fn write_all<O: Sink>(sink: &mut O, piece: &[u8]) -> Result<(), Failed>
    ensures { WritesTo (O.seen sink.old) (O.seen sink.new) piece.now result }
{
    let mut at = 0;
    'writing: while at < piece.len() {
        at += sink.write(&piece[at..])?;
    }
    Ok(())
}
