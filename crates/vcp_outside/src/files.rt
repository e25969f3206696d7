//! Files that are read.

ghost use Rattle.std.specs.Prelude.{◌≡◌, ◌<◌, ◌≤◌, length};
ghost use Rattle.std.specs.Io.{ReadsAtMost};
ghost use Rattle.std.specs.Io.KnownBytes.{ReadConsumes};
ghost use Rattle.vcp_outside.specs.Counts.{HasCause, last_count};
ghost use Rattle.vcp_outside.specs.Held.{Begins, OnlyLackingOrBroken, OnlyBroken};
ghost use Rattle.vcp_outside.specs.Seen.{FilesSeen};

use crate::failed::Failed;

/// Named files, of which one at a time is read from its front. A call fails only where the count of faults
/// rose in it; of files in memory only for a lacking name or where `broken` rose. A call that answers `Ok`
/// leaves the count as it was. Counts never fall, and stop at 2^64 - 1. No call changes what is held.
pub trait Files {
    /// What is seen of them: the bytes under each name and the unread ones, where they are known, and the counts of failures.
    ghost seen: { Self → FilesSeen };

    /// Goes to the front of a file. It fails for a name that is lacking, and then nothing is unread. After
    /// `Ok` the bytes that are held under the name are unread.
    fn begin(&mut self, name: &[u8]) -> Result<(), Failed>
        ensures held { (seen self.new).held ≡ (seen self.old).held }
        ensures begins { Begins (seen self.old).held name.now result (seen self.new).rest }
        ensures cause { HasCause (seen self.old).faults (seen self.new).faults result }
        ensures broken_later { (seen self.old).broken ≤ (seen self.new).broken }
        ensures broken_capped { (seen self.old).broken ≤ last_count → (seen self.new).broken ≤ last_count }
        ensures lacking { OnlyLackingOrBroken (seen self.old).held name.now (seen self.old).broken (seen self.new).broken result };

    /// Moves some unread bytes to the front of the buffer: at least one, and none only at the end.
    /// After `Failed` the same bytes are unread.
    fn read(&mut self, buf: &mut [u8]) -> Result<usize, Failed>
        requires { 0 < length buf.old }
        ensures held { (seen self.new).held ≡ (seen self.old).held }
        ensures bound { ReadsAtMost result buf.new }
        ensures bytes { ReadConsumes (seen self.old).rest (seen self.new).rest result buf.new }
        ensures cause { HasCause (seen self.old).faults (seen self.new).faults result }
        ensures broken_later { (seen self.old).broken ≤ (seen self.new).broken }
        ensures broken_capped { (seen self.old).broken ≤ last_count → (seen self.new).broken ≤ last_count }
        ensures only_broken { OnlyBroken (seen self.old).held (seen self.old).broken (seen self.new).broken result };
}
