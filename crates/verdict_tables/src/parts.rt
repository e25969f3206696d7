//! A campaign in parts.

ghost use Rattle.std.specs.Prelude.{◌≡◌, ◌<◌, ◌++◌, decimal, length};
ghost use Rattle.vcp_outside.specs.Pens.{Goes};
ghost use Rattle.fault_script.specs.Groups.{line_of};
ghost use Rattle.verdict_tables.specs.Parts.{mark_of as mark_of_part, mark_text};

use crate::verdicts::Verdicts;
use fault_script::{Group, Script};
use vcp_base::List;
use vcp_outside::Pen;

/// How many parts there may be.
pub const MOST_PARTS: u32 = 10_000;

/// A part of a campaign: a script, and the verdicts of its groups.
pub struct Part {
    /// The script.
    pub script: Script,
    /// The verdicts of its groups, in their order.
    pub verdicts: Verdicts,
}

impl Drop for Part {
    fn drop(self) {
        let Part {
            script: _,
            verdicts: _,
        } = self;
    }
}

/// The parts of a campaign, seen as a list.
pub type Parts = List<Part>;

/// Of so many parts, the number of part `n`, counted from 0, by which a line that names one of its groups begins.
pub(crate) fn mark_of(many: usize, n: usize) -> Option<u64>
    requires { n < many }
    ensures { result ≡ mark_of_part many n }
{
    if many == 1 { None } else { Some(n as u64 + 1) }
}

/// Goes on with such a number, and that of the group's line.
pub(crate) fn then_group<P: Pen>(pen: P, mark: Option<u64>, group: &Group) -> P
    requires { 0 < length group.now }
    ensures { Goes (P.seen pen) (P.seen result) (mark_text mark ++ decimal (line_of group.now)) }
{
    let at = group.line() as u64;
    match mark {
        Some(number) => pen.count(number).numbered(b":", at),
        None => pen.count(at),
    }
}
