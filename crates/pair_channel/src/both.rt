//! How a pair's cycle ends, by the ends and the rows of its two channels.

ghost use Rattle.std.specs.Prelude.{◌≡◌, ◌<◌, ◌^◌, length};
ghost use Rattle.pair_channel.specs.PairEnds.{both as both_of, released_unless};
ghost use Rattle.pair_channel.specs.PairStates.{cycles_after, ended_after, pair_row_after};
ghost use Rattle.vcp_base.specs.Differences.{first_difference};
ghost use Rattle.vcp_base.specs.Limits.{most_cycles};

use crate::pair_end::PairEnd;
use coded_machine::CycleEnd;
use std::mem;
use vcp_base::Row;

/// How a cycle ends that the two channels ended so, with these rows of outputs where they released it.
pub(crate) fn both(first: &CycleEnd, second: &CycleEnd, row: &Row, other: &Row) -> PairEnd
    requires few { length row.now < 2 ^ 32 }
    requires width { length other.now ≡ length row.now }
    ensures { result ≡ both_of first.now second.now row.now other.now }
{
    if first == second {
        match *first {
            CycleEnd::Released => compare_rows(row, other),
            CycleEnd::Stopped { op, kind } => PairEnd::Stopped { op, kind },
            refused => PairEnd::Parted {
                first: refused,
                second: refused,
            },
        }
    } else {
        PairEnd::Parted {
            first: *first,
            second: *second,
        }
    }
}

/// The end of a cycle that both channels released with these rows: the first output whose values differ, if there is one.
fn compare_rows(row: &Row, other: &Row) -> PairEnd
    requires few { length row.now < 2 ^ 32 }
    requires width { length other.now ≡ length row.now }
    ensures { result ≡ released_unless (first_difference row.now other.now 0) }
{
    let count = row.len() as u32;
    'outputs: for output in 0..count {
        let first = row.at(output as usize);
        let second = other.at(output as usize);
        if first != second {
            return PairEnd::Differ {
                output,
                first,
                second,
            };
        }
    }
    PairEnd::Released
}

/// Gives the caller the row of a cycle that was released and counts it, or keeps any other end.
pub(crate) fn settle(
    end: &PairEnd,
    row: &mut Row,
    out: &mut Row,
    cycles: &mut u32,
    ended: &mut Option<PairEnd>,
)
    requires few { cycles.old < most_cycles }
    requires width { length out.old ≡ length row.old }
    requires going { ended.old ≡ None }
    ensures out { out.new ≡ pair_row_after end.now row.old out.old }
    ensures width { length out.new ≡ length out.old }
    ensures row { length row.new ≡ length row.old }
    ensures cycles { cycles.new ≡ cycles_after end.now cycles.old }
    ensures ended { ended.new ≡ ended_after end.now }
{
    match *end {
        PairEnd::Released => {
            mem::swap(row, out);
            *cycles += 1;
        }
        other => *ended = Some(other),
    }
}
