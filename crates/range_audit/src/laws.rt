//! Laws of what is found of operations. The functions do nothing: each states a law.

ghost use Rattle.std.specs.Prelude.{◌≡◌, ℤ, List, [], length};
ghost use Rattle.op_graph.specs.Lists.{Lists};
ghost use Rattle.range_audit.specs.Audit.{IsRangeAudit, named_below, NeverStops, RowsIn, IsAuditWithin, NeverStopsWithin};
ghost use Rattle.range_walk.specs.declared.range.Range.{Range};
ghost use Rattle.range_walk.specs.Known.{KnownRanges};

/// Where no operation of a graph may stop, no run of the graph over rows that fit ends at a stop.
pub fn what_names_nothing_never_stops()
    ensures { (g : Lists) (a : KnownRanges) → IsRangeAudit g a → named_below a.stops (length g.operations) ≡ 0 → NeverStops g }
{}

/// Where ranges of inputs are assumed and no operation of a graph may stop, no run of the graph over rows in them that fit ends at a stop.
pub fn what_names_nothing_never_stops_within()
    ensures { (g : Lists) (inputs : List Range) (a : KnownRanges) → IsAuditWithin g inputs a → named_below a.stops (length g.operations) ≡ 0
        → NeverStopsWithin g inputs }
{}

/// Where no range is assumed, all rows are in those that are.
pub fn all_rows_are_in_no_ranges()
    ensures { (rows : List (List ℤ)) → RowsIn [] rows }
{}
