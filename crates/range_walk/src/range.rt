//! Ranges of values.

ghost use Rattle.std.specs.Prelude.{◌≡◌, ◌≢◌, ◌⊎◌, ◌&&◌, ◌||◌, ◌<◌, ℤ, true, false, pos, ◌≤ℤ◌, ◌<ℤ◌, int_lt, length, slice_get, Some};
ghost use Rattle.vcp_base.specs.Types.{fits as fits_of};
ghost use Rattle.range_walk.specs.Intervals.{IsIn, IsWithin, LiesIn};
ghost use Rattle.range_walk.specs.Known.{is_any_named};

use vcp_base::{Ty, greatest, least};

/// The integers from `low` to `high`, without 0 where `nonzero`. Where `low` is above `high` there is none.
#[derive(Clone, Copy)]
pub struct Range {
    /// The least of them.
    pub low: i64,
    /// The greatest of them.
    pub high: i64,
    /// Whether 0 is left out.
    pub nonzero: bool,
}

/// Why an operation may stop.
#[derive(Clone, Copy)]
pub struct Stops {
    /// Its value may be outside its type.
    pub range: bool,
    /// Its divisor may be 0.
    pub div_zero: bool,
}

impl Stops {
    /// No reason to stop.
    pub fn none() -> Stops
        ensures { result ≡ record { range = false; div_zero = false } }
    {
        Stops {
            range: false,
            div_zero: false,
        }
    }

    /// Whether an operation may stop, however it may.
    pub fn are_any(self) -> bool
        ensures { result ≡ is_any_named (Some self) }
    {
        self.range || self.div_zero
    }
}

/// Bounds of a value that isn't known to be one of a type: the integers from `low` to `high`, without 0 where `nonzero`.
#[derive(Clone, Copy)]
pub(crate) struct Bounds {
    pub(crate) low: i128,
    pub(crate) high: i128,
    pub(crate) nonzero: bool,
}

/// Whether both hold.
pub fn both_hold(x: bool, y: bool) -> bool
    ensures { result ≡ (x && y) }
{
    x && y
}

/// Whether one of the two holds.
pub fn either_holds(x: bool, y: bool) -> bool
    ensures { result ≡ (x || y) }
{
    x || y
}

/// The range at place `i`.
pub fn range_at(ranges: &[Range], i: usize) -> Range
    requires { i < length ranges.now }
    ensures { slice_get ranges.now i ≡ Some result }
{
    ranges[i]
}

/// The range of operation `n`.
pub fn earlier_range(known: &[Range], n: u32) -> Range
    requires { n < length known.now }
    ensures { slice_get known.now n ≡ Some result }
{
    range_at(known, n as usize)
}

impl Range {
    /// No value.
    pub fn none() -> Range
        ensures { (v : ℤ) → IsIn result v → ⊥ }
    {
        Range {
            low: 1,
            high: 0,
            nonzero: false,
        }
    }

    /// The values of the range that are no more than `m`.
    pub fn up_to(self, m: i64) -> Range
        ensures { (v : ℤ) → IsIn self v → v ≤ℤ m → IsIn result v }
    {
        Range {
            low: self.low,
            high: m,
            nonzero: self.nonzero,
        }
    }

    /// The values of the range that are more than `m`.
    pub fn above(self, m: i64) -> Range
        ensures { (v : ℤ) → IsIn self v → m <ℤ v → IsIn result v }
    {
        Range {
            low: m.saturating_add(1),
            high: self.high,
            nonzero: self.nonzero,
        }
    }

    /// The values of a type.
    pub fn of_type(ty: Ty) -> Range
        ensures { (v : ℤ) → fits_of ty v ≡ true → IsIn result v }
    {
        Range {
            low: least(ty),
            high: greatest(ty),
            nonzero: false,
        }
    }

    /// The values of the range that are of the type.
    pub(crate) fn in_type(self, ty: Ty) -> Range
        ensures holds { (v : ℤ) → IsIn self v → fits_of ty v ≡ true → IsIn result v }
        ensures lies { LiesIn ty result }
    {
        Range {
            low: self.low.max(least(ty)),
            high: self.high.min(greatest(ty)),
            nonzero: self.nonzero,
        }
    }

    /// One value.
    pub fn only(v: i64) -> Range
        ensures { IsIn result v }
    {
        Range {
            low: v,
            high: v,
            nonzero: v != 0,
        }
    }

    /// The same range with its ends moved past 0 where 0 is left out, and without 0 where that is past an end.
    fn tightened(self) -> Range
        ensures { (v : ℤ) → IsIn self v → IsIn result v }
    {
        if self.low > 0 || self.high < 0 {
            Range {
                low: self.low,
                high: self.high,
                nonzero: true,
            }
        } else if !self.nonzero {
            self
        } else {
            Range {
                low: if self.low == 0 { 1 } else { self.low },
                high: if self.high == 0 { -1 } else { self.high },
                nonzero: true,
            }
        }
    }

    /// The values of the range that are within these bounds.
    pub(crate) fn met(self, bounds: Bounds) -> Range
        ensures { (v : ℤ) → IsIn self v → IsWithin bounds v → IsIn result v }
    {
        let low = bounds.low.clamp(self.low as i128, i64::MAX as i128) as i64;
        let high = bounds.high.clamp(i64::MIN as i128, self.high as i128) as i64;
        let nonzero = either_holds(self.nonzero, bounds.nonzero);
        let met = Range { low, high, nonzero };
        met.tightened()
    }

    /// The same range without 0.
    pub(crate) fn without_zero(self) -> Range
        ensures { (v : ℤ) → IsIn self v → v ≢ pos 0 → IsIn result v }
    {
        let range = Range {
            low: self.low,
            high: self.high,
            nonzero: true,
        };
        range.tightened()
    }

    /// The range as bounds.
    pub(crate) fn bounds(self) -> Bounds
        ensures { (v : ℤ) → IsIn self v → IsWithin result v }
    {
        Bounds {
            low: self.low as i128,
            high: self.high as i128,
            nonzero: self.nonzero,
        }
    }

    /// The values that are in both ranges.
    pub(crate) fn shared(self, other: Range) -> Range
        ensures { (v : ℤ) → IsIn self v → IsIn other v → IsIn result v }
    {
        let bounds = other.bounds();
        self.met(bounds)
    }

    /// Whether no value is in the range.
    pub fn is_empty(self) -> bool
        ensures value { result ≡ int_lt self.high self.low }
        ensures none { result ≡ true → (v : ℤ) → IsIn self v → ⊥ }
    {
        self.high < self.low
    }

    /// Whether `v` isn't in the range.
    pub fn excludes(self, v: i64) -> bool
        ensures out { result ≡ true → IsIn self v → ⊥ }
        ensures inside { result ≡ false → IsIn self v }
    {
        v < self.low || self.high < v || (self.nonzero && v == 0)
    }

    /// Whether the range has no value but `v`.
    pub(crate) fn is_only(self, v: i64) -> bool
        ensures { result ≡ true → (x : ℤ) → IsIn self x → x ≡ v }
    {
        self.low == v && self.high == v
    }

    /// Whether the range has no values but 0 and 1.
    pub(crate) fn is_truth(self) -> bool
        ensures { result ≡ true → (v : ℤ) → IsIn self v → (v ≡ pos 0) ⊎ (v ≡ pos 1) }
    {
        self.low >= 0 && self.high <= 1
    }

    /// The values of the range but `k`, where that is an end of it, or 0.
    pub(crate) fn without_value(self, k: i64) -> Range
        ensures { (v : ℤ) → IsIn self v → v ≢ k → IsIn result v }
    {
        if k == 0 {
            return self.without_zero();
        }
        if self.low == k {
            return self.above(k);
        }
        if self.low < k && self.high == k {
            return self.up_to(k - 1);
        }
        self
    }

    /// The values of the range that aren't equal to one in the other range, as far as that is seen: where that has one value.
    pub(crate) fn without(self, other: Range) -> Range
        ensures { (v w : ℤ) → IsIn self v → IsIn other w → v ≢ w → IsIn result v }
    {
        let k = other.low;
        let is_one = other.is_only(k);
        if is_one {
            return self.without_value(k);
        }
        self
    }

    /// The values of both ranges, and those between them; of one of the two where the other has none.
    pub fn joined(self, other: Range) -> Range
        ensures first { (v : ℤ) → IsIn self v → IsIn result v }
        ensures second { (v : ℤ) → IsIn other v → IsIn result v }
    {
        let none_here = self.is_empty();
        if none_here {
            return other;
        }
        let none_there = other.is_empty();
        if none_there {
            return self;
        }
        Range {
            low: self.low.min(other.low),
            high: self.high.max(other.high),
            nonzero: both_hold(self.nonzero, other.nonzero),
        }
    }

    /// Whether each value of the range is in the other one.
    pub fn is_inside(self, other: Range) -> bool
        ensures { result ≡ true → (v : ℤ) → IsIn self v → IsIn other v }
    {
        other.low <= self.low && self.high <= other.high && (self.nonzero || !other.nonzero)
    }
}

impl Bounds {
    /// The integers from `low` to `high`.
    pub(crate) fn between(low: i128, high: i128) -> Bounds
        ensures { (v : ℤ) → low ≤ℤ v → v ≤ℤ high → IsWithin result v }
    {
        Bounds {
            low,
            high,
            nonzero: false,
        }
    }

    /// One value.
    pub(crate) fn only(v: i128) -> Bounds
        ensures { IsWithin result v }
    {
        Bounds {
            low: v,
            high: v,
            nonzero: v != 0,
        }
    }

    /// Whether each integer within the bounds is a value of the type.
    pub(crate) fn are_of_type(self, ty: Ty) -> bool
        ensures { result ≡ true → (v : ℤ) → IsWithin self v → fits_of ty v ≡ true }
    {
        let first = least(ty) as i128;
        let last = greatest(ty) as i128;
        first <= self.low && self.high <= last
    }
}
