//! How many faults are reported as what.

ghost use Rattle.std.specs.Prelude.{◌≡◌, ◌+◌, ◌<◌, ◌^◌, []};
ghost use Rattle.fault_cover.specs.CoverText.{leaves_any as leaves_any_of, refused_only as refused_only_of, sum_of, tally};
ghost use Rattle.fault_cover.specs.Counts.{counted, together};

use crate::effect::Effect;

/// How many faults are reported as what. A graph has fewer than 2^40 faults of a class.
#[derive(Clone, Copy)]
pub struct Tally {
    /// Refused.
    pub refused: u64,
    /// Nothing.
    pub nothing: u64,
    /// Showing.
    pub shows: u64,
    /// Running on.
    pub runs_on: u64,
    /// Beyond the horizon.
    pub beyond: u64,
}

/// The sum of two counts, which stays at the greatest number.
pub(crate) fn plus(one: u64, more: u64) -> u64
    ensures { one + more < 2 ^ 64 → result ≡ one + more }
{
    one.saturating_add(more)
}

impl Tally {
    /// None.
    pub(crate) fn none() -> Tally
        ensures { result ≡ tally [] }
    {
        Tally {
            refused: 0,
            nothing: 0,
            shows: 0,
            runs_on: 0,
            beyond: 0,
        }
    }

    /// So many that are refused, and no others.
    pub(crate) fn refused_only(refused: u64) -> Tally
        ensures { result ≡ refused_only_of refused }
    {
        Tally {
            refused,
            nothing: 0,
            shows: 0,
            runs_on: 0,
            beyond: 0,
        }
    }

    /// How many there are.
    pub(crate) fn sum(&self) -> u64
        ensures { sum_of self.now < 2 ^ 63 → result ≡ sum_of self.now }
    {
        let first = plus(self.refused, self.nothing);
        let second = plus(first, self.shows);
        let third = plus(second, self.runs_on);
        plus(third, self.beyond)
    }

    /// One more of which this is reported.
    pub(crate) fn count(&mut self, told: &Effect)
        ensures { sum_of self.old < 2 ^ 63 → self.new ≡ counted self.old told.now }
    {
        match told {
            Effect::Refused { borders: _ } => self.refused = plus(self.refused, 1),
            Effect::Nothing => self.nothing = plus(self.nothing, 1),
            Effect::Shows {
                borders: _,
                output: _,
            } => self.shows = plus(self.shows, 1),
            Effect::RunsOn { borders: _, op: _ } => self.runs_on = plus(self.runs_on, 1),
            Effect::Beyond => self.beyond = plus(self.beyond, 1),
        }
    }

    /// These and others.
    pub(crate) fn with(&self, more: &Tally) -> Tally
        ensures { sum_of self.now + sum_of more.now < 2 ^ 63 → result ≡ together self.now more.now }
    {
        let refused = plus(self.refused, more.refused);
        let nothing = plus(self.nothing, more.nothing);
        let shows = plus(self.shows, more.shows);
        let runs_on = plus(self.runs_on, more.runs_on);
        let beyond = plus(self.beyond, more.beyond);
        Tally {
            refused,
            nothing,
            shows,
            runs_on,
            beyond,
        }
    }

    /// Whether one is reported as neither refused nor nothing.
    pub(crate) fn leaves_any(&self) -> bool
        ensures { result ≡ leaves_any_of self.now }
    {
        self.shows != 0 || self.runs_on != 0 || self.beyond != 0
    }
}
