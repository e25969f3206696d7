//! Two channels of one graph.

ghost use Rattle.std.specs.Prelude.{◌≡◌, ◌≢◌, ◌<◌, ◌≤◌, ◌+◌, ◌↔◌, false, None, Some, IsNone, IsSome, IfSome, IfOk, length};
ghost use Rattle.vcp_base.specs.Limits.{most_cycles};
ghost use Rattle.coded_unit.specs.Asked.{Asked};
ghost use Rattle.signature_table.specs.Signatures.{IsTableOf};
ghost use Rattle.coded_machine.specs.Calls.{CallsNextOperation, Next};
ghost use Rattle.coded_machine.specs.State.{given, setting};
ghost use Rattle.pair_channel.specs.declared.pair_end.PairEnd.TheVariants.{Released};
ghost use Rattle.pair_channel.specs.PairStates.{fresh_pair, PairAwaits, PairFinished, pair_with_answer};
ghost use Rattle.pair_channel.specs.PairTurns.{PairTurn, PairConcluded};

use crate::both::{both, settle};
use crate::pair_end::PairEnd;
use coded_machine::Machine;
use coded_unit::{Answer, Call, Unit};
use op_graph::Graph;
use signature_table::Table;
use std::alloc::Global;
use std::marker::Model;
use vcp_base::{Memory, Row};

/// Two machines for the operations of one graph, each with a table of its own. It borrows the graph and the tables.
///
/// It carries cycles one after another, each through a unit for each channel, and releases a row of outputs only where both machines
/// release it and the rows are equal. A cycle that does not end with a release is the last one: its end is repeated from then on, and
/// no call is made any more.
///
/// All memory that it ever takes is taken by `new`.
pub struct Pair<'a> {
    first: Machine<'a>,
    second: Machine<'a>,
    ours: Row,
    theirs: Row,
    cycles: u32,
    ended: Option<PairEnd>,
}

impl<'a> Model for Pair<'a> {
    ghost use Rattle.pair_channel.specs.PairStates.{PairState};
    ghost use Rattle.pair_channel.specs.SoundPair.{SoundPair};

    ghost Value = { PairState };

    ghost view = { λ p. record { first = p.first; second = p.second; cycles = p.cycles; ended = p.ended } };

    ghost invariant = { λ p. SoundPair (record { first = p.first; second = p.second; cycles = p.cycles; ended = p.ended }) p.ours p.theirs };
}

// Written out, so that the parts of a pair are given up here alone, and not wherever one goes out of scope.
impl Drop for Pair<'_> {
    fn drop(self) {
        let Pair {
            first: _,
            second: _,
            ours: _,
            theirs: _,
            cycles: _,
            ended: _,
        } = self;
    }
}

impl<'a> Pair<'a> {
    /// A pair before its first cycle, for a graph and two tables of it whose seeds differ. `Memory` where
    /// there is no room for the two machines and a row of outputs for each. No cycle is released, and there
    /// is no end. No later call takes memory.
    pub fn new(
        alloc: Global,
        graph: &'a Graph,
        first: &'a Table,
        second: &'a Table,
    ) -> Result<Pair<'a>, Memory>
        requires first { IsTableOf first.now graph.now }
        requires second { IsTableOf second.now graph.now }
        requires seeds { first.now.seed ≢ second.now.seed }
        ensures fresh { IfOk result (λ pair. pair ≡ fresh_pair graph.now first.now second.now) }
    {
        let width = graph.outputs();
        let ours = Row::zeros(alloc, width)?;
        let theirs = Row::zeros(alloc, width)?;
        let machine = Machine::new(alloc, graph, first)?;
        match Machine::new(alloc, graph, second) {
            Ok(other) => Ok(Pair {
                first: machine,
                second: other,
                ours,
                theirs,
                cycles: 0,
                ended: None,
            }),
            Err(why) => Err(why),
        }
    }

    /// The graph whose operations it carries.
    pub fn graph(&self) -> &'a Graph
        ensures { result.now ≡ self.now.first.graph }
    {
        self.first.graph()
    }

    /// The number of cycles that the pair released, at most 1,000,000.
    pub fn cycles(&self) -> u32
        ensures value { result ≡ self.now.cycles }
        ensures bound { result ≤ most_cycles }
    {
        self.cycles
    }

    /// The next call of the first channel in the cycle that is under way or to be begun, on this row of inputs. `None` exactly where
    /// its machine has none, or an earlier end of the pair is repeated.
    #[inline(always)]
    pub fn next_call(&self, row: &Row) -> Option<Call>
        requires { self.now.cycles < most_cycles }
        ensures none { IsNone result ↔ PairFinished self.now }
        ensures some { IsSome result ↔ PairAwaits self.now }
        ensures next { IfSome result (λ call. Next (setting self.now.first row.now) (given self.now.first) call) }
        ensures call { IfSome result (λ call. CallsNextOperation (setting self.now.first row.now) (given self.now.first) call) }
        ensures asked { IfSome result (λ call. Asked call) }
    {
        match self.ended {
            Some(_) => None,
            None => self.first.next_call(row),
        }
    }

    /// Takes the answer to the next call of the first channel, which there must be. It is one more answer of
    /// that cycle, and nothing else changes.
    #[inline(always)]
    pub fn put(&mut self, answer: Answer)
        requires { PairAwaits self.old }
        ensures { self.new ≡ pair_with_answer self.old answer }
    {
        self.first.put(answer);
    }

    /// Ends the cycle in which the first channel has no next call: the second channel carries its cycle through its unit, on the same
    /// row of inputs, and both give the end. A cycle that is carried by these three calls is one that `cycle` carries, as
    /// `pairs_by_hand_are_whole` says.
    ///
    /// After a release `out` has the row of outputs that both channels have, and one cycle more is counted. After any other end `out`
    /// and the count are unchanged, and the end is repeated from then on.
    pub fn end<V: Unit>(&mut self, second: &mut V, row: &Row, out: &mut Row) -> PairEnd
        requires cycle { self.old.cycles < most_cycles }
        requires finished { PairFinished self.old }
        requires out { length out.old ≡ length self.old.first.graph.outputs }
        ensures concluded { self.old.ended ≡ None → PairConcluded self.old self.new row.now result out.old out.new
            (V.seen second.old) (V.seen second.new) }
        ensures repeats { IfSome self.old.ended (λ e. (result ≡ e) × (self.new ≡ self.old) × (out.new ≡ out.old) × (second.new ≡ second.old)) }
        ensures unchanged { result ≢ Released → out.new ≡ out.old }
        ensures between { self.new.first.under_way ≡ false }
        ensures graph { self.new.first.graph ≡ self.old.first.graph }
        ensures cycles { self.new.cycles ≤ self.old.cycles + 1 }
        ensures width { length out.new ≡ length out.old }
    {
        if let Some(end) = self.ended {
            return end;
        }
        let one = self.first.end(&mut self.ours);
        let two = self.second.cycle(second, row, &mut self.theirs);
        let end = both(&one, &two, &self.ours, &self.theirs);
        settle(&end, &mut self.ours, out, &mut self.cycles, &mut self.ended);
        end
    }

    /// Carries one cycle of each channel through its unit, on one row of inputs, and tells the end by both. No cycle is under way
    /// before. The second channel carries its cycle whatever the first one's end is.
    ///
    /// It does what `next_call`, `put` and `end` do one after another. Where an earlier end is repeated, no call is made.
    ///
    /// For every two units a kept log of either grew by exactly its machine's calls with its answers; each of
    /// the two ends has its cause in the answers. A row is released exactly where both channels released it
    /// with equal values, and then it is the caller's row; a stop comes exactly where both stopped at one
    /// operation for one cause; the rows differ at the first output of two values; and the channels parted in
    /// all other cases. After any end but a release the caller's row is unchanged, and each later call makes
    /// no call of a unit, changes nothing and gives the same end.
    pub fn cycle<U: Unit, V: Unit>(
        &mut self,
        first: &mut U,
        second: &mut V,
        row: &Row,
        out: &mut Row,
    ) -> PairEnd
        requires cycle { self.old.cycles < most_cycles }
        requires between { self.old.first.under_way ≡ false }
        requires out { length out.old ≡ length self.old.first.graph.outputs }
        ensures turn { self.old.ended ≡ None → PairTurn self.old self.new row.now result out.old out.new
            (U.seen first.old) (U.seen first.new)
            (V.seen second.old) (V.seen second.new) }
        ensures repeats { IfSome self.old.ended (λ e. (result ≡ e) × (self.new ≡ self.old) × (out.new ≡ out.old) × (first.new ≡ first.old)
            × (second.new ≡ second.old)) }
        ensures unchanged { result ≢ Released → out.new ≡ out.old }
        ensures between { self.new.first.under_way ≡ false }
        ensures graph { self.new.first.graph ≡ self.old.first.graph }
        ensures cycles { self.new.cycles ≤ self.old.cycles + 1 }
        ensures width { length out.new ≡ length out.old }
    {
        if let Some(end) = self.ended {
            return end;
        }
        let one = self.first.cycle(first, row, &mut self.ours);
        let two = self.second.cycle(second, row, &mut self.theirs);
        let end = both(&one, &two, &self.ours, &self.theirs);
        settle(&end, &mut self.ours, out, &mut self.cycles, &mut self.ended);
        end
    }
}
