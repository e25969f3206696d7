//! The receiver.

ghost use Rattle.std.specs.Prelude.{◌≡◌, ◌<◌, ◌≤◌};
ghost use Rattle.vcp_base.specs.Limits.{seeds, most_step, most_cycles};
ghost use Rattle.telegram.specs.Receipts.{nothing_heard, ticked, receipt_of, after_receipt};
ghost use Rattle.telegram.specs.Sendings.{most_senders};

use crate::receipt::Receipt;
use crate::telegram::Telegram;
use signature_table::expected;
use std::marker::Model;
use vcp_base::{Profile, Ty, fits};

/// What hears one sender: it counts the cycles, and keeps the number that it delivered last.
///
/// None of its calls takes memory.
#[derive(Drop)]
pub struct Receiver {
    listen: u32,
    age: u32,
    seed: u32,
    step: u16,
    begun: u32,
    last: Option<u32>,
}

impl Model for Receiver {
    ghost use Rattle.telegram.specs.Receipts.{State, IsState};

    ghost Value = { State };

    ghost view = { λ r. record { listen = r.listen; age = r.age; seed = r.seed; step = r.step; begun = r.begun; last = r.last } };

    ghost invariant = { λ r. IsState (record { listen = r.listen; age = r.age; seed = r.seed; step = r.step; begun = r.begun; last = r.last }) };
}

impl Receiver {
    /// A receiver before the first cycle, with nothing delivered. It hears the sender `listen`, one of
    /// 16, and delivers what was sent at most `age` cycles before the present one. The seed is below
    /// 2^30 and the step 1 to 1000.
    pub fn new(listen: u32, age: u32, seed: u32, step: u16) -> Receiver
        requires listen { listen < most_senders }
        requires seed { seed < seeds }
        requires step_from { 1 ≤ step }
        requires step_to { step ≤ most_step }
        ensures { result ≡ nothing_heard listen age seed step }
    {
        Receiver {
            listen,
            age,
            seed,
            step,
            begun: 0,
            last: None,
        }
    }

    /// A cycle begins, one of at most 1,000,000.
    pub fn tick(&mut self)
        requires { self.old.begun < most_cycles }
        ensures { self.new ≡ ticked self.old }
    {
        self.begun += 1;
    }

    /// Takes a telegram, whose number is below 1,000,000, and answers what comes of it. Only where its
    /// value is delivered does the receiver change: the number is then the last delivered one.
    ///
    /// The first that applies is answered: the number's cycle hasn't begun (`Early`); the residue isn't that
    /// of the sender that is heard in that cycle (`Stray`); the number isn't above the last delivered one
    /// (`Order`); the present cycle is further from the number than the age (`Age`); the value is no DINT
    /// (`Value`); else the value is delivered (`Delivered`). It takes no memory.
    pub fn take(&mut self, telegram: &Telegram) -> Receipt
        requires { telegram.now.number < most_cycles }
        ensures receipt { result ≡ receipt_of self.old telegram.now }
        ensures receiver { self.new ≡ after_receipt self.old telegram.now.number result }
    {
        let receipt = self.receipt(telegram);
        if let Receipt::Delivered { .. } = receipt {
            self.last = Some(telegram.number);
        }
        receipt
    }

    /// What comes of a telegram.
    fn receipt(&self, telegram: &Telegram) -> Receipt
        requires { telegram.now.number < most_cycles }
        ensures { result ≡ receipt_of self.now telegram.now }
    {
        let number = telegram.number;
        if number >= self.begun {
            return Receipt::Early { begun: self.begun };
        }
        let (value, found) = telegram.word.split(Profile::Narrow);
        let expected = expected(Profile::Narrow, self.seed, self.step, self.listen, number);
        if found != expected {
            return Receipt::Stray { found, expected };
        }
        if let Some(last) = self.last {
            if number <= last {
                return Receipt::Order { last };
            }
        }
        let cycle = self.begun - 1;
        if cycle - number > self.age {
            return Receipt::Age { cycle };
        }
        if !fits(Ty::Dint, value) {
            return Receipt::Value;
        }
        Receipt::Delivered {
            value: value as i64,
        }
    }
}
