//! Groups of faults.

ghost use Rattle.std.specs.Prelude.{◌≡◌, ◌<◌, [], ◌∷◌, ◌++◌, Some, OnOk, OnErr, length, slice_get};
ghost use Rattle.fault_script.specs.Groups.{line_of, is_taken as is_taken_of, same_place};

use crate::act::Fault;
use std::alloc::Global;
use std::marker::Model;
use vcp_base::Memory;

/// Faults that are carried out in one run, in the order of their lines, seen as a list.
#[derive(Drop)]
pub struct Group {
    faults: Vec<Fault>,
}

impl Model for Group {
    ghost use Rattle.std.specs.Prelude.{List};
    ghost use Rattle.fault_script.specs.declared.act.Fault.{Fault};

    ghost Value = { List Fault };

    ghost view = { λ g. g.faults.items };
}

impl Group {
    /// A group without faults. It takes no memory.
    pub fn new(alloc: Global) -> Group
        ensures { result ≡ [] }
    {
        Group {
            faults: Vec::new(alloc),
        }
    }

    /// Appends a fault. After `Memory` the group is unchanged.
    pub fn push(&mut self, fault: Fault) -> Result<(), Memory>
        ensures ok { OnOk result (self.new ≡ self.old ++ fault ∷ []) }
        ensures err { OnErr result (self.new ≡ self.old) }
    {
        self.faults.push(fault)?;
        Ok(())
    }

    /// How many faults there are.
    pub fn len(&self) -> usize
        ensures { result ≡ length self.now }
    {
        self.faults.len()
    }

    /// The fault at place `i`, counted from 0, where `i` is less than `len`.
    pub fn at(&self, i: usize) -> Fault
        requires { i < length self.now }
        ensures { slice_get self.now i ≡ Some result }
    {
        self.faults[i]
    }

    /// The line of the group in its script: that of its first fault, where it has one.
    pub fn line(&self) -> u32
        requires { 0 < length self.now }
        ensures { result ≡ line_of self.now }
    {
        self.faults[0].line
    }

    /// Whether a fault of the group is at the operation of this one in the same cycle.
    pub fn is_taken(&self, fault: &Fault) -> bool
        ensures { result ≡ is_taken_of fault.now self.now }
    {
        self.faults.iter().any(|other| is_same_place(fault, other))
    }
}

// Whether two faults stand at one operation in one cycle.
fn is_same_place(fault: &Fault, other: &Fault) -> bool
    ensures { result ≡ same_place fault.now other.now }
{
    fault.cycle == other.cycle && fault.op == other.op
}
