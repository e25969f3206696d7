//! What the lines of a script give, line by line.

ghost use Rattle.std.specs.Prelude.{◌≡◌, ◌≢◌, ◌<◌, ◌≤◌, ◌++◌, ◌∷◌, [], List, true, false, IfOk, IfErr, OnOk, All};
ghost use Rattle.op_graph.specs.Lists.{Lists};
ghost use Rattle.fault_script.specs.Fits.{Fits};
ghost use Rattle.fault_script.specs.Groups.{GroupFits, fault_count, is_taken};
ghost use Rattle.fault_script.specs.ScriptOf.{Item, begins, ends, says, groups_of, item_of, most_faults, said_after};
ghost use Rattle.fault_script.specs.Reading.{comes, Goes, Refuses, ReadingFits};
ghost use Rattle.fault_script.specs.declared.act.Fault.{Fault as FaultValue};
ghost use Rattle.fault_script.specs.declared.script_fault.ScriptFault.TheVariants as refusal;

use crate::act::Fault;
use crate::fitting::fault;
use crate::forms::{Mark, mark_of_line};
use crate::group::Group;
use crate::script::Script;
use crate::script_fault::ScriptFault;
use op_graph::Graph;
use std::alloc::Global;
use vcp_base::Memory;

/// The most fault lines of a script.
pub const MOST_FAULTS: usize = 10000;

/// A group that no line has ended yet.
#[derive(Drop)]
pub struct Opened {
    /// The number of its `begin`.
    pub line: u32,
    /// Its faults so far.
    pub group: Group,
}

/// What the lines so far left, none of which was refused.
pub struct Reading {
    /// The groups that are whole.
    pub script: Script,
    /// The group that isn't, where there is one.
    pub opened: Option<Opened>,
    /// How many fault lines there were.
    pub count: usize,
}

impl Drop for Reading {
    fn drop(self) {
        let Reading {
            script: _,
            opened: _,
            count: _,
        } = self;
    }
}

impl Reading {
    /// Before the first line. It takes no memory.
    pub fn new(alloc: Global) -> Reading
        ensures comes { (items : List Item) → groups_of items None ≡ comes result items }
        ensures count { result.count ≡ 0 }
        ensures fits { (g : Lists) → ReadingFits g result }
    {
        Reading {
            script: Script::new(alloc),
            opened: None,
            count: 0,
        }
    }

    /// Takes a line that isn't skipped. After an `Err` other than `Memory` the line is the first refused one.
    pub fn take(
        &mut self,
        alloc: Global,
        graph: &Graph,
        line: u32,
        text: &[u8],
    ) -> Result<(), ScriptFault>
        ensures ok { OnOk result (Goes (item_of graph.now self.old.count (record { number = line; text = text.now })) self.old self.new) }
        ensures refusal { IfErr result (λ f. f ≢ refusal.Memory
            → Refuses (item_of graph.now self.old.count (record { number = line; text = text.now })) self.old f) }
        ensures fits { OnOk result (ReadingFits graph.now self.old → ReadingFits graph.now self.new) }
    {
        match mark_of_line(text) {
            Mark::Begin => self.begin(alloc, line),
            Mark::End => self.end(line),
            Mark::Fault => {
                let fault = said(graph, self.count, line, text)?;
                self.add(alloc, fault)
            }
        }
    }

    // A line that begins a group.
    fn begin(&mut self, alloc: Global, line: u32) -> Result<(), ScriptFault>
        ensures ok { OnOk result (Goes (begins line) self.old self.new) }
        ensures refusal { IfErr result (Refuses (begins line) self.old) }
        ensures fits { OnOk result ((g : Lists) → ReadingFits g self.old → ReadingFits g self.new) }
    {
        if self.opened.is_some() {
            return Err(ScriptFault::Group { line });
        }
        self.opened = Some(Opened {
            line,
            group: Group::new(alloc),
        });
        Ok(())
    }

    // A line that ends a group.
    fn end(&mut self, line: u32) -> Result<(), ScriptFault>
        ensures ok { OnOk result (Goes (ends line) self.old self.new) }
        ensures refusal { IfErr result (λ f. f ≢ refusal.Memory → Refuses (ends line) self.old f) }
        ensures fits { OnOk result ((g : Lists) → ReadingFits g self.old → ReadingFits g self.new) }
    {
        match self.opened.take() {
            None => Err(ScriptFault::Group { line }),
            Some(opened) => {
                if opened.group.len() == 0 {
                    return Err(ScriptFault::Group { line });
                }
                self.push(opened.group)
            }
        }
    }

    // A group that is whole.
    fn push(&mut self, group: Group) -> Result<(), ScriptFault>
        ensures ok { OnOk result (self.new ≡ record self.old { script = self.old.script ++ group ∷ [] }) }
        ensures err { IfErr result (λ f. f ≡ refusal.Memory) }
    {
        match self.script.push(group) {
            Ok(()) => Ok(()),
            Err(Memory) => Err(ScriptFault::Memory),
        }
    }

    // A fault, which is one more of the open group or a group of one.
    fn add(&mut self, alloc: Global, fault: Fault) -> Result<(), ScriptFault>
        requires room { self.old.count < most_faults }
        ensures ok { OnOk result (Goes (says (Ok fault)) self.old self.new) }
        ensures refusal { IfErr result (λ f. f ≢ refusal.Memory → Refuses (says (Ok fault)) self.old f) }
        ensures fits { OnOk result ((g : Lists) → Fits g fault → ReadingFits g self.old → ReadingFits g self.new) }
    {
        self.count += 1;
        match self.opened.take() {
            None => match alone(alloc, fault) {
                Ok(group) => self.push(group),
                Err(Memory) => Err(ScriptFault::Memory),
            },
            Some(opened) => match joined(opened, fault) {
                Ok(opened) => {
                    self.opened = Some(opened);
                    Ok(())
                }
                Err(why) => Err(why),
            },
        }
    }

    /// The script, behind the last line.
    #[tactic(auto, using(crate::proofs::LinesRead::whole, crate::proofs::LinesRead::unclosed, crate::proofs::GroupsFit::finished))]
    pub fn finish(self) -> Result<Script, ScriptFault>
        ensures script { IfOk result (λ script. comes self [] ≡ Ok script) }
        ensures refusal { IfErr result (λ f. comes self [] ≡ Err f) }
        ensures fits { IfOk result (λ script. (g : Lists) → ReadingFits g self → All (GroupFits g) script × fault_count script ≤ most_faults) }
    {
        let Reading {
            script,
            opened,
            count: _,
        } = self;
        match opened {
            None => Ok(script),
            Some(group) => Err(ScriptFault::Group { line: group.line }),
        }
    }
}

// The fault of a fault line, behind so many others.
fn said(graph: &Graph, before: usize, line: u32, text: &[u8]) -> Result<Fault, ScriptFault>
    ensures fault { result ≡ said_after graph.now before (record { number = line; text = text.now }) }
    ensures fits { IfOk result (λ f. Fits graph.now f × before < most_faults) }
{
    if before >= MOST_FAULTS {
        return Err(ScriptFault::Faults { line });
    }
    fault(graph, line, text)
}

// A fault as a group of one.
fn alone(alloc: Global, fault: Fault) -> Result<Group, Memory>
    ensures { IfOk result (λ group. group ≡ fault ∷ []) }
{
    let mut group = Group::new(alloc);
    group.push(fault)?;
    Ok(group)
}

// The open group with one more fault, unless an earlier one stands where this one does.
fn joined(mut opened: Opened, fault: Fault) -> Result<Opened, ScriptFault>
    ensures ok { IfOk result (λ o. (o.line ≡ opened.line) × (o.group ≡ opened.group ++ fault ∷ []) × (is_taken fault opened.group ≡ false)) }
    ensures refusal { IfErr result (λ f. f ≢ refusal.Memory → (is_taken fault opened.group ≡ true) × (f ≡ refusal.Twice fault.line)) }
{
    if opened.group.is_taken(&fault) {
        return Err(ScriptFault::Twice { line: fault.line });
    }
    opened.group.push(fault)?;
    Ok(opened)
}
