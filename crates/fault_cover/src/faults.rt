//! The faults of a class, one after another, each with what is reported of it.

ghost use Rattle.std.specs.Option.{option_to_list};
ghost use Rattle.std.specs.Prelude.{◌≡◌, ◌<◌, ◌∷◌, ◌++◌, [], List, Some, map, length};
ghost use Rattle.op_graph.specs.Lists.{Lists};
ghost use Rattle.signature_table.specs.Signatures.{IsTableOf};
ghost use Rattle.fault_cover.specs.Candidates.{row};
ghost use Rattle.fault_cover.specs.Classes.{fault_at, of_classes_at, singles, singles_of};
ghost use Rattle.fault_cover.specs.CoverText.{Heard, heard_as};
ghost use Rattle.fault_cover.specs.Passing.{Passing};
ghost use Rattle.fault_cover.specs.Sited.{IsSited};
ghost use Rattle.fault_cover.specs.Surveys.{IsMapped};
ghost use Rattle.fault_cover.specs.declared.disturbance.Disturbance.{Disturbance as Amiss};

use crate::candidates::{candidate, columns, rows};
use crate::class::CoverClass;
use crate::disturbance::Disturbance;
use crate::effect::Effect;
use crate::items::item;
use crate::survey::Survey;
use crate::telling::tell;
use op_graph::{Graph, Op};
use signature_table::Table;

/// A surveyed graph, and the numbers of its code.
#[derive(Clone, Copy)]
pub struct Subject<'a> {
    pub(crate) graph: &'a Graph,
    pub(crate) table: &'a Table,
    pub(crate) survey: &'a Survey,
}

/// What is done with each fault and what is reported of it: it is counted, or a line is written. It is given on from one fault to the next.
pub(crate) trait Listener: Sized {
    /// What is kept after these faults, since it was another.
    ghost Keeps: { Lists → Self → Self → List Heard → Type 0 };

    /// Takes the next fault, at operation `k`.
    fn hear(self, graph: &Graph, k: u32, disturbance: &Disturbance, told: &Effect) -> Self
        requires { k < length graph.now.operations }
        ensures { (start : Self) (past : List Heard) → Keeps graph.now start self past
            → Keeps graph.now start result (past ++ heard_as k disturbance.now told.now ∷ []) };
}

/// Reports of a fault, where there is one.
fn then_fault<L: Listener>(
    listener: L,
    subject: &Subject<'_>,
    k: u32,
    fault: Option<Disturbance>,
) -> L
    requires table { IsTableOf subject.now.table.now subject.now.graph.now }
    requires mapped { IsMapped subject.now.graph.now subject.now.survey.now }
    requires there { k < length subject.now.graph.now.operations }
    requires stands { (d : Amiss) → fault ≡ Some d → IsSited subject.now.graph.now k d }
    ensures { Passing subject.now.graph.now subject.now.table.now subject.now.survey.now (map (fault_at k) (option_to_list fault))
        (L.Keeps subject.now.graph.now) listener result }
{
    match fault {
        Some(disturbance) => {
            let told = tell(
                subject.graph,
                subject.table,
                subject.survey,
                k,
                &disturbance,
            );
            listener.hear(subject.graph, k, &disturbance, &told)
        }
        None => listener,
    }
}

/// Reports of the faults of a class at operation `k` in row `j`, in order.
fn then_row<L: Listener>(
    mut listener: L,
    subject: &Subject<'_>,
    class: CoverClass,
    k: u32,
    op: &Op,
    j: u32,
) -> L
    requires table { IsTableOf subject.now.table.now subject.now.graph.now }
    requires mapped { IsMapped subject.now.graph.now subject.now.survey.now }
    requires there { k < length subject.now.graph.now.operations }
    ensures { Passing subject.now.graph.now subject.now.table.now subject.now.survey.now (map (fault_at k) (row class subject.now.graph.now k op.now j))
        (L.Keeps subject.now.graph.now) listener result }
{
    'faults: for i in 0..columns(subject.graph, subject.survey, class, k, op) {
        let fault = candidate(subject.graph, class, k, op, j, i);
        listener = then_fault(listener, subject, k, fault);
    }
    listener
}

/// Reports of the faults of a class at operation `k`, in order.
fn then_operation_faults<L: Listener>(
    mut listener: L,
    subject: &Subject<'_>,
    class: CoverClass,
    k: u32,
) -> L
    requires table { IsTableOf subject.now.table.now subject.now.graph.now }
    requires mapped { IsMapped subject.now.graph.now subject.now.survey.now }
    requires there { k < length subject.now.graph.now.operations }
    ensures { Passing subject.now.graph.now subject.now.table.now subject.now.survey.now (singles_of class subject.now.graph.now k)
        (L.Keeps subject.now.graph.now) listener result }
{
    let op = subject.graph.operation(k);
    'operands: for j in 0..rows(class, &op) {
        listener = then_row(listener, subject, class, k, &op, j);
    }
    listener
}

/// Reports of all faults of a class, in order.
pub(crate) fn then_class_faults<L: Listener>(
    mut listener: L,
    subject: &Subject<'_>,
    class: CoverClass,
) -> L
    requires table { IsTableOf subject.now.table.now subject.now.graph.now }
    requires mapped { IsMapped subject.now.graph.now subject.now.survey.now }
    ensures { Passing subject.now.graph.now subject.now.table.now subject.now.survey.now (singles class subject.now.graph.now)
        (L.Keeps subject.now.graph.now) listener result }
{
    'operations: for k in 0..subject.graph.len() {
        listener = then_operation_faults(listener, subject, class, k);
    }
    listener
}

/// Reports of the faults of these classes at operation `k`, class by class.
pub(crate) fn then_faults_at<L: Listener>(
    mut listener: L,
    subject: &Subject<'_>,
    classes: &[CoverClass],
    k: u32,
) -> L
    requires table { IsTableOf subject.now.table.now subject.now.graph.now }
    requires mapped { IsMapped subject.now.graph.now subject.now.survey.now }
    requires there { k < length subject.now.graph.now.operations }
    ensures { Passing subject.now.graph.now subject.now.table.now subject.now.survey.now (of_classes_at classes.now subject.now.graph.now k)
        (L.Keeps subject.now.graph.now) listener result }
{
    'classes: for i in 0..classes.len() {
        let class = item(classes, i);
        listener = then_operation_faults(listener, subject, class, k);
    }
    listener
}
