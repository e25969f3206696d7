//! The picture of a graph by verdicts.

ghost use Rattle.std.specs.Prelude.{◌≡◌, ◌≤◌, length};
ghost use Rattle.vcp_outside.specs.Written.{WritesTo};
ghost use Rattle.fault_script.specs.ScriptOf.{most_faults};
ghost use Rattle.pictures.specs.Elements.{legend_of};
ghost use Rattle.pictures.specs.FaultsText.{faults_legend, faults_style, faults_text};

use crate::verdicts::looks::VerdictLooks;
use crate::{GraphLayout, Sample, write_looks};
use fault_injector::Totals;
use fault_script::Script;
use op_graph::Graph;
use vcp_outside::{Failed, Sink};
use verdict_tables::{Verdicts, totals_of_all};

/// The rules of style.
const STYLE: &[u8] =
    b"text{font:9px monospace}rect{stroke:#333;fill:#fff}line{stroke:#888}.wrong{fill:#f66}.ran-on{fill:#fa6} \
    .same{fill:#fe9}.stopped{fill:#9cf}.refused{fill:#9e9}.cell{fill:#36c}";

/// The samples of the legend: a colour for each sort of verdict, with how many there are of it.
fn samples(totals: &Totals) -> [Sample<'static>; 7]
    ensures { legend_of faults_style result ≡ faults_legend totals.now }
{
    [
        Sample {
            x: 12,
            class: b"wrong",
            told: b"wrong",
            many: Some(totals.wrong),
        },
        Sample {
            x: 112,
            class: b"ran-on",
            told: b"ran-on",
            many: Some(totals.ran_on),
        },
        Sample {
            x: 216,
            class: b"same",
            told: b"same",
            many: Some(totals.same),
        },
        Sample {
            x: 312,
            class: b"stopped",
            told: b"stopped",
            many: Some(totals.stopped),
        },
        Sample {
            x: 420,
            class: b"refused",
            told: b"refused",
            many: Some(totals.refused),
        },
        Sample {
            x: 528,
            class: b"plain",
            told: b"no fault stands there",
            many: None,
        },
        Sample {
            x: 680,
            class: b"cell",
            told: b"a cell's LOAD (left) or STORE (right)",
            many: None,
        },
    ]
}

/// Writes the picture of a graph whose boxes have these places: each operation in the colour of the worst verdict of the groups that
/// have a fault there, with how many of these groups have it. The worst is `wrong`, and then come `ran-on`; `same`, of which nothing
/// was seen either; and `stopped` and `refused`, which are seen. The legend tells how many verdicts there are of each sort. It takes no
/// memory. After `Failed` a part of the picture is written.
pub fn write_faults<O: Sink>(
    out: &mut O,
    graph: &Graph,
    script: &Script,
    verdicts: &Verdicts,
    layout: &GraphLayout,
) -> Result<(), Failed>
    requires few { length script.now ≤ most_faults }
    requires many { length verdicts.now ≡ length script.now }
    ensures { WritesTo (O.seen out.old) (O.seen out.new)
        (faults_text graph.now script.now verdicts.now layout.now) result }
{
    let samples = samples(&totals_of_all(verdicts));
    let looks = VerdictLooks { script, verdicts };
    write_looks(out, graph, &looks, STYLE, &samples, layout)
}
