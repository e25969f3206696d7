//! The script of a part of the sites.

ghost use Rattle.std.specs.Prelude.{◌≡◌, ◌++◌, codes, length};
ghost use Rattle.vcp_outside.specs.Written.{WritesTo};
ghost use Rattle.vcp_outside.specs.Pens.{Goes};
ghost use Rattle.fault_sites.specs.Part.{kept};
ghost use Rattle.fault_sites.specs.Sites.{sites, sites_in, sites_of};
ghost use Rattle.fault_sites.specs.SiteText.{sites_text};
ghost use Rattle.fault_sites.specs.Telling.{fed_lines, Tells};

use crate::class::{Class, Classes};
use crate::counts::{count_cycle, count_in};
use crate::lines::classes_name;
use crate::part::Part;
use crate::telling::{Telling, then_acts};
use op_graph::Graph;
use vcp_outside::{Failed, LinePen, Pen, Sink};

/// Goes on with the sites of a class in cycle `n`, and passes over them at once where they all are before the part. A class has so
/// many sites in each cycle in which it has any.
fn then_cycle_or_pass<P: Pen>(
    told: Telling<P>,
    graph: &Graph,
    class: Class,
    n: u32,
    size: u64,
) -> Telling<P>
    requires { size ≡ length (sites_in class graph.now 1) }
    ensures { Tells (P.seen told.pen) (P.seen result.pen) told.part result.part (sites_in class graph.now n) }
{
    let Telling { pen, part } = told;
    if part.left == 0 {
        return Telling { pen, part };
    }
    let count = count_cycle(class, n, size);
    if count <= part.skip {
        let part = Part {
            skip: part.skip - count,
            left: part.left,
        };
        return Telling { pen, part };
    }
    then_acts(Telling { pen, part }, &class, graph, n)
}

/// Goes on with the sites of a class in the first cycles.
fn then_class<P: Pen>(mut told: Telling<P>, graph: &Graph, class: Class, cycles: u32) -> Telling<P>
    ensures { Tells (P.seen told.pen) (P.seen result.pen) told.part result.part (sites_of class graph.now cycles) }
{
    let size = count_in(graph, class);
    'cycles: for n in 0..cycles {
        told = then_cycle_or_pass(told, graph, class, n, size);
    }
    told
}

/// Goes on with the sites of one class, or of all.
pub(crate) fn then_sites<P: Pen>(
    told: Telling<P>,
    graph: &Graph,
    classes: Classes,
    cycles: u32,
) -> Telling<P>
    ensures { Tells (P.seen told.pen) (P.seen result.pen) told.part result.part (sites classes graph.now cycles) }
{
    match classes {
        Classes::One(class) => then_class(told, graph, class, cycles),
        Classes::All => {
            let told = then_class(told, graph, Class::Bits, cycles);
            let told = then_class(told, graph, Class::Stale, cycles);
            let told = then_class(told, graph, Class::Skip, cycles);
            let told = then_class(told, graph, Class::From, cycles);
            then_class(told, graph, Class::Operator, cycles)
        }
    }
}

/// Goes on with a part of these sites.
fn then_part<P: Pen>(pen: P, part: Part, graph: &Graph, classes: Classes, cycles: u32) -> P
    ensures { Goes (P.seen pen) (P.seen result) (fed_lines (kept part (sites classes graph.now cycles))) }
{
    let Telling { pen, part: _ } = then_sites(Telling { pen, part }, graph, classes, cycles);
    pen
}

/// Goes on with the remark that names what the sites are and the image, without its LF.
pub(crate) fn then_remark<P: Pen>(pen: P, name: &[u8], digest: &[u8]) -> P
    ensures { Goes (P.seen pen) (P.seen result)
        (codes "# sites " ++ (name.now ++ (codes " of " ++ digest.now))) }
{
    pen.texts(b"# sites ", name).texts(b" of ", digest)
}

/// Writes the script of a part of the sites of a graph in the first cycles: a remark with the digits of the image's digest, and a line
/// for each site, in the order of class, cycle, operation, operand and value. It takes no memory. After `Failed` a part of the text
/// is written.
pub fn write_sites<O: Sink>(
    out: &mut O,
    digest: &[u8],
    graph: &Graph,
    classes: Classes,
    cycles: u32,
    part: Part,
) -> Result<(), Failed>
    ensures { WritesTo (O.seen out.old) (O.seen out.new) (sites_text classes digest.now graph.now cycles part) result }
{
    let pen = then_remark(LinePen::new(out), classes_name(classes), digest);
    then_part(pen, part, graph, classes, cycles).end()
}
