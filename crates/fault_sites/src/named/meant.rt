//! What a line means.

ghost use Rattle.std.specs.Prelude.{◌≡◌, ◌<◌, length};
ghost use Rattle.vcp_base.specs.Words.{words as words_of};
ghost use Rattle.fault_sites.specs.Sites.{adding as adding_of};
ghost use Rattle.fault_sites.specs.NamedLines.{act_of, acts_of, ended as ended_of};
ghost use Rattle.fault_sites.specs.NamedLines.{meant_of};

use crate::named::doing::{Doing, Target, take_doing, take_target};
use crate::named::fitting::unfit;
use crate::named::refused::Why;
use crate::named::when::{Ending, Span, take_ending, when};
use crate::power;
use fault_script::Act;
use op_graph::Graph;
use vcp_base::WordsLeft;

/// The acts of a line: one, or the two of which one flips a bit.
#[derive(Clone, Copy)]
pub struct Acts {
    /// The first.
    pub act: Act,
    /// The other, where there is one.
    pub other: Option<Act>,
}

/// What a line means: acts at an operation in each of some cycles.
#[derive(Clone, Copy)]
pub struct Meant {
    /// The number of the operation.
    pub op: u32,
    /// The cycles.
    pub span: Span,
    /// Whether they are one group.
    pub together: bool,
    /// The acts.
    pub acts: Acts,
}

/// A number is added to an operand, or else to the result.
fn adding(place: Option<u32>, e: i64) -> Act
    ensures { result ≡ adding_of place e }
{
    match place {
        Some(j) => Act::OperandAdd { j, e },
        None => Act::ResultAdd { e },
    }
}

/// The act of words other than `flip`.
fn act(doing: Doing, place: Option<u32>) -> Option<Act>
    ensures { result ≡ act_of doing place }
{
    match place {
        Some(j) => match doing {
            Doing::Add { e } => Some(Act::OperandAdd { j, e }),
            Doing::Stale => Some(Act::OperandStale { j }),
            Doing::Read { r } => Some(Act::OperandFrom { j, r }),
            Doing::Operator { kind: _ } | Doing::Skip | Doing::Flip => None,
        },
        None => match doing {
            Doing::Add { e } => Some(Act::ResultAdd { e }),
            Doing::Operator { kind } => Some(Act::Operator { kind }),
            Doing::Skip => Some(Act::Skip),
            Doing::Stale | Doing::Read { r: _ } | Doing::Flip => None,
        },
    }
}

/// The acts of a line.
fn acts_said(doing: Doing, place: Option<u32>, ending: Ending) -> Option<Acts>
    ensures { result ≡ acts_of doing place ending }
{
    match ending {
        Ending::Bit { b } => match doing {
            Doing::Flip if b < 62 => Some(Acts {
                act: adding(place, power(b)),
                other: Some(adding(place, -power(b))),
            }),
            _ => None,
        },
        Ending::Alone | Ending::Together => match act(doing, place) {
            Some(act) => Some(Acts { act, other: None }),
            None => None,
        },
    }
}

/// What a line means whose words are these, where the acts may be at the operation.
fn ended(
    graph: &Graph,
    doing: Doing,
    target: Target,
    span: Span,
    ending: Ending,
) -> Result<Meant, Why>
    requires { target.op < length graph.now.operations }
    ensures { result ≡ ended_of graph.now doing target span ending }
{
    let Some(acts) = acts_said(doing, target.operand, ending) else {
        return Err(Why::Form);
    };
    let kind = graph.operation(target.op).kind;
    if let Some(why) = unfit(kind, target.op, span.first, &acts.act) {
        return Err(why);
    }
    if let Some(other) = acts.other
        && let Some(why) = unfit(kind, target.op, span.first, &other)
    {
        return Err(why);
    }
    Ok(Meant {
        op: target.op,
        span,
        together: matches!(ending, Ending::Together),
        acts,
    })
}

/// What a line means, or why it is refused.
pub fn meaning(graph: &Graph, text: &[u8]) -> Result<Meant, Why>
    ensures { result ≡ meant_of graph.now (words_of text.now) }
{
    let mut words = WordsLeft::new(text);
    let doing = match take_doing(graph, &mut words) {
        Ok(doing) => doing,
        Err(why) => return Err(why),
    };
    let target = match take_target(graph, &mut words) {
        Ok(target) => target,
        Err(why) => return Err(why),
    };
    match when(&mut words) {
        Ok(span) => match take_ending(&mut words) {
            Some(ending) => ended(graph, doing, target, span, ending),
            None => Err(Why::Form),
        },
        Err(why) => Err(why),
    }
}
