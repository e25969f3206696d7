//! The least fault so far.

ghost use Rattle.std.specs.Prelude.{◌≡◌, true, false};
ghost use Rattle.st_types.specs.Faults.{number as number_of, fault, AtMost};
ghost use Rattle.st_types.specs.Notes.{Notes};

use crate::fault::{Fault, Rule};
use vcp_base::Spot;

// The place of a rule among those that are broken at one spot.
fn number(rule: Rule) -> u32
    ensures { result ≡ number_of rule }
{
    match rule {
        Rule::Duplicate => 1,
        Rule::Unknown => 2,
        Rule::Mismatch => 3,
        Rule::Assign => 4,
        Rule::Bound => 5,
        Rule::Label => 6,
        Rule::Call => 7,
        Rule::Literal => 8,
    }
}

// Whether the fault f comes before g.
fn is_before(f: Fault, g: Fault) -> bool
    ensures before { result ≡ true → AtMost f g }
    ensures after { result ≡ false → AtMost g f }
{
    if f.spot.line != g.spot.line {
        return f.spot.line < g.spot.line;
    }
    if f.spot.col != g.spot.col {
        return f.spot.col < g.spot.col;
    }
    number(f.rule) < number(g.rule)
}

/// What is noted: the least fault so far, and whether memory ran out. Where it did, nothing is said of what was typed.
#[derive(Clone, Copy)]
pub struct Noted {
    pub first: Option<Fault>,
    pub full: bool,
}

/// Notes a fault: the least one is kept.
pub(crate) fn note(first: &mut Option<Fault>, rule: Rule, spot: Spot)
    ensures { Notes first.old first.new (λ f. f ≡ fault rule spot) }
{
    let found = Fault { rule, spot };
    match *first {
        None => *first = Some(found),
        Some(old) => {
            if is_before(found, old) {
                *first = Some(found);
            }
        }
    }
}
