//! The line of a site.

ghost use Rattle.std.specs.Prelude.{◌≡◌};
ghost use Rattle.vcp_outside.specs.Pens.{Goes};
ghost use Rattle.fault_sites.specs.SiteText.{classes_name as classes_name_of, classes_of, verb as verb_of, rest as rest_of};
ghost use Rattle.fault_sites.specs.SiteText.{site_line};

use crate::class::{Class, Classes};
use crate::site::Site;
use fault_script::Act;
use vcp_base::{kind_name, same_bytes};
use vcp_outside::Pen;

/// The word that names one class, or all.
pub fn classes_name(classes: Classes) -> &'static [u8]
    ensures { result.now ≡ classes_name_of classes }
{
    match classes {
        Classes::One(Class::Bits) => b"bits",
        Classes::One(Class::Stale) => b"stale",
        Classes::One(Class::Skip) => b"skip",
        Classes::One(Class::From) => b"from",
        Classes::One(Class::Operator) => b"operator",
        Classes::All => b"all",
    }
}

/// The classes that a word names.
pub fn classes_named(word: &[u8]) -> Option<Classes>
    ensures { result ≡ classes_of word.now }
{
    if same_bytes(word, b"bits") {
        return Some(Classes::One(Class::Bits));
    }
    if same_bytes(word, b"stale") {
        return Some(Classes::One(Class::Stale));
    }
    if same_bytes(word, b"skip") {
        return Some(Classes::One(Class::Skip));
    }
    if same_bytes(word, b"from") {
        return Some(Classes::One(Class::From));
    }
    if same_bytes(word, b"operator") {
        return Some(Classes::One(Class::Operator));
    }
    if same_bytes(word, b"all") {
        return Some(Classes::All);
    }
    None
}

/// The first word of the line of a fault that does this, and a space.
pub fn verb(act: &Act) -> &'static [u8]
    ensures { result.now ≡ verb_of act.now }
{
    match *act {
        Act::OperandAdd { j: _, e: _ }
        | Act::OperandFrom { j: _, r: _ }
        | Act::OperandStale { j: _ } => b"operand ",
        Act::ResultAdd { e: _ } => b"result ",
        Act::Operator { kind: _ } => b"operator ",
        Act::Skip => b"skip ",
    }
}

/// Goes on with what is behind the cycle and the operation in the line of a fault that does this.
pub fn then_rest<P: Pen>(pen: P, act: &Act) -> P
    ensures { Goes (P.seen pen) (P.seen result) (rest_of act.now) }
{
    match *act {
        Act::OperandAdd { j, e } => pen.numbered(b" ", j as u64).signed(b" add ", e),
        Act::OperandFrom { j, r } => pen.numbered(b" ", j as u64).numbered(b" from ", r as u64),
        Act::OperandStale { j } => pen.numbered(b" ", j as u64).text(b" stale"),
        Act::ResultAdd { e } => pen.signed(b" add ", e),
        Act::Operator { kind } => pen.texts(b" ", kind_name(kind)),
        Act::Skip => pen,
    }
}

/// Goes on with the line of a site, without its LF.
pub fn then_site<P: Pen>(pen: P, site: &Site) -> P
    ensures { Goes (P.seen pen) (P.seen result) (site_line site.now) }
{
    let pen = pen
        .numbered(verb(&site.act), site.cycle as u64)
        .numbered(b" ", site.op as u64);
    then_rest(pen, &site.act)
}
