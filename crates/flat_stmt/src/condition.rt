//! The operations of conditions and labels. None of them can stop.

ghost use Rattle.std.specs.Prelude.{◌≡◌, ◌<◌, false, true, Some, length, sum_by, All};
ghost use Rattle.vcp_base.specs.declared.ty.Ty.TheVariants as type_of;
ghost use Rattle.vcp_base.specs.Code.{admits};
ghost use Rattle.flat_expr.specs.State.{IsA, IsPlace, Makes};
ghost use Rattle.flat_stmt.specs.Conditions.{joins, denies, labelled, or_labelled, any_labelled, alone_size};
ghost use Rattle.flat_stmt.specs.Parts.{Added};
ghost use Rattle.vcp_typed.specs.Checked.{IsLabel};
ghost use Rattle.vcp_typed.specs.Rules.{joined as joined_type};
ghost use Rattle.vcp_typed.specs.Size.{label_size};

use flat_expr::{Flat, laws_of_states};
use op_graph::Build;
use vcp_base::{Kind, Spot, Ty};
use vcp_typed::TLabel;

/// The outer condition, where there is one, AND the condition `k`.
pub fn join(flat: &mut Flat, outer: Option<u32>, k: u32, spot: Spot) -> Result<u32, Build>
    requires outer { IsPlace type_of.Bool flat.old.graph.operations outer }
    requires k { IsA type_of.Bool flat.old.graph.operations k }
    ensures { Added flat.old 1 (λ j. Makes flat.old flat.new type_of.Bool 1 (joins outer k) j) result }
{
    laws_of_states();
    let _state = flat.condition();
    match outer {
        None => Ok(k),
        Some(p) => flat.add(Kind::And, Ty::Bool, Ty::Bool, p, k, 0, spot),
    }
}

/// NOT of the condition `k`.
pub fn deny(flat: &mut Flat, k: u32, spot: Spot) -> Result<u32, Build>
    requires { IsA type_of.Bool flat.old.graph.operations k }
    ensures { Added flat.old 1 (λ j. Makes flat.old flat.new type_of.Bool 1 (denies k) j) result }
{
    laws_of_states();
    flat.add(Kind::Not, Ty::Bool, Ty::Bool, k, 0, 0, spot)
}

/// Whether the value `k` is the label.
fn equal(flat: &mut Flat, k: u32, ty: Ty, label: TLabel) -> Result<u32, Build>
    requires one { label.range ≡ false }
    requires code { admits flat.old.graph.profile ty ≡ true }
    requires k { IsA ty flat.old.graph.operations k }
    requires label { IsLabel ty label }
    ensures { Added flat.old (alone_size label) (λ j. Makes flat.old flat.new type_of.Bool (alone_size label) (labelled k label) j) result }
{
    laws_of_states();
    let value = flat.constant(ty, label.first, label.spot)?;
    flat.add(Kind::Eq, ty, Ty::Bool, k, value, 0, label.spot)
}

/// Whether the value `k` is in the label's range: neither below its first value nor above its last.
fn within(flat: &mut Flat, k: u32, ty: Ty, label: TLabel) -> Result<u32, Build>
    requires range { label.range ≡ true }
    requires number { joined_type ty ty ≡ Some ty }
    requires code { admits flat.old.graph.profile ty ≡ true }
    requires k { IsA ty flat.old.graph.operations k }
    requires label { IsLabel ty label }
    ensures { Added flat.old (alone_size label) (λ j. Makes flat.old flat.new type_of.Bool (alone_size label) (labelled k label) j) result }
{
    laws_of_states();
    let first = flat.constant(ty, label.first, label.spot)?;
    let last = flat.constant(ty, label.last, label.spot)?;
    let below = flat.add(Kind::Lt, ty, Ty::Bool, k, first, 0, label.spot)?;
    let above = flat.add(Kind::Lt, ty, Ty::Bool, last, k, 0, label.spot)?;
    let out = flat.add(Kind::Or, Ty::Bool, Ty::Bool, below, above, 0, label.spot)?;
    flat.add(Kind::Not, Ty::Bool, Ty::Bool, out, 0, 0, label.spot)
}

/// Whether the value `k` has the label.
fn label(flat: &mut Flat, k: u32, ty: Ty, label: TLabel) -> Result<u32, Build>
    requires number { joined_type ty ty ≡ Some ty }
    requires code { admits flat.old.graph.profile ty ≡ true }
    requires k { IsA ty flat.old.graph.operations k }
    requires label { IsLabel ty label }
    ensures { Added flat.old (alone_size label) (λ j. Makes flat.old flat.new type_of.Bool (alone_size label) (labelled k label) j) result }
{
    if label.range {
        within(flat, k, ty, label)
    } else {
        equal(flat, k, ty, label)
    }
}

/// The condition `so_far` OR whether the value `k` has the label.
fn label_too(
    flat: &mut Flat,
    k: u32,
    ty: Ty,
    so_far: u32,
    next: TLabel,
    spot: Spot,
) -> Result<u32, Build>
    requires number { joined_type ty ty ≡ Some ty }
    requires code { admits flat.old.graph.profile ty ≡ true }
    requires k { IsA ty flat.old.graph.operations k }
    requires so_far { IsA type_of.Bool flat.old.graph.operations so_far }
    requires label { IsLabel ty next }
    ensures { Added flat.old (label_size next) (λ j. Makes flat.old flat.new type_of.Bool (label_size next) (or_labelled so_far k next) j) result }
{
    laws_of_states();
    let r = label(flat, k, ty, next)?;
    flat.add(Kind::Or, Ty::Bool, Ty::Bool, so_far, r, 0, spot)
}

/// Whether the value `k` has one of the labels, of which there is at least one. They are joined by OR
/// from the left, at the first label's place.
pub fn labels(flat: &mut Flat, k: u32, ty: Ty, labels: &[TLabel]) -> Result<u32, Build>
    requires some { 0 < length labels.now }
    requires number { joined_type ty ty ≡ Some ty }
    requires code { admits flat.old.graph.profile ty ≡ true }
    requires k { IsA ty flat.old.graph.operations k }
    requires labels { All (IsLabel ty) labels.now }
    ensures { Added flat.old (sum_by label_size labels.now) (λ j. Makes flat.old flat.new type_of.Bool (sum_by label_size labels.now) (any_labelled k labels.now) j) result }
{
    laws_of_states();
    let spot = labels[0].spot;
    let mut so_far = label(flat, k, ty, labels[0])?;
    'rest: for i in 1..labels.len() {
        so_far = label_too(flat, k, ty, so_far, labels[i], spot)?;
    }
    Ok(so_far)
}
