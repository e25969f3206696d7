//! The labels of a CASE.

ghost use Rattle.std.specs.Prelude.{◌≡◌, false, is_some, option_map};
ghost use Rattle.vcp_base.specs.declared.spot.Spot.{Spot as Spot_};
ghost use Rattle.st_tree.specs.ExprViews.{expr_tree_or_none};
ghost use Rattle.st_tree.specs.StmtViews.{label_tree, label_trees};
ghost use Rattle.st_types.specs.declared.fault.Rule.TheVariants as rule_;
ghost use Rattle.st_types.specs.Faults.{fault};
ghost use Rattle.st_types.specs.Notes.{Notes};
ghost use Rattle.st_types.specs.Full.{UnlessFull};
ghost use Rattle.st_types.specs.ExprTyping.{both};
ghost use Rattle.st_types.specs.StmtTyping.{label_ends as label_ends_of};
ghost use Rattle.st_types.specs.StmtSteps.{TypesLast, TypesLabel, TypesLabels, label_after};

use crate::constants::{Number, spot_of};
use crate::environment::Environment;
use crate::fault::{Fault, Rule};
use crate::note::{Noted, note};
use st_tree::{Expr, Label};
use vcp_base::{Memory, Spot, Ty};
use vcp_typed::{TLabel, TLabels};

// The label of these ends, where they are numbers in order.
fn label_ends(spot: Spot, first: Option<i64>, last: Option<Number>) -> Option<TLabel>
    ensures { result ≡ label_ends_of spot first (option_map (λ n. n.value) last) }
{
    let Some(first) = first else {
        return None;
    };
    match last {
        None => Some(TLabel {
            first,
            last: first,
            range: false,
            spot,
        }),
        Some(last) => {
            let Some(last) = last.value else {
                return None;
            };
            if first <= last {
                Some(TLabel {
                    first,
                    last,
                    range: true,
                    spot,
                })
            } else {
                None
            }
        }
    }
}

// Whether the forms of these ends are numbers in order.
fn is_label(first: Option<i128>, last: Option<Number>) -> bool
    ensures { (spot : Spot_) → result ≡ is_some (label_ends_of spot first (option_map (λ n. n.form) last)) }
{
    let Some(first) = first else {
        return false;
    };
    match last {
        None => true,
        Some(last) => match last.form {
            None => false,
            Some(last) => first <= last,
        },
    }
}

// Notes that there is no label.
fn label_fault(there: bool, spot: Spot, first: &mut Option<Fault>)
    ensures { Notes first.old first.new (λ f. (f ≡ fault rule_.Label spot) × (there ≡ false)) }
{
    if !there {
        note(first, Rule::Label, spot);
    }
}

// The labels with one more; none where one of them has a fault.
fn with_label(list: Option<TLabels>, label: Option<TLabel>, full: &mut bool) -> Option<TLabels>
    ensures { UnlessFull full.old full.new
        (option_map (λ v. v.items.items) result
        ≡ both label_after (option_map (λ v. v.items.items) list) label) }
{
    let Some(mut list) = list else {
        return None;
    };
    let Some(label) = label else {
        return None;
    };
    match list.push(label) {
        Ok(()) => Some(list),
        Err(Memory) => {
            *full = true;
            None
        }
    }
}

impl Environment<'_> {
    // The last end of a range; none of one value.
    fn last_end(&self, ty: Option<Ty>, e: &Option<Expr>, noted: &mut Noted) -> Option<Number>
        ensures { UnlessFull noted.old.full noted.new.full
            (TypesLast self.now.names.now ty (expr_tree_or_none e.now) noted.old.first noted.new.first result) }
    {
        match e {
            None => None,
            Some(e) => Some(self.read_number(ty, e, noted)),
        }
    }

    // A label. What is wrong with either end is told at the first one.
    fn type_label(&self, ty: Option<Ty>, label: &Label, noted: &mut Noted) -> Option<TLabel>
        ensures { UnlessFull noted.old.full noted.new.full
            (TypesLabel self.now.names.now ty (label_tree label.now) noted.old.first noted.new.first result) }
    {
        let low = self.read_number(ty, &label.first, noted);
        let high = self.last_end(ty, &label.last, noted);
        let spot = spot_of(&label.first);
        label_fault(is_label(low.form, high), spot, &mut noted.first);
        label_ends(spot, low.value, high)
    }

    /// Types the labels of a branch, for a selector of the type: notes their faults, and gives the checked
    /// labels, none where one has a fault.
    pub(crate) fn type_labels(
        &self,
        ty: Option<Ty>,
        labels: &[Label],
        noted: &mut Noted,
    ) -> Option<TLabels>
        ensures { UnlessFull noted.old.full noted.new.full
            (TypesLabels self.now.names.now ty (label_trees labels.now) noted.old.first noted.new.first (option_map (λ v. v.items.items) result)) }
    {
        let mut list = Some(TLabels::new(self.alloc));
        'each: for label in labels {
            let made = self.type_label(ty, label, noted);
            list = with_label(list, made, &mut noted.full);
        }
        list
    }
}
