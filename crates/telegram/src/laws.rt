//! Laws of what is delivered over a wire.

ghost use Rattle.std.specs.Prelude.{◌≡◌, ◌↔◌, ℕ, List, ℤ};
ghost use Rattle.telegram.specs.declared.receipt.Receipt.TheVariants.{Delivered};
ghost use Rattle.telegram.specs.Deliveries.{AreYoung, ComeFromSender, Rising, Solves, delivered};
ghost use Rattle.telegram.specs.WireRead.{right_words, wire_read};
ghost use Rattle.telegram.specs.declared.event.Event.{Event};
ghost use Rattle.telegram.specs.declared.wire.Wire.{Wire};
ghost use Rattle.telegram.specs.WireRun.{AreEvents, IsWire, receipt_at, sent_in, wired};

use coded_unit::{shifted_words_keep_their_parts, words_split_in_one_way};
use signature_table::{expected_residues_are_residues, signatures_are_distinct};

/// Where each sending is answered rightly, the receipts are those of the wire run: over every list of
/// events, a value is delivered exactly where the equation of signatures, the order of numbers, the age
/// and the type allow it, and each refusal has its first cause. It does nothing: it states a law.
///
/// In the wire run a telegram is delivered exactly where its cycle has begun, its sender's signature with
/// what was added is the heard sender's signature or differs from it by a multiple of `A`, its number is
/// above every delivered one, the present cycle is at most the age later, and the value that arrives is a
/// DINT.
pub fn receipts_follow_the_equation()
    ensures run { (w : Wire) (es : List Event) → IsWire w → AreEvents w es → wire_read w (right_words w 0 (sent_in es)) es ≡ wired w es }
    ensures equation { (w : Wire) (sent : List (List ℤ)) (begun : ℕ) (numbers : List ℕ) (id n : ℕ) (alter v : ℤ)
        → (receipt_at w sent begun numbers id n alter ≡ Delivered v) ↔ Solves w sent begun numbers id n alter v }
{
    words_split_in_one_way();
    shifted_words_keep_their_parts();
    expected_residues_are_residues();
}

/// The delivered numbers strictly rise, whatever the words are. It does nothing: it states a law. So it is in
/// the wire run, too.
pub fn deliveries_rise()
    ensures run { (w : Wire) (es : List Event) → Rising (delivered (wired w es)) }
    ensures read { (w : Wire) (words : List (List ℤ)) (es : List Event) → Rising (delivered (wire_read w words es)) }
{}

/// Nothing is delivered more cycles after its sending than the age, nor before it, whatever the words are. It
/// does nothing: it states a law. So it is in the wire run, too.
pub fn deliveries_are_young()
    ensures run { (w : Wire) (es : List Event) → AreYoung w.age (wired w es) }
    ensures read { (w : Wire) (words : List (List ℤ)) (es : List Event) → AreYoung w.age (wire_read w words es) }
{}

/// What is delivered of a telegram that wasn't altered on its way was sent by the sender that is heard, in
/// the cycle of its number. It does nothing: it states a law.
pub fn unaltered_come_from_their_sender()
    ensures { (w : Wire) (es : List Event) → IsWire w → AreEvents w es → ComeFromSender w es (wired w es) }
{
    words_split_in_one_way();
    expected_residues_are_residues();
    signatures_are_distinct();
}
