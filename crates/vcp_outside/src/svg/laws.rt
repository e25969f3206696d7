//! The law of pictures. The function does nothing: it states a law.

ghost use Rattle.std.specs.Prelude.{ℕ, List};
ghost use Rattle.std.specs.List.{AllByRecursion};
ghost use Rattle.vcp_outside.specs.Elements.{Element, picture_text};
ghost use Rattle.vcp_outside.specs.WellFormed.{IsDocument, HasEachOnce};

/// The text of a picture is a well-formed document, where no element of it has an attribute twice. Each start
/// has its end, names are names, and no text and no value has a character with a meaning of its own.
pub fn pictures_are_well_formed()
    ensures { (width height : ℕ) (elements : List Element) → AllByRecursion HasEachOnce elements
        → IsDocument (picture_text width height elements) }
{}
