//! Laws of images.

ghost use Rattle.image_file.specs.Graphs.{OneGraph, OneFault, NoFault, ImageOrFault};

use op_graph::{entries_keep_their_rules, numbers_have_64_bits};

/// Bytes are the image of one graph, seed and step, or have one fault, and never both. It does nothing: it
/// states a law. Bytes have one fault at most, and all that are no image have one.
pub fn images_are_told_apart()
    ensures one_graph { OneGraph }
    ensures one_fault { OneFault }
    ensures no_fault { NoFault }
    ensures either { ImageOrFault }
{
    entries_keep_their_rules();
    numbers_have_64_bits();
}
