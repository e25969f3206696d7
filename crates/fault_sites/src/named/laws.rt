//! Laws of scripts by names. Each function does nothing: it states a law.

ghost use Rattle.fault_sites.specs.NamedLaws.{IsCompiled, IsShortEnough};

use crate::a_line_is_read_back;

/// The script of a text that is taken is read back as the faults that its lines say, each line's behind those of the line before, and has at
/// most 1,048,576 bytes where the text has at most 262,144.
pub fn a_script_by_names_is_read_back()
    ensures read { IsCompiled }
    ensures short { IsShortEnough }
{
    a_line_is_read_back();
}
