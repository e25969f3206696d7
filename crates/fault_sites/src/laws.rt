//! Laws of sites. Each function does nothing: it states a law.

ghost use Rattle.fault_sites.specs.Laws.{EachFits, EachFlipOnce, EachOnce, EachReading, EachRunSiteFits, EachRunSiteOnce, IsLineRead, IsReadBack, IsShort};
ghost use Rattle.fault_sites.specs.Laws.{PartsAreWhole, RunIsReadBack, RunIsShort, TurnsOneBit};
ghost use Rattle.fault_sites.specs.Members.{HasEach};

use coded_unit::words_split_in_one_way;
use op_graph::entries_keep_their_rules;
use signature_table::{expected_residues_are_residues, signatures_are_distinct};

/// Each site fits the graph, in the sense of scripts of faults, whatever line it is in.
pub fn each_site_fits()
    ensures { EachFits }
{}

/// No site comes twice.
pub fn each_site_stands_once()
    ensures { EachOnce }
{}

/// Two parts, one behind the other, are one part of both lengths.
pub fn parts_are_the_whole()
    ensures { PartsAreWhole }
{}

/// The line of a fault that fits a graph is read back as that fault, whatever lines are before it and behind it.
pub fn a_line_is_read_back()
    ensures { IsLineRead }
{}

/// The script of a part of at most 10,000 sites is read back as the faults of these sites, a group each, in
/// their order, and has at most 1,048,576 bytes.
pub fn a_script_is_read_back()
    ensures read { IsReadBack }
    ensures short { IsShort }
{}

/// The sites of a class are the faults that are of the class, and no others. `bits` add plus or minus a power
/// of two up to 2^61 to a result or an operand, `stale` give an operand of the cycle before, `skip` keep the
/// answer of the cycle before, `from` give the word of another earlier operation whose type fits, `operator`
/// do the call as one of another kind.
pub fn each_fault_of_a_class_has_a_site()
    ensures { HasEach }
{}

/// What a flip adds to a word turns one bit of the word, and no other. For each b below 32 and each result in
/// each cycle of the run, up to its stop, 2^b is added to the result's word where bit b of that word is 0
/// while nothing is amiss, and subtracted where it is 1.
pub fn a_flip_turns_one_bit()
    ensures { TurnsOneBit }
{}

/// No flip of a run comes twice.
pub fn each_flip_stands_once()
    ensures { EachFlipOnce }
{}

/// No site that a run decides comes twice, in the code of a table: other operations have other words, so that other numbers are added for them.
pub fn each_run_site_stands_once()
    ensures { EachRunSiteOnce }
{
    signatures_are_distinct();
    expected_residues_are_residues();
    words_split_in_one_way();
}

/// What reads a word is an operation that is there: in the cycle, as one of its operands, or in the next one, as the LOAD of a cell.
pub fn each_reading_is_there()
    ensures { EachReading }
{
    entries_keep_their_rules();
}

/// Each site that a run decides fits the graph, and the script of a part of at most 10,000 of these is read back as their faults, in the same way.
pub fn a_script_of_a_run_is_read_back()
    ensures fit { EachRunSiteFits }
    ensures read { RunIsReadBack }
    ensures short { RunIsShort }
{}
