//! The lines of faults, and their statuses.

ghost use Rattle.std.specs.Prelude.{ℕ, List, ◌≡◌};
ghost use Rattle.vcp_outside.specs.Written.{WritesTo};
ghost use Rattle.vcp_study_core.specs.Forms.{usage_text};
ghost use Rattle.vcp_study_core.specs.FromFiles.{fault_answer};
ghost use Rattle.vcp_study_core.specs.Lines.{own_text, refused_words as refused_words_of, run_text, said_text, verdicts_text};

use crate::fault::{Fault, StudyRefusal};
use fault_sites::Why;
use input_rows::RowFault;
use pictures::RunTextFault;
use vcp_inputs::{Refusal, input_status, tell_input, tell_of, tell_place, tell_refusal};
use vcp_outside::{Failed, Sink, write_all};
use verdict_tables::VerdictsFault;

/// Prints the usage line.
pub(crate) fn tell_usage<E: Sink>(err: &mut E) -> Result<(), Failed>
    ensures { WritesTo (E.seen err.old) (E.seen err.new) usage_text result }
{
    write_all(
        err,
        b"usage: vcp_study graph M HORIZON, dot M HORIZON, waves FILE, waves FILE --cycle-time TIME, ranges M, \
          ranges M --all, ranges M --inputs FILE, ranges M --all --inputs FILE, \
          cover M HORIZON CLASS, sites M CYCLES CLASS, sites M CYCLES CLASS FROM COUNT, sites M CYCLES CLASS --count, \
          sites M ROWS flips, sites M ROWS flips FROM COUNT, sites M ROWS flips --count, \
          sites M ROWS late, sites M ROWS late FROM COUNT, sites M ROWS late --count, \
          sum M SCRIPT VERDICTS .., sum M SCRIPT VERDICTS .. ROWS, faults M SCRIPT VERDICTS, \
          script M NAMED, image P CODE or text P\n",
    )
}

/// Prints the line of a fault.
pub(crate) fn tell<E: Sink>(err: &mut E, fault: &Fault<'_>) -> Result<(), Failed>
    ensures { WritesTo (E.seen err.old) (E.seen err.new) (fault_answer fault.now).err result }
{
    match fault {
        Fault::Input { name, input } => tell_input(err, name, input),
        Fault::Refused { name, why } => tell_said(err, name, said_of(why)),
        Fault::Write => write_all(err, b"write fault\n"),
        Fault::Memory => write_all(err, b"no memory\n"),
    }
}

/// What a line says of a file.
#[derive(Clone, Copy)]
pub(crate) enum Said {
    /// Why rows are refused.
    Rows(RowFault),
    /// Words on one of its lines.
    At {
        /// The number of the line.
        line: u32,
        /// The words.
        words: &'static [u8],
    },
    /// Words on all of it.
    Of(&'static [u8]),
    /// Memory was wanted for it.
    Memory,
}

/// Prints the line that says so of the file under a name.
fn tell_said<E: Sink>(err: &mut E, name: &[u8], said: Said) -> Result<(), Failed>
    ensures { WritesTo (E.seen err.old) (E.seen err.new) (said_text name.now said) result }
{
    match said {
        Said::Rows(why) => tell_refusal(err, name, &Refusal::Rows(why)),
        Said::At { line, words } => tell_place(err, name, line, words),
        Said::Of(words) => tell_of(err, name, words),
        Said::Memory => write_all(err, b"no memory\n"),
    }
}

/// What is said of a file that only this program refuses.
fn said_of(why: &StudyRefusal) -> Said
    ensures { (name : List ℕ) → said_text name result ≡ own_text name why.now }
{
    match why {
        StudyRefusal::Run(why) => run_said(*why),
        StudyRefusal::Sites => Said::Of(b" L9 Sites"),
        StudyRefusal::Image => Said::Of(b":1 U1 Image"),
        StudyRefusal::Text => Said::Of(b" Q7 Text"),
        StudyRefusal::Verdicts(why) => verdicts_said(*why),
        StudyRefusal::Named(refused) => Said::At {
            line: refused.line,
            words: refused_words(refused.why),
        },
    }
}

/// What is said of a file that is no run.
fn run_said(why: RunTextFault) -> Said
    ensures { (name : List ℕ) → said_text name result ≡ run_text name why }
{
    match why {
        RunTextFault::Header => Said::Rows(RowFault::Header),
        RunTextFault::Names => Said::Of(b":1 L3 Names"),
        RunTextFault::Line { record } => Said::At {
            line: record,
            words: b"V1 Line",
        },
        RunTextFault::Width { record } => Said::Rows(RowFault::Width { row: record }),
        RunTextFault::Cell { record, column } => Said::Rows(RowFault::Cell {
            row: record,
            column,
        }),
        RunTextFault::Cycles => Said::Rows(RowFault::Cycles),
        RunTextFault::End => Said::Of(b" V2 End"),
        RunTextFault::Rest { record } => Said::At {
            line: record,
            words: b"V3 Rest",
        },
        RunTextFault::Cut => Said::Of(b" V4 Cut"),
        RunTextFault::Memory => Said::Memory,
    }
}

/// What is said of a text that doesn't have the verdicts of a script.
fn verdicts_said(why: VerdictsFault) -> Said
    ensures { (name : List ℕ) → said_text name result ≡ verdicts_text name why }
{
    match why {
        VerdictsFault::Group { line } => Said::At {
            line,
            words: b"U2 Group",
        },
        VerdictsFault::Verdict { line } => Said::At {
            line,
            words: b"U3 Verdict",
        },
        VerdictsFault::End { line } => Said::At {
            line,
            words: b"U4 End",
        },
        VerdictsFault::Totals { line } => Said::At {
            line,
            words: b"U5 Totals",
        },
        VerdictsFault::Rest { line } => Said::At {
            line,
            words: b"U6 Rest",
        },
        VerdictsFault::Memory => Said::Memory,
    }
}

/// What is said of a line that names faults, by why it is refused.
fn refused_words(why: Why) -> &'static [u8]
    ensures { result.now ≡ refused_words_of why }
{
    match why {
        Why::Form => b"F1 Form",
        Why::Site => b"F2 Site",
        Why::Early => b"F3 Early",
        Why::Kind => b"F4 Kind",
        Why::Faults => b"L5 Faults",
        Why::Unknown => b"N1 Unknown",
        Why::Several => b"N2 Several",
        Why::Held => b"N3 Held",
        Why::Image => b"N4 Image",
    }
}

/// The status of a fault whose line was printed.
pub(crate) fn fault_status(fault: &Fault<'_>) -> u8
    ensures { result ≡ (fault_answer fault.now).status }
{
    match fault {
        Fault::Input { name: _, input } => input_status(input),
        Fault::Refused { name: _, why: _ } => 1,
        Fault::Write => 6,
        Fault::Memory => 7,
    }
}
