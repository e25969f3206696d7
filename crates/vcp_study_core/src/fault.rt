//! Why a command ends before all is written.

ghost use Rattle.std.specs.Prelude.{◌≡◌, Ok, Err, OnOk, OnErr};
ghost use Rattle.vcp_study_core.specs.declared.fault.Fault.TheVariants as fault;

use fault_sites::Refused;
use pictures::RunTextFault;
use vcp_inputs::NoInput;
use vcp_outside::Failed;
use verdict_tables::VerdictsFault;

/// Why a command ends before all is written.
#[derive(Clone, Copy)]
pub enum Fault<'a> {
    /// There is nothing of what lines tell by this name: of a file, or of ROWS.
    Input {
        /// The name.
        name: &'a [u8],
        /// Why there is nothing.
        input: NoInput,
    },
    /// A file is refused for a reason that only this program knows.
    Refused {
        /// The file's name.
        name: &'a [u8],
        /// Why.
        why: StudyRefusal,
    },
    /// The sink of the output failed.
    Write,
    /// An allocation failed.
    Memory,
}

/// Why a file is refused, where no other program reads such a file, or asks this of it.
#[derive(Clone, Copy)]
pub enum StudyRefusal {
    /// The file is no run.
    Run(RunTextFault),
    /// The script of the image's sites would have more than 10,000 faults.
    Sites,
    /// The script names another image.
    Image,
    /// The text doesn't have the verdicts of the script.
    Verdicts(VerdictsFault),
    /// No program in Structured Text is found that has the run of the instruction list.
    Text,
    /// A line that names faults is refused.
    Named(Refused),
}

/// What a command comes to that wrote a text, where it finds what it looks for or doesn't.
pub(crate) fn told<'a>(sink: Result<(), Failed>, found: bool) -> Result<bool, Fault<'a>>
    ensures ok { OnOk sink (result ≡ Ok found) }
    ensures err { OnErr sink (result ≡ Err fault.Write) }
{
    match sink {
        Ok(()) => Ok(found),
        Err(Failed) => Err(Fault::Write),
    }
}
