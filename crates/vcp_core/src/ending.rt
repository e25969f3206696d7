//! How commands end.

ghost use Rattle.std.specs.Prelude.{◌≡◌};
ghost use Rattle.vcp_core.specs.Faults.{campaign_end, line_end, text_end};
ghost use Rattle.vcp_core.specs.Reach.{end_status, run_code, run_line, told_line, told_status};

use crate::fault::Fault;
use coded_machine::RunFault;
use fault_injector::CampaignFault;
use vcp_inputs::NoInput;
use vcp_outside::Failed;

/// How a command came to its end.
#[derive(Clone, Copy)]
pub enum Ending {
    /// All was printed; a run came to the end of its rows.
    Done,
    /// A run stopped.
    Stopped,
    /// An output of a run was refused, or the channels of a pair disagreed, or a sending was answered by no word.
    Refused,
}

/// The status of a command that came to its end so.
pub fn status_of(end: Ending) -> u8
    ensures { result ≡ end_status end }
{
    match end {
        Ending::Done => 0,
        Ending::Stopped => 2,
        Ending::Refused => 3,
    }
}

/// How a command ends whose run, on rows that lines tell by this name, ended so.
pub fn run_ended<'a>(rows: &'a [u8], ended: Result<Ending, RunFault>) -> Result<Ending, Fault<'a>>
    ensures line { told_line result ≡ run_line rows.now ended }
    ensures status { told_status result ≡ run_code ended }
{
    match ended {
        Ok(end) => Ok(end),
        Err(RunFault::Rows(fault)) => Err(Fault::Input {
            name: rows,
            input: NoInput::from(fault),
        }),
        Err(RunFault::Write) => Err(Fault::Write),
        Err(RunFault::Memory) => Err(Fault::Memory),
    }
}

/// How the printing of a run's last line ended that ends the command so, where it was written.
pub fn line_ended(written: Result<(), Failed>, end: Ending) -> Result<Ending, Failed>
    ensures { result ≡ line_end written end }
{
    match written {
        Ok(()) => Ok(end),
        Err(Failed) => Err(Failed),
    }
}

/// How a command ends whose text was written, or wasn't since the sink failed.
pub fn text_ended<'a>(written: Result<(), Failed>) -> Result<Ending, Fault<'a>>
    ensures { result ≡ text_end written }
{
    match written {
        Ok(()) => Ok(Ending::Done),
        Err(Failed) => Err(Fault::Write),
    }
}

/// How a command ends whose groups of faults were all judged, or were not for this reason.
pub fn campaign_ended<'a>(ended: Result<(), CampaignFault>) -> Result<Ending, Fault<'a>>
    ensures { result ≡ campaign_end ended }
{
    match ended {
        Ok(()) => Ok(Ending::Done),
        Err(CampaignFault::Write) => Err(Fault::Write),
        Err(CampaignFault::Memory) => Err(Fault::Memory),
    }
}
