//! Why a campaign was given up.

/// Why a campaign was given up before its end.
#[derive(Clone, Copy)]
pub enum CampaignFault {
    /// A line couldn't be written.
    Write,
    /// Memory was wanted for the verdict of a group.
    Memory,
}
