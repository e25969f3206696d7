//! What is written of sites.

ghost use Rattle.std.specs.Prelude.{◌≡◌, ◌-◌, min};
ghost use Rattle.fault_sites.specs.Script.{chosen_part};

use crate::Part;

/// What is written of sites.
#[derive(Clone, Copy)]
pub enum Chosen {
    /// The script of all.
    All,
    /// The script of a part.
    Part(Part),
    /// How many there are.
    Number,
}

/// How many of so many sites are in a part.
pub(crate) fn size_of(part: Part, total: u64) -> u64
    ensures { result ≡ min part.left (total - part.skip) }
{
    part.left.min(total.saturating_sub(part.skip))
}

/// The part of so many sites that is chosen; `None` where their number alone is wanted.
pub(crate) fn part_of(chosen: &Chosen, total: u64) -> Option<Part>
    ensures { result ≡ chosen_part total chosen.now }
{
    match *chosen {
        Chosen::All => Some(Part {
            skip: 0,
            left: total,
        }),
        Chosen::Part(part) => Some(part),
        Chosen::Number => None,
    }
}
