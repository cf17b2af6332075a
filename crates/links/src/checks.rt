//! The check that a table is to pass before its chains are used.

ghost use Rattle.std.specs.Prelude.{◌≡◌, ℕ, ◌↔◌, Ok};
ghost use Rattle.links.specs.Check.{number_of, place_of, reason, verdict, Lowest};
ghost use Rattle.links.specs.Links.{at, Checked};

use crate::LinkTable;
use crate::consts::{FREE_SECTOR, MAX_REGULAR_SECTOR, MOST_LINKS};
use crate::walks::link_or_free;
use std::fmt;

// What is wrong at a place of a table.
#[derive(Clone, Copy, PartialEq, Eq, Debug)]
pub enum LinkFault {
    // Its pointer is not below the count, or leads to a FREE link.
    Dangling(u32),
    // A lower place has the same pointer.
    Shared(u32),
}

impl LinkFault {
    // The number of the refusal (docs/REFUSALS.md).
    // Kept: a match, as its variants hold a place, so that there is no cast; the enum of all numbers is of a crate above.
    pub fn number(&self) -> u8
        ensures { result ≡ number_of self.now }
    {
        match self {
            LinkFault::Dangling(_) => 6,
            LinkFault::Shared(_) => 7,
        }
    }

    // The place at fault.
    pub fn place(&self) -> u32
        ensures { result ≡ place_of self.now }
    {
        match self {
            LinkFault::Dangling(place) | LinkFault::Shared(place) => *place,
        }
    }

    // Why the place is refused, in words.
    fn reason(&self) -> &'static str
        ensures { result.now ≡ reason self.now }
    {
        match self {
            LinkFault::Dangling(_) => "its pointer is past the table's end or leads to a FREE link",
            LinkFault::Shared(_) => "a lower place has the same pointer",
        }
    }
}

impl fmt::Display for LinkFault {
    ghost use Rattle.std.specs.Prelude.{Some};
    ghost use Rattle.links.specs.Check.{fault_text};

    ghost output = { λ fault. Some (fault_text fault) };

    fn fmt<W: fmt::Write>(&self, f: &mut fmt::Formatter<W>) -> fmt::Result {
        let number = self.number();
        let place = self.place();
        let reason = self.reason();
        write!(f, "refused {number} place {place}: {reason}")
    }
}

// Looks at each place, rising from 0, and refuses at the first that has a fault. A table of marks says which pointers
// were met, so that each place is looked at once.
pub fn check<T: LinkTable>(table: &T) -> Result<(), LinkFault>
    ensures told { result ≡ verdict (T.links table.now) }
    ensures lowest { Lowest (T.links table.now) result }
    ensures decides { (result ≡ Ok tt) ↔ Checked (at (T.links table.now)) }
{
    // Kept: an array, as all marks are used, one for each place that a table may have; no length stands beside them.
    let mut met = [false; MOST_LINKS as usize];
    for place in 0..table.count() {
        let link = link_or_free(table, place);
        if link > MAX_REGULAR_SECTOR {
            continue;
        }
        if link_or_free(table, link) == FREE_SECTOR {
            return Err(LinkFault::Dangling(place));
        }
        if met[link as usize] {
            return Err(LinkFault::Shared(place));
        }
        met[link as usize] = true;
    }
    Ok(())
}
