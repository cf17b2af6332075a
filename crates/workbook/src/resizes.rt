//! Another length for a stream.

ghost use Rattle.std.specs.Prelude.{◌≡◌, replicate};
ghost use Rattle.minifat.specs.Told.{told_of};
ghost use Rattle.workbook.specs.Calls.{rest_of};
ghost use Rattle.workbook.specs.Events.{resized};
ghost use Rattle.workbook.specs.Promises.{Promised};
ghost use Rattle.workbook.specs.Sights.{seen, home_of, unit_in};

use crate::Workbook;
use crate::homes::Home;
use store::faults::Fault;
use store::stores::{ChainStore, Host};

// No unit has more bytes.
const MOST_UNIT: usize = 4096;

const ZEROS: [u8; MOST_UNIT] = [0; MOST_UNIT];

impl<H: Host> Workbook<H> {
    // The zeros from a place to the end of its unit, where it is not at one's start, for a stream of such a length.
    fn rest(&mut self, len: u64, at: u64) -> &'static [u8]
        ensures told { result.now ≡ replicate (rest_of (unit_in (seen self.old.store.state.0) (home_of len)) at) 0 }
        ensures left { self.new.store.state.0 ≡ self.old.store.state.0 }
    {
        let unit = u64::from(Home::of(len).unit(&mut self.store));
        let count = (unit - at % unit) % unit;
        &ZEROS[..count as usize]
    }

    // Gives a stream another length. Its first bytes stay, as far as it reaches; the rest of the unit where they end is made
    // zeros, which is what the stream reads as there when it grows, now or later.
    pub fn resize(&mut self, id: u32, len: u64) -> Result<(), Fault>
        ensures { Promised self.old (resized id len (told_of (λ x. x) result)) self.new }
    {
        let entry = self.stream(id)?;
        let kept = entry.length.min(len);
        let rest = self.rest(len, kept);
        self.fill(id, len, kept, rest)
    }
}
