//! The directory entries of the drawer.

ghost use Rattle.drawer.specs.Entries.{all_empty};
ghost use Rattle.std.specs.List.{slice_get};
ghost use Rattle.std.specs.Prelude.{◌≡◌, length, if◌then◌else◌, Ok, Err, nat_lt};
ghost use Rattle.store.specs.Meaning.{moved};
ghost use Rattle.store.specs.declared.faults.Refusal.TheVariants.{NoEntry};

use store::entries::{Entry, ObjType};
use store::faults::Refusal;

// The directory entries, sixteen.
// Kept: an array, as their number is fixed, and memory too.
#[derive(Drop)]
pub struct Table {
    entries: [Entry; 16],
    ghost sixteen: { length entries ≡ 16 },
}

impl Table {
    // Entry 0 is the root, the others are streams, and all are empty.
    pub(crate) fn new() -> Table
        ensures { result.entries ≡ all_empty }
    {
        let mut entries = [Entry::empty(ObjType::Stream); 16];
        entries[0].kind = ObjType::Root;
        Table { entries }
    }

    // How many entries there are.
    pub(crate) fn len(&self) -> u32
        ensures { result ≡ length self.now.entries }
    {
        self.entries.len() as u32
    }

    // The entry with an id.
    pub(crate) fn get(&self, id: u32) -> Option<Entry>
        ensures { result ≡ slice_get self.now.entries id }
    {
        self.entries.get(id as usize).copied()
    }

    // One entry takes another start and length, and keeps its kind; the others stay. No change where there is no such entry.
    // Kept: an index after a test, as the contract of get_mut says nothing of what the slice of an array ends as.
    pub(crate) fn alter(&mut self, id: u32, start: u32, len: u32) -> Result<(), Refusal>
        ensures told { result ≡ (if nat_lt id (length self.old.entries) then Ok tt else Err NoEntry) }
        ensures left { self.new.entries ≡ moved self.old.entries id start len }
    {
        if id >= self.len() {
            return Err(Refusal::NoEntry);
        }
        let entry = &mut self.entries[id as usize];
        entry.start = start;
        entry.length = u64::from(len);
        Ok(())
    }
}
