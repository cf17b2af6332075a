//! The calls on streams. What can refuse a call is looked for first, so that from the first change on nothing fails.

ghost use Rattle.std.specs.Prelude.{◌≡◌};
ghost use Rattle.std.specs.Option.{option_map};
ghost use Rattle.minifat.specs.Told.{told_of, fault_of};
ghost use Rattle.store.specs.Refusals.{number_of, refused_by};
ghost use Rattle.workbook.specs.Events.{measured, read, counted};
ghost use Rattle.workbook.specs.Promises.{Begins, Promised};
ghost use Rattle.workbook.specs.Refusals.{stream_of};

use crate::homes::Home;
use crate::{LAYER, Workbook};
use minialloc::MiniStore;
use store::entries::Entry;
use store::faults::{Fault, Refusal, StoreFault};
use store::stores::{ChainStore, Host};

// What the workbook itself refuses.
pub(crate) fn refused(refusal: Refusal, place: u32, lower: Option<StoreFault>) -> Fault
    ensures { fault_of result ≡ record { number = number_of refusal; layer = 4; place = place; lower = option_map refused_by lower } }
{
    Fault {
        refusal,
        layer: LAYER,
        place,
        lower,
    }
}

// The units that the host and the mini store can still give.
#[derive(Clone, Copy, PartialEq, Eq, Debug)]
pub struct Room {
    pub host: u32,
    pub mini: u32,
}

impl<H: Host> Workbook<H> {
    // Over a host, shut.
    pub fn new(host: H) -> Workbook<H>
        ensures { Begins (H.ChainStore.meaning host) result }
    {
        Workbook {
            store: MiniStore::new(host),
        }
    }

    // The entry of a stream.
    pub(crate) fn stream(&mut self, id: u32) -> Result<Entry, Fault>
        ensures told { told_of (λ e. e) result ≡ stream_of self.old.store.state.0 H.ChainStore.LAYER id }
        ensures left { self.new.store.state.0 ≡ self.old.store.state.0 }
    {
        if !self.store.is_open() {
            return Err(refused(Refusal::Shut, 0, None));
        }
        let found = self.store.entry(id);
        let entry = found.map_err(|lower| refused(Refusal::NotStream, id, Some(lower)))?;
        if entry.kind.is_stream() {
            Ok(entry)
        } else {
            Err(refused(Refusal::NotStream, id, None))
        }
    }

    // The length of a stream.
    pub fn len(&mut self, id: u32) -> Result<u64, Fault>
        ensures { Promised self.old (measured id (told_of (λ n. n) result)) self.new }
    {
        let entry = self.stream(id)?;
        Ok(entry.length)
    }

    // Fills the buffer with the bytes of a stream from an offset on, as far as there are some, and tells how many.
    pub fn read(&mut self, id: u32, at: u64, out: &mut [u8]) -> Result<usize, Fault>
        ensures { Promised self.old (read id at out.old (told_of (λ n. n) result) out.new) self.new }
    {
        let entry = self.stream(id)?;
        let count = entry.length.saturating_sub(at).min(out.len() as u64) as usize;
        if count > 0 {
            Home::of(entry.length).read(&mut self.store, entry.start, at, &mut out[..count])?;
        }
        Ok(count)
    }

    // The room of the host, and that of the mini store.
    pub fn room(&mut self) -> Result<Room, Fault>
        ensures { Promised self.old (counted (told_of (λ r. (r.host, r.mini)) result)) self.new }
    {
        if !self.store.is_open() {
            return Err(refused(Refusal::Shut, 0, None));
        }
        let host = self.store.host_room();
        let mini = self.store.mini_room();
        Ok(Room { host, mini })
    }
}
