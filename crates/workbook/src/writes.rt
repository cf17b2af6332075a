//! The calls that change streams.

ghost use Rattle.minifat.specs.Told.{told_of};
ghost use Rattle.workbook.specs.Calls.{Filling};
ghost use Rattle.workbook.specs.Events.{written};
ghost use Rattle.workbook.specs.Promises.{Promised};

use crate::Workbook;
use crate::homes::Home;
use crate::streams::refused;
use store::faults::{Fault, Refusal};
use store::stores::{ChainStore, Host};

impl<H: Host> Workbook<H> {
    // Makes a stream fit a length, and lays bytes over its chain, where there are some. What is past the units that the length
    // needs is refused by their store.
    pub(crate) fn fill(&mut self, id: u32, len: u64, at: u64, src: &[u8]) -> Result<(), Fault>
        ensures { Filling H.ChainStore.MOST H.ChainStore.LAYER self.old.store.state.0 id len at src.now (told_of (λ x. x) result) self.new.store.state.0 }
    {
        let start = self.fit(id, len)?;
        if !src.is_empty() {
            Home::of(len).write(&mut self.store, start, at, src)?;
        }
        Ok(())
    }

    // Lays bytes over those of a stream from an offset on, past its end too.
    pub fn write(&mut self, id: u32, at: u64, src: &[u8]) -> Result<(), Fault>
        ensures { Promised self.old (written id at src.now (told_of (λ x. x) result)) self.new }
    {
        let entry = self.stream(id)?;
        if at > entry.length {
            return Err(refused(Refusal::PastLength, id, None));
        }
        let len = entry.length.max(at.saturating_add(src.len() as u64));
        self.fill(id, len, at, src)
    }
}
