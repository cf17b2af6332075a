//! What a workbook has, shown as it is: the host's header words and entries, and the links of the table. The workbook itself
//! refuses none of these.

ghost use Rattle.minifat.specs.Told.{told_of};
ghost use Rattle.store.specs.Refusals.{told};
ghost use Rattle.workbook.specs.Events.{showed_words, showed_entry, showed_links};
ghost use Rattle.workbook.specs.Promises.{Promised};

use crate::Workbook;
use store::entries::{Entry, Words};
use store::faults::StoreFault;
use store::stores::Host;

impl<H: Host> Workbook<H> {
    // The header words.
    pub fn header(&mut self) -> Words
        ensures { Promised self.old (showed_words result) self.new }
    {
        self.store.words()
    }

    // The entry with an id, of a stream or not; or the host's refusal.
    pub fn entry(&mut self, id: u32) -> Result<Entry, StoreFault>
        ensures { Promised self.old (showed_entry id (told result)) self.new }
    {
        self.store.entry(id)
    }

    // The links of the table; none where the workbook is shut.
    pub fn links(&self) -> &[u32]
        ensures { Promised self.now (showed_links result.now) self.now }
    {
        self.store.links()
    }
}
