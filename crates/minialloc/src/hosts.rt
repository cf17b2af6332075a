//! The host's own calls, reached through the mini store: the layer above needs the host's chains and entries as well, and the
//! host is not lent out. Each call promises what the host promises of it, over the host's meaning, and leaves table and
//! openness as they are. The header words are told; they are set by the mini store alone.

ghost use Rattle.std.specs.Prelude.{◌≡◌, ◌+◌, length};
ghost use Rattle.mini.specs.Mini.{root_of};
ghost use Rattle.store.specs.Meaning.{Hosted, units_of, due_head, due_copy, due_extend, due_cut, due_entry, read_into, wrote, extended, cut_to, freed, Begins, entry_of, entered};
ghost use Rattle.store.specs.Refusals.{told, answer};

use crate::MiniStore;
use mini::root;
use store::entries::{Entry, Words};
use store::faults::StoreFault;
use store::stores::{ChainStore, Host};

// Kept: a call for each of the host's, as their names are public, and a host lent out as `&mut H` could be told other words.
impl<H: Host> MiniStore<H> {
    // The host's unit in bytes.
    pub fn host_unit(&mut self) -> u32
        ensures told { result ≡ self.old.state.0.host.unit }
        ensures left { self.new.state.0 ≡ self.old.state.0 }
    {
        self.host.unit()
    }

    // The units that the host can still give.
    pub fn host_room(&mut self) -> u32
        ensures told { result ≡ self.old.state.0.host.room }
        ensures left { self.new.state.0 ≡ self.old.state.0 }
    {
        self.host.room()
    }

    // How many units a chain of the host has.
    pub fn host_units(&mut self, head: u32) -> Result<u32, StoreFault>
        ensures told { told result ≡ answer (due_head self.old.state.0.host H.ChainStore.LAYER head) (units_of self.old.state.0.host head) }
        ensures left { self.new.state.0 ≡ self.old.state.0 }
    {
        self.host.units(head)
    }

    // Fills the buffer from a chain of the host.
    pub fn host_read(&mut self, head: u32, at: u64, out: &mut [u8]) -> Result<(), StoreFault>
        ensures told { told result ≡ answer (due_copy self.old.state.0.host H.ChainStore.LAYER head (at + length out.old)) tt }
        ensures out { out.new ≡ read_into self.old.state.0.host H.ChainStore.LAYER head at out.old }
        ensures left { self.new.state.0 ≡ self.old.state.0 }
    {
        self.host.read(head, at, out)
    }

    // Lays bytes over a chain of the host.
    pub fn host_write(&mut self, head: u32, at: u64, src: &[u8]) -> Result<(), StoreFault>
        ensures told { told result ≡ answer (due_copy self.old.state.0.host H.ChainStore.LAYER head (at + length src.now)) tt }
        ensures left { self.new.state.0 ≡ record (self.old.state.0) { host = wrote self.old.state.0.host H.ChainStore.LAYER head at src.now } }
    {
        self.host.write(head, at, src)
    }

    // A new chain of the host.
    pub fn host_begin(&mut self, count: u32) -> Result<u32, StoreFault>
        ensures begins { Begins self.old.state.0.host H.ChainStore.LAYER count (told result) self.new.state.0.host }
        ensures left { self.new.state.0 ≡ record (self.old.state.0) { host = self.new.state.0.host } }
    {
        self.host.begin(count)
    }

    // So many units of zeros more at the end of a chain of the host.
    pub fn host_extend(&mut self, head: u32, count: u32) -> Result<(), StoreFault>
        ensures told { told result ≡ answer (due_extend self.old.state.0.host H.ChainStore.LAYER head count) tt }
        ensures left { self.new.state.0 ≡ record (self.old.state.0) { host = extended self.old.state.0.host H.ChainStore.LAYER head count } }
    {
        self.host.extend(head, count)
    }

    // A chain of the host keeps its first `count` units.
    pub fn host_cut(&mut self, head: u32, count: u32) -> Result<(), StoreFault>
        ensures told { told result ≡ answer (due_cut self.old.state.0.host H.ChainStore.LAYER head count) tt }
        ensures left { self.new.state.0 ≡ record (self.old.state.0) { host = cut_to self.old.state.0.host H.ChainStore.LAYER head count } }
    {
        self.host.cut(head, count)
    }

    // A chain of the host is removed.
    pub fn host_free(&mut self, head: u32) -> Result<(), StoreFault>
        ensures told { told result ≡ answer (due_head self.old.state.0.host H.ChainStore.LAYER head) tt }
        ensures left { self.new.state.0 ≡ record (self.old.state.0) { host = freed self.old.state.0.host H.ChainStore.LAYER head } }
    {
        self.host.free(head)
    }

    // How many entries there are.
    pub fn entries(&mut self) -> u32
        ensures told { result ≡ length self.old.state.0.host.notes.entries }
        ensures hosted { Hosted self.old.state.0.host }
        ensures left { self.new.state.0 ≡ self.old.state.0 }
    {
        self.host.entries()
    }

    // The entry with an id.
    pub fn entry(&mut self, id: u32) -> Result<Entry, StoreFault>
        ensures told { told result ≡ entry_of self.old.state.0.host H.ChainStore.LAYER id }
        ensures left { self.new.state.0 ≡ self.old.state.0 }
    {
        self.host.entry(id)
    }

    // The root entry; where there is none, one of no kind and no bytes.
    pub fn root(&mut self) -> Entry
        ensures told { result ≡ root_of self.old.state.0.host }
        ensures left { self.new.state.0 ≡ self.old.state.0 }
    {
        root(&mut self.host)
    }

    // Sets start and length of an entry; its kind stays.
    pub fn set_entry(&mut self, id: u32, start: u32, len: u32) -> Result<(), StoreFault>
        ensures told { told result ≡ answer (due_entry self.old.state.0.host H.ChainStore.LAYER id) tt }
        ensures left { self.new.state.0 ≡ record (self.old.state.0) { host = entered self.old.state.0.host H.ChainStore.LAYER id start len } }
    {
        self.host.set_entry(id, start, len)
    }

    // The header words.
    pub fn words(&mut self) -> Words
        ensures told { result ≡ self.old.state.0.host.notes.words }
        ensures left { self.new.state.0 ≡ self.old.state.0 }
    {
        self.host.words()
    }
}
