//! The mini store's own calls. Beside what a chain store promises they tell what becomes of host, table and stack: which mini
//! sector is taken, in which order sectors are added, what is trimmed.

ghost use Rattle.minialloc.specs.States.{meant_in, roomier, Sound, SyncedIn, Writes, Prepared, BeginsChain, ExtendsChain, CutsChain, FreesChain, TrimsTo};
ghost use Rattle.std.specs.Prelude.{◌≡◌, ◌+◌, false, [], length};
ghost use Rattle.links.specs.Links.{at};
ghost use Rattle.store.specs.Meaning.{units_of, due_head, due_copy, due_extend, due_cut, read_into, wrote, extended, cut_to, freed, Begins};
ghost use Rattle.store.specs.Refusals.{told, answer};

use crate::MiniStore;
use chain::linked::{begin, cut, lengthen, release};
use chain::pieces::{read_chain, write_chain};
use links::stacked::Stacked;
use mini::LAYER;
use mini::changes::{reserve, shorten_root};
use rooms::Ground;
use store::faults::{Refusal, StoreFault};
use store::stores::{ChainStore, Host};

impl<H: Host> MiniStore<H> {
    // A mini store over a host, shut.
    pub fn new(host: H) -> MiniStore<H>
        ensures host { result.host ≡ host }
        ensures shut { result.state.0 ≡ record { opened = false; host = H.ChainStore.meaning host; links = []; stack = [] } }
    {
        MiniStore {
            host,
            table: Stacked::new(),
            opened: false,
        }
    }

    // The units that can still be given.
    pub fn mini_room(&mut self) -> u32
        ensures told { result ≡ (meant_in self.old.state.0).room }
        ensures left { self.new.state.0 ≡ self.old.state.0 }
    {
        self.figures().map_or(0, |ground| self.room_over(ground))
    }

    // The units that could be given if the host had so many units of room more.
    pub fn mini_room_with(&mut self, more: u32) -> u32
        ensures told { result ≡ (meant_in (roomier self.old.state.0 more)).room }
        ensures left { self.new.state.0 ≡ self.old.state.0 }
    {
        let Some(ground) = self.figures() else {
            return 0;
        };
        let spare = ground.spare.saturating_add(more);
        self.room_over(Ground { spare, ..ground })
    }

    // How many mini sectors the chain of a head has.
    pub fn mini_units(&mut self, head: u32) -> Result<u32, StoreFault>
        ensures told { told result ≡ answer (due_head (meant_in self.old.state.0) 3 head) (units_of (meant_in self.old.state.0) head) }
        ensures left { self.new.state.0 ≡ self.old.state.0 }
    {
        let found = self.look(head, 0)?;
        Ok(found.chain.units)
    }

    // Fills the buffer with the bytes of a chain from an offset on.
    pub fn read_mini_chain(&mut self, head: u32, at: u64, out: &mut [u8]) -> Result<(), StoreFault>
        ensures told { told result ≡ answer (due_copy (meant_in self.old.state.0) 3 head (at + length out.old)) tt }
        ensures out { out.new ≡ read_into (meant_in self.old.state.0) 3 head at out.old }
        ensures left { self.new.state.0 ≡ self.old.state.0 }
    {
        self.holds(head, at, out.len())?;
        read_chain(self, head, at as usize, out);
        Ok(())
    }

    // Lays bytes over those of a chain from an offset on.
    pub fn write_mini_chain(&mut self, head: u32, at: u64, src: &[u8]) -> Result<(), StoreFault>
        ensures told { told result ≡ answer (due_copy (meant_in self.old.state.0) 3 head (at + length src.now)) tt }
        ensures left { meant_in self.new.state.0 ≡ wrote (meant_in self.old.state.0) 3 head at src.now }
        ensures writes { Writes self.old.state.0 head at src.now (told result) self.new.state.0 }
        ensures sound { SyncedIn self.old.state.0 → SyncedIn self.new.state.0 }
        ensures stays { Sound self.old.state.0 → Sound self.new.state.0 }
    {
        self.holds(head, at, src.len())?;
        write_chain(self, head, at as usize, src);
        Ok(())
    }

    // Makes ready for so many mini sectors more, by such figures: the host adds the sectors for those that the FREE places do
    // not hold. Without so much room it is refused at the given place, and nothing changes.
    fn prepare(&mut self, ground: Ground, count: u32, place: u32) -> Result<(), StoreFault>
        ensures { Prepared H.ChainStore.MOST H.ChainStore.LAYER self.old.state.0 ground count place result self.new.state.0 }
    {
        if count > self.room_over(ground) {
            return Err(Refusal::NoRoom.at(LAYER, place));
        }
        let free = self.free_places();
        reserve(&mut self.host, ground, count.saturating_sub(free));
        Ok(())
    }

    // A new chain of so many mini sectors of zeros; answers its head.
    pub fn begin_mini_chain(&mut self, count: u32) -> Result<u32, StoreFault>
        ensures begins { Begins (meant_in self.old.state.0) 3 count (told result) (meant_in self.new.state.0) }
        ensures taken { BeginsChain H.ChainStore.MOST H.ChainStore.LAYER self.old.state.0 count (told result) self.new.state.0 }
        ensures sound { SyncedIn self.old.state.0 → SyncedIn self.new.state.0 }
        ensures stays { Sound self.old.state.0 → Sound self.new.state.0 }
    {
        if count == 0 {
            return Err(Refusal::BadCount.at(LAYER, 0));
        }
        let ground = self.figures().ok_or(Refusal::NoRoom.at(LAYER, 0))?;
        self.prepare(ground, count, 0)?;
        Ok(begin(self, count))
    }

    // So many mini sectors of zeros more at the end of a chain.
    pub fn extend_mini_chain(&mut self, head: u32, count: u32) -> Result<(), StoreFault>
        ensures told { told result ≡ answer (due_extend (meant_in self.old.state.0) 3 head count) tt }
        ensures left { meant_in self.new.state.0 ≡ extended (meant_in self.old.state.0) 3 head count }
        ensures taken { ExtendsChain H.ChainStore.MOST H.ChainStore.LAYER self.old.state.0 head count (told result) self.new.state.0 }
        ensures sound { SyncedIn self.old.state.0 → SyncedIn self.new.state.0 }
        ensures stays { Sound self.old.state.0 → Sound self.new.state.0 }
    {
        let found = self.look(head, u32::MAX)?;
        self.prepare(found.ground, count, head)?;
        lengthen(self, head, found.chain.place, count);
        Ok(())
    }

    // The trailing FREE links go from table and stack, with 64 bytes of root length each.
    fn trim(&mut self)
        ensures trims { TrimsTo H.ChainStore.LAYER self.old.state.0 self.new.state.0 }
        ensures same { at self.new.state.0.links ≡ at self.old.state.0.links }
    {
        let gone = self.table.trim();
        if gone > 0 {
            shorten_root(&mut self.host, gone);
        }
    }

    // The chain keeps its first `count` mini sectors.
    pub fn cut_mini_chain(&mut self, head: u32, count: u32) -> Result<(), StoreFault>
        ensures told { told result ≡ answer (due_cut (meant_in self.old.state.0) 3 head count) tt }
        ensures left { meant_in self.new.state.0 ≡ cut_to (meant_in self.old.state.0) 3 head count }
        ensures cuts { CutsChain H.ChainStore.LAYER self.old.state.0 head count (told result) self.new.state.0 }
        ensures sound { SyncedIn self.old.state.0 → SyncedIn self.new.state.0 }
        ensures stays { Sound self.old.state.0 → Sound self.new.state.0 }
    {
        let found = self.look(head, count.saturating_sub(1))?;
        if count == 0 || count > found.chain.units {
            return Err(Refusal::BadCount.at(LAYER, head));
        }
        cut(self, head, found.chain, count);
        self.trim();
        Ok(())
    }

    // The chain is removed, from its head on.
    pub fn free_mini_chain(&mut self, head: u32) -> Result<(), StoreFault>
        ensures told { told result ≡ answer (due_head (meant_in self.old.state.0) 3 head) tt }
        ensures left { meant_in self.new.state.0 ≡ freed (meant_in self.old.state.0) 3 head }
        ensures frees { FreesChain H.ChainStore.LAYER self.old.state.0 head (told result) self.new.state.0 }
        ensures sound { SyncedIn self.old.state.0 → SyncedIn self.new.state.0 }
        ensures stays { Sound self.old.state.0 → Sound self.new.state.0 }
    {
        let found = self.look(head, 0)?;
        release(self, head, found.chain.units);
        self.trim();
        Ok(())
    }
}
