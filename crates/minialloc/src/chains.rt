//! The mini store as a chain store: its own calls, as the interface has them.

ghost use Rattle.minialloc.specs.Laws.{lawful_shown};
ghost use Rattle.minialloc.specs.States.{meant_in, SyncedIn};

use crate::MiniStore;
use links::consts::MOST_LINKS;
use mini::MINI_SECTOR_LEN;
use store::faults::StoreFault;
use store::stores::{ChainStore, Host};

// Kept: calls of its own that these pass on, as their names are public and they promise more than the interface.
impl<H: Host> ChainStore for MiniStore<H> {
    const LAYER: u8 = mini::LAYER;

    const MOST: u32 = MOST_LINKS;

    ghost meaning = { λ m. meant_in m.state.0 };

    ghost LAYER = { 3 };

    ghost MOST = { 4096 };

    ghost lawful = { λ m. lawful_shown m.opened (H.ChainStore.meaning m.host) m.table m.state H.ChainStore.MOST (H.ChainStore.lawful m.host) };

    ghost sound = { λ m. SyncedIn m.state.0 };

    fn unit(&mut self) -> u32 {
        MINI_SECTOR_LEN
    }

    fn room(&mut self) -> u32 {
        self.mini_room()
    }

    fn units(&mut self, head: u32) -> Result<u32, StoreFault> {
        self.mini_units(head)
    }

    fn read(&mut self, head: u32, at: u64, out: &mut [u8]) -> Result<(), StoreFault> {
        self.read_mini_chain(head, at, out)
    }

    fn write(&mut self, head: u32, at: u64, src: &[u8]) -> Result<(), StoreFault> {
        self.write_mini_chain(head, at, src)
    }

    fn begin(&mut self, count: u32) -> Result<u32, StoreFault> {
        self.begin_mini_chain(count)
    }

    fn extend(&mut self, head: u32, count: u32) -> Result<(), StoreFault> {
        self.extend_mini_chain(head, count)
    }

    fn cut(&mut self, head: u32, count: u32) -> Result<(), StoreFault> {
        self.cut_mini_chain(head, count)
    }

    fn free(&mut self, head: u32) -> Result<(), StoreFault> {
        self.free_mini_chain(head)
    }
}
