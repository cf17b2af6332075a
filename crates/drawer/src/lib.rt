//! The drawer: a host kept in memory, of 64 units of 512 bytes and 16 entries.

#![tactic(auto)]

ghost use Rattle.std.proofs.Common.{rules};
ghost use Rattle.std.specs.Prelude.{◌≡◌, ℕ, ◌+◌, length};
ghost use Rattle.cells.proofs.Paths.{sound_of};
ghost use Rattle.cells.proofs.Stores.{lawful as lawfully};
ghost use Rattle.cells.specs.Stored.{taken_back};
ghost use Rattle.drawer.specs.Drawn.{noted, drawn, fresh, times, Steps};
ghost use Rattle.store.specs.Meaning.{Store, extended, due_head, units_of};
ghost use Rattle.store.specs.Refusals.{told, answer};

pub use crate::table::Table;
use cells::{Cells, UNIT, UNITS};
use links::consts::END_OF_CHAIN;
use store::entries::{Entry, Words};
use store::faults::{Refusal, StoreFault};
use store::stores::{ChainStore, Host};

mod table;
#[cfg(test)]
mod tests;

// Units that note head and rank, entries, and the header words.
#[derive(Drop)]
pub struct Drawer {
    cells: Cells,
    table: Table,
    words: Words,
}

impl Drawer {
    // A drawer with no chain: entry 0 is the root, the others are streams, and all are empty.
    pub fn new() -> Drawer
        ensures { drawn result ≡ fresh }
    {
        Drawer {
            cells: Cells::new(),
            table: Table::new(),
            words: Words {
                start: END_OF_CHAIN,
                count: 0,
            },
        }
    }

    // How many units the chain of a head has.
    fn count(&self, head: u32) -> Result<u32, StoreFault>
        ensures { told result ≡ answer (due_head (drawn self.now) 2 head) (units_of (drawn self.now) head) }
    {
        self.cells
            .units(head)
            .ok_or(Refusal::NotHead.at(Self::LAYER, head))
    }

    // A step on the units, taken so many times.
    fn repeat<F: Fn(&mut Cells) -> Result<(), Refusal>>(&mut self, count: u32, step: F)
        requires { F.IsAlwaysCallable step }
        ensures { (f : Store → Store) → Steps (F.post step) f → drawn self.new ≡ times count f (drawn self.old) }
    {
        for _ in 0..count {
            step(&mut self.cells).ok();
        }
    }

    // So many units of zeros more at the end of a chain, as far as there is room.
    fn grow(&mut self, head: u32, count: u32)
        ensures { drawn self.new ≡ times count (λ m. extended m 2 head 1) (drawn self.old) }
    {
        self.repeat(count, |cells| cells.give(head));
    }

    // So many units less at the end of a chain, as far as there are some.
    fn shrink(&mut self, head: u32, count: u32)
        ensures { drawn self.new ≡ times count (λ m. taken_back m head) (drawn self.old) }
    {
        self.repeat(count, |cells| cells.take_back(head));
    }
}

impl ChainStore for Drawer {
    const LAYER: u8 = 2;

    const MOST: u32 = UNITS;

    ghost meaning = { drawn };

    ghost LAYER = { 2 };

    ghost MOST = { 64 };

    ghost lawful = { λ d. lawfully d.cells.notes (sound_of d.cells) d.cells.bytes d.cells.filled (noted d) };

    ghost sound = { λ d. Unit {0} };

    fn unit(&mut self) -> u32 {
        UNIT as u32
    }

    fn room(&mut self) -> u32 {
        self.cells.room()
    }

    fn units(&mut self, head: u32) -> Result<u32, StoreFault> {
        self.count(head)
    }

    fn read(&mut self, head: u32, at: u64, out: &mut [u8]) -> Result<(), StoreFault> {
        self.count(head)?;
        self.cells
            .read(head, at, out)
            .map_err(|refusal| refusal.at(Self::LAYER, head))
    }

    fn write(&mut self, head: u32, at: u64, src: &[u8]) -> Result<(), StoreFault> {
        self.count(head)?;
        self.cells
            .write(head, at, src)
            .map_err(|refusal| refusal.at(Self::LAYER, head))
    }

    fn begin(&mut self, count: u32) -> Result<u32, StoreFault> {
        if count == 0 {
            return Err(Refusal::BadCount.at(Self::LAYER, 0));
        }
        if count > self.cells.room() {
            return Err(Refusal::NoRoom.at(Self::LAYER, 0));
        }
        let head = self
            .cells
            .start()
            .ok_or(Refusal::NoRoom.at(Self::LAYER, 0))?;
        self.grow(head, count - 1);
        Ok(head)
    }

    fn extend(&mut self, head: u32, count: u32) -> Result<(), StoreFault> {
        self.count(head)?;
        if count > self.cells.room() {
            return Err(Refusal::NoRoom.at(Self::LAYER, head));
        }
        self.grow(head, count);
        Ok(())
    }

    fn cut(&mut self, head: u32, count: u32) -> Result<(), StoreFault> {
        let units = self.count(head)?;
        if count == 0 || count > units {
            return Err(Refusal::BadCount.at(Self::LAYER, head));
        }
        self.shrink(head, units - count);
        Ok(())
    }

    fn free(&mut self, head: u32) -> Result<(), StoreFault> {
        let units = self.count(head)?;
        self.shrink(head, units);
        Ok(())
    }
}

impl Host for Drawer {
    fn entries(&mut self) -> u32 {
        self.table.len()
    }

    fn entry(&mut self, id: u32) -> Result<Entry, StoreFault> {
        self.table
            .get(id)
            .ok_or(Refusal::NoEntry.at(Self::LAYER, id))
    }

    fn set_entry(&mut self, id: u32, start: u32, len: u32) -> Result<(), StoreFault> {
        self.table
            .alter(id, start, len)
            .map_err(|refusal| refusal.at(Self::LAYER, id))
    }

    fn words(&mut self) -> Words {
        self.words
    }

    fn set_words(&mut self, words: Words) {
        self.words = words;
    }

    ghost hosted = { λ d. Prim.search (rules, d.table.sixteen) };
}
