//! The two stores that a stream can lie in, by one text: what is done to a chain is asked of the store that it is in.

ghost use Rattle.std.specs.Prelude.{◌≡◌, ◌+◌, length};
ghost use Rattle.store.specs.Meaning.{units_of, due_head, due_copy, due_extend, due_cut, read_into};
ghost use Rattle.store.specs.Refusals.{told, answer};
ghost use Rattle.workbook.specs.Homes.{store_in, layer_in, WritesIn, BeginsIn, ExtendsIn, CutsIn, FreesIn};
ghost use Rattle.workbook.specs.Sights.{home_of};

use crate::MINI_STREAM_CUTOFF;
use mini::MINI_SECTOR_LEN;
use minialloc::MiniStore;
use store::faults::StoreFault;
use store::stores::{ChainStore, Host as AnyHost};

// Where a stream lies: in the mini store, or in the host.
#[derive(Clone, Copy, PartialEq, Eq, Debug)]
pub(crate) enum Home {
    Mini,
    Host,
}

impl Home {
    // Where a stream of such a length lies.
    pub(crate) fn of(len: u64) -> Home
        ensures { result ≡ home_of len }
    {
        if len < u64::from(MINI_STREAM_CUTOFF) {
            Home::Mini
        } else {
            Home::Host
        }
    }

    pub(crate) fn unit<H: AnyHost>(self, store: &mut MiniStore<H>) -> u32
        ensures told { result ≡ (store_in store.old.state.0 self).unit }
        ensures left { store.new.state.0 ≡ store.old.state.0 }
    {
        match self {
            Home::Mini => MINI_SECTOR_LEN,
            Home::Host => store.host_unit(),
        }
    }

    pub(crate) fn room<H: AnyHost>(self, store: &mut MiniStore<H>) -> u32
        ensures told { result ≡ (store_in store.old.state.0 self).room }
        ensures left { store.new.state.0 ≡ store.old.state.0 }
    {
        match self {
            Home::Mini => store.mini_room(),
            Home::Host => store.host_room(),
        }
    }

    pub(crate) fn units<H: AnyHost>(
        self,
        store: &mut MiniStore<H>,
        head: u32,
    ) -> Result<u32, StoreFault>
        ensures told { told result ≡ answer (due_head (store_in store.old.state.0 self) (layer_in H.ChainStore.LAYER self) head) (units_of (store_in store.old.state.0 self) head) }
        ensures left { store.new.state.0 ≡ store.old.state.0 }
    {
        match self {
            Home::Mini => store.mini_units(head),
            Home::Host => store.host_units(head),
        }
    }

    pub(crate) fn read<H: AnyHost>(
        self,
        store: &mut MiniStore<H>,
        head: u32,
        at: u64,
        out: &mut [u8],
    ) -> Result<(), StoreFault>
        ensures told { told result ≡ answer (due_copy (store_in store.old.state.0 self) (layer_in H.ChainStore.LAYER self) head (at + length out.old)) tt }
        ensures out { out.new ≡ read_into (store_in store.old.state.0 self) (layer_in H.ChainStore.LAYER self) head at out.old }
        ensures left { store.new.state.0 ≡ store.old.state.0 }
    {
        match self {
            Home::Mini => store.read_mini_chain(head, at, out),
            Home::Host => store.host_read(head, at, out),
        }
    }

    pub(crate) fn write<H: AnyHost>(
        self,
        store: &mut MiniStore<H>,
        head: u32,
        at: u64,
        src: &[u8],
    ) -> Result<(), StoreFault>
        ensures told { told result ≡ answer (due_copy (store_in store.old.state.0 self) (layer_in H.ChainStore.LAYER self) head (at + length src.now)) tt }
        ensures left { WritesIn H.ChainStore.LAYER store.old.state.0 self head at src.now (told result) store.new.state.0 }
    {
        match self {
            Home::Mini => store.write_mini_chain(head, at, src),
            Home::Host => store.host_write(head, at, src),
        }
    }

    pub(crate) fn begin<H: AnyHost>(
        self,
        store: &mut MiniStore<H>,
        count: u32,
    ) -> Result<u32, StoreFault>
        ensures left { BeginsIn H.ChainStore.MOST H.ChainStore.LAYER store.old.state.0 self count (told result) store.new.state.0 }
    {
        match self {
            Home::Mini => store.begin_mini_chain(count),
            Home::Host => store.host_begin(count),
        }
    }

    pub(crate) fn extend<H: AnyHost>(
        self,
        store: &mut MiniStore<H>,
        head: u32,
        count: u32,
    ) -> Result<(), StoreFault>
        ensures told { told result ≡ answer (due_extend (store_in store.old.state.0 self) (layer_in H.ChainStore.LAYER self) head count) tt }
        ensures left { ExtendsIn H.ChainStore.MOST H.ChainStore.LAYER store.old.state.0 self head count (told result) store.new.state.0 }
    {
        match self {
            Home::Mini => store.extend_mini_chain(head, count),
            Home::Host => store.host_extend(head, count),
        }
    }

    pub(crate) fn cut<H: AnyHost>(
        self,
        store: &mut MiniStore<H>,
        head: u32,
        count: u32,
    ) -> Result<(), StoreFault>
        ensures told { told result ≡ answer (due_cut (store_in store.old.state.0 self) (layer_in H.ChainStore.LAYER self) head count) tt }
        ensures left { CutsIn H.ChainStore.LAYER store.old.state.0 self head count (told result) store.new.state.0 }
    {
        match self {
            Home::Mini => store.cut_mini_chain(head, count),
            Home::Host => store.host_cut(head, count),
        }
    }

    pub(crate) fn free<H: AnyHost>(
        self,
        store: &mut MiniStore<H>,
        head: u32,
    ) -> Result<(), StoreFault>
        ensures told { told result ≡ answer (due_head (store_in store.old.state.0 self) (layer_in H.ChainStore.LAYER self) head) tt }
        ensures left { FreesIn H.ChainStore.LAYER store.old.state.0 self head (told result) store.new.state.0 }
    {
        match self {
            Home::Mini => store.free_mini_chain(head),
            Home::Host => store.host_free(head),
        }
    }
}
