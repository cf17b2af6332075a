//! Mini sectors as units: linked by the table, with their bytes in the mini stream. The shared text of chains works on them.

ghost use Rattle.chain.specs.Webs.{viewed};
ghost use Rattle.links.specs.Stack.{place_after};
ghost use Rattle.mini.proofs.Laws.{stacked_woven, stacked_whole};
ghost use Rattle.mini.specs.Steps.{took_mini, put_mini, ended_mini, gave_mini};
ghost use Rattle.minialloc.specs.States.{state_in, web_in, next_mini, Sound, SyncedIn};

use crate::MiniStore;
use chain::linked::Linked;
use chain::pieces::Units;
use links::LinkTable;
use links::consts::END_OF_CHAIN;
use mini::MINI_SECTOR_LEN;
use mini::changes::{occupy, read_stream, vacate, write_link, write_stream};
use store::stores::{ChainStore, Host};

impl<H: Host> Linked for MiniStore<H> {
    ghost web = { λ m. web_in (state_in m.opened (H.ChainStore.meaning m.host) m.table) };

    ghost sound = { λ m. Sound (state_in m.opened (H.ChainStore.meaning m.host) m.table) };

    ghost woven = { λ m h. stacked_woven m.table (H.ChainStore.meaning m.host) h.1 };

    ghost keeps = { λ m. SyncedIn (state_in m.opened (H.ChainStore.meaning m.host) m.table) };

    ghost next = { next_mini };

    ghost took = { took_mini };

    ghost put = { put_mini };

    ghost ended = { ended_mini };

    ghost gave = { gave_mini };

    fn take(&mut self) -> u32 {
        let fresh = self.table.free() == 0;
        let place = self.table.take().unwrap();
        occupy(&mut self.host, fresh, place);
        place
    }

    fn append(&mut self, last: u32) -> u32 {
        let fresh = self.table.free() == 0;
        let place = self.table.append(last).unwrap();
        occupy(&mut self.host, fresh, place);
        write_link(&mut self.host, last, place);
        place
    }

    fn cut_off(&mut self, place: u32) -> u32 {
        let link = self.table.cut_off(place).unwrap();
        write_link(&mut self.host, place, END_OF_CHAIN);
        link
    }

    fn give_back(&mut self, place: u32) -> u32 {
        let link = self.table.give_back(place);
        vacate(&mut self.host, place);
        link
    }
}

impl<H: Host> Units for MiniStore<H> {
    ghost view = { λ m. viewed (web_in (state_in m.opened (H.ChainStore.meaning m.host) m.table)) };

    ghost sound = { λ m. Sound (state_in m.opened (H.ChainStore.meaning m.host) m.table) };

    ghost whole = { λ m h. stacked_whole m.table (H.ChainStore.meaning m.host) h.1 };

    fn unit_len(&self) -> usize {
        MINI_SECTOR_LEN as usize
    }

    fn next(&mut self, _head: u32, place: u32, _rank: usize) -> u32 {
        self.table.links().get(place).unwrap()
    }

    fn read_unit(&mut self, place: u32, at: usize, out: &mut [u8]) {
        let from = u64::from(place) * u64::from(MINI_SECTOR_LEN);
        read_stream(&mut self.host, from + at as u64, out);
    }

    fn write_unit(&mut self, place: u32, at: usize, src: &[u8]) {
        let from = u64::from(place) * u64::from(MINI_SECTOR_LEN);
        write_stream(&mut self.host, from + at as u64, src);
    }
}
