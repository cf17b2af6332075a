//! The mini store: chains of mini sectors of 64 bytes, linked by the MiniFAT, inside any host.
//!
//! It keeps its table and whether it is open, and asks the host for all else at every call. Where the host does not bear the
//! table out, a mini store means what a shut one means, so no call asks anything of its caller.

#![tactic(auto)]

ghost use Rattle.minialloc.specs.Looks.{Looks, Holds};
ghost use Rattle.minialloc.specs.States.{Shown, Shown-prop, state_in, figures_in};
ghost use Rattle.rooms.specs.Rooms.{growth};
ghost use Rattle.std.specs.Option.{option_map};
ghost use Rattle.std.specs.Prelude.{◌≡◌, ◌+◌, length};

use chain::pieces::within;
use links::LinkTable;
use links::stacked::Stacked;
use links::walks::{Surveyed, survey};
use mini::{LAYER, MINI_SECTOR_LEN, ground};
use rooms::Ground;
use store::faults::{Refusal, StoreFault};
use store::stores::{ChainStore, Host};

pub mod calls;
pub mod chains;
pub mod hosts;
pub mod opening;
pub mod shown;
mod units;

// A host, and the table with its stack, which stays while it is shut.
#[derive(Drop)]
pub struct MiniStore<H: Host> {
    host: H,
    table: Stacked,
    opened: bool,
    // Its state, by a name for contracts to read.
    // Kept: that the host is lawful and has entries is no ghost field, as the search then leaves `invariant_of-self` open in
    // each call that changes the host; the laws of the host say it where it is needed.
    // Kept: no `impl Model`, as its value would need a code, and what a host means is functions, which have none.
    ghost state: { Shown (state_in opened (H.ChainStore.meaning host) table) } by { Shown-prop (state_in opened (H.ChainStore.meaning host) table) },
}

// A chain that was gone along once: its units and the place at a rank or its last, with the figures of the host.
#[derive(Clone, Copy)]
struct Found {
    chain: Surveyed,
    ground: Ground,
}

impl<H: Host> MiniStore<H> {
    // The figures that room is reckoned from; nothing where it is shut, or the host does not bear the table out.
    fn figures(&mut self) -> Option<Ground>
        ensures told { result ≡ figures_in self.old.state.0 }
        ensures left { self.new.state.0 ≡ self.old.state.0 }
    {
        if !self.opened {
            return None;
        }
        ground(&mut self.host, self.table.links().count())
    }

    // How many places of the table are FREE.
    fn free_places(&self) -> u32
        ensures { result ≡ length self.now.state.0.stack }
    {
        self.table.free()
    }

    // The mini sectors that can still be given, over such figures: the FREE places, and the most that the table can grow by.
    fn room_over(&self, ground: Ground) -> u32
        ensures { result ≡ length self.now.state.0.stack + growth ground }
    {
        self.free_places() + ground.growth()
    }

    // Goes along the chain of a head.
    fn look(&mut self, head: u32, rank: u32) -> Result<Found, StoreFault>
        ensures told { Looks self.old.state.0 head rank result }
        ensures left { self.new.state.0 ≡ self.old.state.0 }
    {
        let no_head = Refusal::NotHead.at(LAYER, head);
        let ground = self.figures().ok_or(no_head)?;
        let chain = survey(self.table.links(), head, rank).ok_or(no_head)?;
        Ok(Found { chain, ground })
    }

    // Goes along the chain of a head before a copy: so many bytes from an offset on must lie within it.
    fn holds(&mut self, head: u32, at: u64, count: usize) -> Result<(), StoreFault>
        ensures told { Holds self.old.state.0 head (at + count) result }
        ensures left { self.new.state.0 ≡ self.old.state.0 }
    {
        let found = self.look(head, 0)?;
        let long = u64::from(found.chain.units) * u64::from(MINI_SECTOR_LEN);
        if !within(long, at, count) {
            return Err(Refusal::PastEnd.at(LAYER, head));
        }
        Ok(())
    }
}
