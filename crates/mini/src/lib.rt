//! What a mini store asks of its host: the figures that say whether the host bears its table out, and how much room there
//! is. Nothing of this is kept: it is asked for at every call.

#![tactic(auto)]

ghost use Rattle.mini.specs.Mini.{root_of, sectors_of, count_of, asked_of, fitting, ground_if};
ghost use Rattle.std.specs.Option.{option_map};
ghost use Rattle.store.specs.Refusals.{told};
ghost use Rattle.std.specs.Prelude.{◌≡◌, ◌==◌};

use links::consts::END_OF_CHAIN;
use rooms::Ground;
use store::entries::{Entry, ObjType, Words};
use store::faults::StoreFault;
use store::stores::{ChainStore, Host};

pub mod changes;

// The layer of a mini store, which its faults name.
pub const LAYER: u8 = 3;

// The bytes of a mini sector (cfb's name).
pub const MINI_SECTOR_LEN: u32 = 64;

// What a host tells: its unit and its room, the root entry and the header words, and how many sectors mini stream and
// MiniFAT have, or nothing where they are absent.
#[derive(Clone, Copy)]
pub struct Asked {
    pub unit: u32,
    pub room: u32,
    pub root: Entry,
    pub words: Words,
    pub minis: Option<u32>,
    pub fats: Option<u32>,
}

// The root entry. A host has one; where it had none, an entry of no kind and no bytes.
pub fn root<H: Host>(host: &mut H) -> Entry
    ensures told { result ≡ root_of (H.ChainStore.meaning host.old) }
    ensures left { H.ChainStore.meaning host.new ≡ H.ChainStore.meaning host.old }
{
    host.entry(0).unwrap_or(Entry::empty(ObjType::Unallocated))
}

// How many sectors the chain of a start has, or the host's refusal. From END there are none, where a size of 0 is told.
pub fn sectors<H: Host>(host: &mut H, start: u32, size: u64) -> Result<u32, StoreFault>
    ensures told { told result ≡ sectors_of (H.ChainStore.meaning host.old) H.ChainStore.LAYER start (size == 0) }
    ensures left { H.ChainStore.meaning host.new ≡ H.ChainStore.meaning host.old }
{
    if size == 0 && start == END_OF_CHAIN {
        return Ok(0);
    }
    host.units(start)
}

// The same, without the refusal.
fn count<H: Host>(host: &mut H, start: u32, size: u64) -> Option<u32>
    ensures told { result ≡ count_of (H.ChainStore.meaning host.old) start (size == 0) }
    ensures left { H.ChainStore.meaning host.new ≡ H.ChainStore.meaning host.old }
{
    sectors(host, start, size).ok()
}

// What the host tells.
pub fn ask<H: Host>(host: &mut H) -> Asked
    ensures told { result ≡ asked_of (H.ChainStore.meaning host.old) }
    ensures left { H.ChainStore.meaning host.new ≡ H.ChainStore.meaning host.old }
{
    let root = root(host);
    let words = host.words();
    let unit = host.unit();
    let room = host.room();
    let minis = count(host, root.start, root.length);
    let fats = count(host, words.start, u64::from(words.count));
    Asked {
        unit,
        room,
        root,
        words,
        minis,
        fats,
    }
}

impl Asked {
    // Whether so many links fit what the host tells, where its mini stream and its MiniFAT have so many sectors.
    fn fits(&self, minis: u32, fats: u32, links: u32) -> bool
        ensures { result ≡ fitting self.now.root self.now.words self.now.unit minis fats links }
    {
        let unit = u64::from(self.unit);
        let long = self.root.length;
        (self.root.start != self.words.start || self.words.start == END_OF_CHAIN)
            && long % u64::from(MINI_SECTOR_LEN) == 0
            && u64::from(MINI_SECTOR_LEN) * u64::from(links) <= long
            && long <= u64::from(minis) * unit
            && self.words.count == fats
            && 4 * u64::from(links) <= u64::from(fats) * unit
    }
}

// The figures that room is reckoned from, where the host bears a table of so many links out.
pub fn ground<H: Host>(host: &mut H, links: u32) -> Option<Ground>
    ensures told { result ≡ ground_if (H.ChainStore.meaning host.old) links }
    ensures left { H.ChainStore.meaning host.new ≡ H.ChainStore.meaning host.old }
{
    let asked = ask(host);
    let minis = asked.minis?;
    let fats = asked.fats?;
    if !asked.fits(minis, fats, links) {
        return None;
    }
    Some(Ground {
        unit: asked.unit,
        links,
        root: (asked.root.length / u64::from(MINI_SECTOR_LEN)) as u32,
        fats,
        minis,
        spare: asked.room,
    })
}
