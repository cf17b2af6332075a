//! The table of a mini store, read from its host: the links of the MiniFAT, tested against the header words, the root
//! entry and themselves. Nothing is changed.

#![tactic(auto)]

ghost use Rattle.links.specs.Check.{number_of, place_of};
ghost use Rattle.links.specs.Held.{links_of};
ghost use Rattle.links.specs.Stack.{free_places};
ghost use Rattle.minifat.specs.Gathered.{gathering_of, gathered_fat};
ghost use Rattle.minifat.specs.Table.{strictly, table_in, words_of_fat, fat_of, minis_of, table_of};
ghost use Rattle.minifat.specs.Told.{fault_of, told_of, fault_by};
ghost use Rattle.std.specs.Prelude.{◌≡◌, ◌*◌, None, IfOk};

use crate::gathering::{BLOCK, Gathered, gather};
use links::LinkTable;
use links::checks::LinkFault;
use links::consts::MOST_LINKS;
use links::held::Links;
use links::stacked::Stacked;
use mini::{LAYER, MINI_SECTOR_LEN, root, sectors};
use store::entries::Words;
use store::faults::{Fault, Refusal, StoreFault};
use store::stores::{ChainStore, Host};

mod gathering;

// How strictly a file is read (cfb's name): permissive, a table that is longer than the mini stream is shortened.
#[derive(Clone, Copy, PartialEq, Eq, Debug)]
pub enum Validation {
    Permissive,
    Strict,
}

impl Validation {
    // Whether what is beyond the mini stream is refused.
    pub fn is_strict(self) -> bool
        ensures { result ≡ strictly self }
    {
        self == Validation::Strict
    }
}

// A fault of the mini store as a whole.
fn fault(refusal: Refusal, lower: Option<StoreFault>) -> Fault
    ensures { result ≡ fault_by refusal lower }
{
    Fault {
        refusal,
        layer: LAYER,
        place: 0,
        lower,
    }
}

// The fault of a table that the check refuses, at the place that it tells.
// Kept: a function, and no From, as both types are of crates below and Rust has that impl stand where one of them is.
fn refused(of: LinkFault) -> Fault
    ensures { fault_of result ≡ record { number = number_of of; layer = 3; place = place_of of; lower = None } }
{
    Fault {
        place: of.place(),
        ..fault(Refusal::from(of), None)
    }
}

// How many blocks a sector has.
fn sector_blocks<H: Host>(host: &mut H) -> u32
    ensures told { result * 512 ≡ (H.ChainStore.meaning host.old).unit }
    ensures left { H.ChainStore.meaning host.new ≡ H.ChainStore.meaning host.old }
{
    host.unit() / BLOCK
}

// The header words, where the MiniFAT has the sectors that they say.
fn fat_words<H: Host>(host: &mut H) -> Result<Words, Fault>
    ensures told { told_of (λ w. w) result ≡ words_of_fat (H.ChainStore.meaning host.old) H.ChainStore.LAYER }
    ensures left { H.ChainStore.meaning host.new ≡ H.ChainStore.meaning host.old }
{
    let words = host.words();
    let found = sectors(host, words.start, u64::from(words.count));
    let count = found.map_err(|lower| fault(Refusal::BadMinifat, Some(lower)))?;
    if count != words.count {
        return Err(fault(Refusal::BadMinifat, None));
    }
    Ok(words)
}

// The links of the MiniFAT, as they are gathered.
fn fat_gathered<H: Host>(host: &mut H) -> Result<Gathered, Fault>
    ensures told { told_of gathering_of result ≡ gathered_fat (H.ChainStore.meaning host.old) H.ChainStore.LAYER }
    ensures left { H.ChainStore.meaning host.new ≡ H.ChainStore.meaning host.old }
{
    let words = fat_words(host)?;
    let blocks = words.count * sector_blocks(host);
    let read = gather(host, words.start, blocks);
    read.map_err(|lower| fault(Refusal::BadMinifat, Some(lower)))
}

// The links of the MiniFAT, without the trailing FREE ones.
fn fat_links<H: Host>(host: &mut H) -> Result<Links, Fault>
    ensures told { told_of links_of result ≡ fat_of (H.ChainStore.meaning host.old) H.ChainStore.LAYER }
    ensures left { H.ChainStore.meaning host.new ≡ H.ChainStore.meaning host.old }
{
    let mut all = fat_gathered(host)?;
    if all.used > MOST_LINKS {
        return Err(fault(Refusal::BadMinifat, None));
    }
    all.links.truncate(all.used);
    Ok(all.links)
}

// The mini sectors that the root length has.
fn mini_sectors<H: Host>(host: &mut H) -> Result<u32, Fault>
    ensures told { told_of (λ n. n) result ≡ minis_of (H.ChainStore.meaning host.old) H.ChainStore.LAYER }
    ensures left { H.ChainStore.meaning host.new ≡ H.ChainStore.meaning host.old }
{
    let root = root(host);
    if !root.kind.is_root() || root.length % u64::from(MINI_SECTOR_LEN) != 0 {
        return Err(fault(Refusal::BadRoot, None));
    }
    let found = sectors(host, root.start, root.length);
    let count = found.map_err(|lower| fault(Refusal::BadRoot, Some(lower)))?;
    if u64::from(count) * u64::from(host.unit()) < root.length {
        return Err(fault(Refusal::BadRoot, None));
    }
    Ok((root.length / u64::from(MINI_SECTOR_LEN)) as u32)
}

// The table that a host holds, or why it holds none that a mini store could use.
pub fn read_table<H: Host>(host: &mut H, validation: Validation) -> Result<Stacked, Fault>
    ensures told { told_of table_in result ≡ table_of (H.ChainStore.meaning host.old) H.ChainStore.LAYER (strictly validation) }
    ensures stack { IfOk result (λ s. links_of s.stack ≡ free_places (table_in s)) }
    ensures left { H.ChainStore.meaning host.new ≡ H.ChainStore.meaning host.old }
{
    let mut links = fat_links(host)?;
    let minis = mini_sectors(host)?;
    if validation.is_strict() && links.count() > minis {
        return Err(fault(Refusal::TableOverRoot, None));
    }
    links.truncate(minis);
    Stacked::load(links).map_err(refused)
}
