//! Opening: the table is read, then every stream is looked at, and only when nothing is amiss the mini store is opened.

ghost use Rattle.links.specs.Check.{first_of, settled};
ghost use Rattle.links.specs.Links.{END};
ghost use Rattle.links.specs.Stack.{free_places};
ghost use Rattle.links.specs.Stacked.{stack_of};
ghost use Rattle.mini.specs.Mini.{stream_at, fat_at};
ghost use Rattle.minifat.specs.Table.{strictly, table_in};
ghost use Rattle.minifat.specs.Told.{told_of};
ghost use Rattle.std.specs.Prelude.{◌≡◌, IfOk};
ghost use Rattle.store.specs.Refusals.{told};
ghost use Rattle.workbook.specs.Events.{opened};
ghost use Rattle.workbook.specs.Promises.{Promised};
ghost use Rattle.workbook.specs.Opening.{opening_of, stream_with, units_by, extent_fault, stream_fault, bases_fault, on_base, one_chain, shared_fault, head_fault, streams_fault, heads_fault};

use crate::Workbook;
use crate::homes::Home;
use crate::streams::refused;
use links::consts::END_OF_CHAIN;
use links::stacked::Stacked;
use links::walks::units;
use minialloc::MiniStore;
use minifat::Validation;
use store::entries::Entry;
use store::extents::Extent;
use store::faults::{Fault, Refusal, StoreFault};
use store::stores::{ChainStore, Host};

// The stream with an id, where there is one.
fn stream<H: Host>(store: &mut MiniStore<H>, id: u32) -> Option<Entry>
    ensures told { result ≡ stream_with store.old.state.0 id }
    ensures left { store.new.state.0 ≡ store.old.state.0 }
{
    let entry = store.entry(id).ok()?;
    entry.kind.is_stream().then_some(entry)
}

// How many units the chain of a start has, by a table that is not installed.
fn units_in<H: Host>(
    store: &mut MiniStore<H>,
    table: &Stacked,
    home: Home,
    start: u32,
) -> Result<u32, StoreFault>
    ensures told { told result ≡ units_by store.old.state.0 H.ChainStore.LAYER (table_in table.now) home start }
    ensures left { store.new.state.0 ≡ store.old.state.0 }
{
    match home {
        Home::Mini => units(table.links(), start).ok_or(Refusal::NotHead.at(mini::LAYER, start)),
        Home::Host => store.host_units(start),
    }
}

// Whether start and length of a stream go together, and its chain is just what the length needs.
fn check_extent<H: Host>(
    store: &mut MiniStore<H>,
    table: &Stacked,
    id: u32,
    entry: Entry,
) -> Result<(), Fault>
    ensures told { told_of (λ x. x) result ≡ settled (extent_fault store.old.state.0 H.ChainStore.LAYER (table_in table.now) id entry) tt }
    ensures left { store.new.state.0 ≡ store.old.state.0 }
{
    let extent = Extent::new(entry.start, entry.length);
    if extent.is_none() {
        return Err(refused(Refusal::BadStream, id, None));
    }
    if entry.length == 0 {
        return Ok(());
    }
    let home = Home::of(entry.length);
    let found = units_in(store, table, home, entry.start);
    let have = found.map_err(|lower| refused(Refusal::BadStream, id, Some(lower)))?;
    let unit = home.unit(store);
    if u64::from(have) != entry.length.div_ceil(u64::from(unit)) {
        return Err(refused(Refusal::BadStream, id, None));
    }
    Ok(())
}

// The same of the stream with an id, where there is one.
fn check_stream<H: Host>(store: &mut MiniStore<H>, table: &Stacked, id: u32) -> Result<(), Fault>
    ensures told { told_of (λ x. x) result ≡ settled (stream_fault store.old.state.0 H.ChainStore.LAYER (table_in table.now) id) tt }
    ensures left { store.new.state.0 ≡ store.old.state.0 }
{
    match stream(store, id) {
        Some(entry) => check_extent(store, table, id, entry),
        None => Ok(()),
    }
}

// The same of each stream, by rising id.
fn check_streams<H: Host>(store: &mut MiniStore<H>, table: &Stacked) -> Result<(), Fault>
    ensures told { told_of (λ x. x) result ≡ settled (streams_fault store.old.state.0 H.ChainStore.LAYER (table_in table.now)) tt }
    ensures left { store.new.state.0 ≡ store.old.state.0 }
{
    for id in 0..store.entries() {
        check_stream(store, table, id)?;
    }
    Ok(())
}

// Where mini stream and MiniFAT start.
fn bases<H: Host>(store: &mut MiniStore<H>) -> (u32, u32)
    ensures told { result ≡ (stream_at store.old.state.0.host, fat_at store.old.state.0.host) }
    ensures left { store.new.state.0 ≡ store.old.state.0 }
{
    let root = store.root();
    let words = store.words();
    (root.start, words.start)
}

// Whether mini stream and MiniFAT have chains of their own.
fn check_bases<H: Host>(store: &mut MiniStore<H>) -> Result<(), Fault>
    ensures told { told_of (λ x. x) result ≡ settled (bases_fault store.old.state.0.host) tt }
    ensures left { store.new.state.0 ≡ store.old.state.0 }
{
    let (stream, fat) = bases(store);
    if stream == fat && fat != END_OF_CHAIN {
        return Err(refused(Refusal::SharedHead, 0, None));
    }
    Ok(())
}

// Whether a stream would have the chain of mini stream or MiniFAT.
fn on_base<H: Host>(store: &mut MiniStore<H>, entry: Entry) -> bool
    ensures told { result ≡ on_base store.old.state.0.host entry }
    ensures left { store.new.state.0 ≡ store.old.state.0 }
{
    let (stream, fat) = bases(store);
    Home::of(entry.length) == Home::Host && (entry.start == stream || entry.start == fat)
}

// Whether two streams have one chain.
fn one_chain(a: Entry, b: Entry) -> bool
    ensures { result ≡ one_chain a b }
{
    a.length != 0 && b.length != 0 && Home::of(a.length) == Home::of(b.length) && a.start == b.start
}

// Whether the stream with a lower id has the chain of a stream.
fn check_lower<H: Host>(
    store: &mut MiniStore<H>,
    id: u32,
    entry: Entry,
    lower: u32,
) -> Result<(), Fault>
    ensures told { told_of (λ x. x) result ≡ settled (shared_fault store.old.state.0 id entry lower) tt }
    ensures left { store.new.state.0 ≡ store.old.state.0 }
{
    match stream(store, lower) {
        Some(other) if one_chain(other, entry) => Err(refused(Refusal::SharedHead, id, None)),
        _ => Ok(()),
    }
}

// Whether a stream with a lower id has the chain of a stream.
fn check_lowers<H: Host>(store: &mut MiniStore<H>, id: u32, entry: Entry) -> Result<(), Fault>
    ensures told { told_of (λ x. x) result ≡ settled (first_of (shared_fault store.old.state.0 id entry) id 0) tt }
    ensures left { store.new.state.0 ≡ store.old.state.0 }
{
    for lower in 0..id {
        check_lower(store, id, entry, lower)?;
    }
    Ok(())
}

// Whether the chain of the stream with an id is its own: neither mini stream nor MiniFAT, nor a lower stream's.
fn check_head<H: Host>(store: &mut MiniStore<H>, id: u32) -> Result<(), Fault>
    ensures told { told_of (λ x. x) result ≡ settled (head_fault store.old.state.0 id) tt }
    ensures left { store.new.state.0 ≡ store.old.state.0 }
{
    let Some(entry) = stream(store, id) else {
        return Ok(());
    };
    if on_base(store, entry) {
        return Err(refused(Refusal::SharedHead, id, None));
    }
    check_lowers(store, id, entry)
}

// The same of each stream, by rising id; before them, of mini stream and MiniFAT.
fn check_heads<H: Host>(store: &mut MiniStore<H>) -> Result<(), Fault>
    ensures told { told_of (λ x. x) result ≡ settled (heads_fault store.old.state.0) tt }
    ensures left { store.new.state.0 ≡ store.old.state.0 }
{
    check_bases(store)?;
    for id in 0..store.entries() {
        check_head(store, id)?;
    }
    Ok(())
}

// The table of the host, where nothing is amiss. Nothing changes.
fn sound_table<H: Host>(store: &mut MiniStore<H>, validation: Validation) -> Result<Stacked, Fault>
    ensures told { told_of table_in result ≡ opening_of store.old.state.0 H.ChainStore.LAYER (strictly validation) }
    ensures stack { IfOk result (λ s. stack_of s ≡ free_places (table_in s)) }
    ensures left { store.new.state.0 ≡ store.old.state.0 }
{
    let table = store.read_table(validation)?;
    check_streams(store, &table)?;
    check_heads(store)?;
    Ok(table)
}

impl<H: Host> Workbook<H> {
    // Opens, anew where it was open; refused, it is shut.
    pub fn open(&mut self, validation: Validation) -> Result<(), Fault>
        ensures { Promised self.old (opened (strictly validation) (told_of (λ x. x) result)) self.new }
    {
        self.store.shut();
        let table = sound_table(&mut self.store, validation)?;
        self.store.install(table);
        Ok(())
    }
}
