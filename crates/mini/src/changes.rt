//! What a mini store changes in its host: links of the MiniFAT, bytes of the mini stream, the root entry, the header words;
//! and the sectors that it adds. Each change is told by what the host's own calls leave.

ghost use Rattle.mini.specs.Adding.{Grows, AddsFats, AddsMinis, Reserves, filled};
ghost use Rattle.mini.specs.Mini.{stream_at};
ghost use Rattle.mini.specs.Steps.{link_wrote, wiped_at, longer_root, shorter_root, occupied, vacated};
ghost use Rattle.store.specs.Meaning.{read_into, wrote};
ghost use Rattle.store.specs.Refusals.{told};
ghost use Rattle.std.specs.Prelude.{◌≡◌, ◌%◌};

use crate::{MINI_SECTOR_LEN, root};
use links::consts::{END_OF_CHAIN, FREE_SECTOR};
use rooms::Ground;
use store::entries::Words;
use store::faults::StoreFault;
use store::stores::{ChainStore, Host};

// A number modulo 2^32, as the fields of 32 bits hold it.
fn low(number: u64) -> u32
    ensures { result ≡ number % 0x100000000 }
{
    (number % 0x1_0000_0000) as u32
}

// Writes a link into the MiniFAT.
pub fn write_link<H: Host>(host: &mut H, place: u32, link: u32)
    ensures { H.ChainStore.meaning host.new ≡ link_wrote (H.ChainStore.meaning host.old) H.ChainStore.LAYER place link }
{
    let words = host.words();
    let bytes = link.to_le_bytes();
    let _ = host.write(words.start, 4 * u64::from(place), &bytes);
}

// Fills the buffer from an offset of the mini stream, or leaves it as it is where the mini stream has not so many bytes.
pub fn read_stream<H: Host>(host: &mut H, at: u64, out: &mut [u8])
    ensures out { out.new ≡ read_into (H.ChainStore.meaning host.old) H.ChainStore.LAYER (stream_at (H.ChainStore.meaning host.old)) at out.old }
    ensures left { H.ChainStore.meaning host.new ≡ H.ChainStore.meaning host.old }
{
    let entry = root(host);
    let _ = host.read(entry.start, at, out);
}

// Lays bytes over those of the mini stream from an offset on, or leaves them where it has not so many.
pub fn write_stream<H: Host>(host: &mut H, at: u64, src: &[u8])
    ensures { H.ChainStore.meaning host.new ≡ wrote (H.ChainStore.meaning host.old) H.ChainStore.LAYER (stream_at (H.ChainStore.meaning host.old)) at src.now }
{
    let entry = root(host);
    let _ = host.write(entry.start, at, src);
}

// Zeroes a mini sector.
pub fn wipe<H: Host>(host: &mut H, place: u32)
    ensures { H.ChainStore.meaning host.new ≡ wiped_at (H.ChainStore.meaning host.old) H.ChainStore.LAYER place }
{
    let at = u64::from(place) * u64::from(MINI_SECTOR_LEN);
    write_stream(host, at, &[0; MINI_SECTOR_LEN as usize]);
}

// The root is longer by 64 bytes.
fn lengthen_root<H: Host>(host: &mut H)
    ensures { H.ChainStore.meaning host.new ≡ longer_root (H.ChainStore.meaning host.old) H.ChainStore.LAYER }
{
    let entry = root(host);
    let long = low(entry.length).wrapping_add(MINI_SECTOR_LEN);
    let _ = host.set_entry(0, entry.start, long);
}

// The root is shorter by 64 bytes for each of so many places.
pub fn shorten_root<H: Host>(host: &mut H, count: u32)
    ensures { H.ChainStore.meaning host.new ≡ shorter_root (H.ChainStore.meaning host.old) H.ChainStore.LAYER count }
{
    let entry = root(host);
    let gone = u64::from(MINI_SECTOR_LEN) * u64::from(count);
    let _ = host.set_entry(0, entry.start, low(entry.length.saturating_sub(gone)));
}

// A place is taken: where it is fresh the root is longer by 64 bytes; it is linked END, and its mini sector zeroed.
// Kept: `fresh` is a parameter, as without it take and append of the mini store would each test it and lengthen the root.
pub fn occupy<H: Host>(host: &mut H, fresh: bool, place: u32)
    ensures { H.ChainStore.meaning host.new ≡ occupied (H.ChainStore.meaning host.old) H.ChainStore.LAYER fresh place }
{
    if fresh {
        lengthen_root(host);
    }
    write_link(host, place, END_OF_CHAIN);
    wipe(host, place);
}

// A place is given back: it is linked FREE, and its mini sector zeroed.
pub fn vacate<H: Host>(host: &mut H, place: u32)
    ensures { H.ChainStore.meaning host.new ≡ vacated (H.ChainStore.meaning host.old) H.ChainStore.LAYER place }
{
    write_link(host, place, FREE_SECTOR);
    wipe(host, place);
}

// So many sectors more at the end of a chain, or as a new chain where there is none; answers its head.
fn grow<H: Host>(host: &mut H, start: u32, count: u32) -> Result<u32, StoreFault>
    ensures { Grows (H.ChainStore.meaning host.old) H.ChainStore.LAYER start count (told result) (H.ChainStore.meaning host.new) }
{
    if start == END_OF_CHAIN {
        return host.begin(count);
    }
    host.extend(start, count)?;
    Ok(start)
}

// Fills sectors of a chain with FREE links, from a rank on.
fn fill<H: Host>(host: &mut H, head: u32, from: u32, count: u32)
    ensures { H.ChainStore.meaning host.new ≡ filled count (H.ChainStore.meaning host.old) H.ChainStore.LAYER head from }
{
    // Kept: of the largest unit's size, as there is no heap; the slice of a unit is written.
    let free = [0xff; 4096];
    let unit = host.unit();
    for rank in 0..count {
        let at = (u64::from(from) + u64::from(rank)) * u64::from(unit);
        let _ = host.write(head, at, &free[..unit as usize]);
    }
}

// Adds sectors to the MiniFAT, filled with FREE, and tells the header words of them. For none, nothing is done; a host
// that refuses stays as it is.
pub fn add_fats<H: Host>(host: &mut H, count: u32)
    ensures { AddsFats (H.ChainStore.meaning host.old) H.ChainStore.LAYER count (H.ChainStore.meaning host.new) }
{
    if count == 0 {
        return;
    }
    let words = host.words();
    if let Ok(head) = grow(host, words.start, count) {
        host.set_words(Words {
            start: head,
            count: words.count.wrapping_add(count),
        });
        fill(host, head, words.count, count);
    }
}

// Adds sectors to the mini stream, and tells the root entry where it starts. A host that refuses stays as it is.
// Kept: beside add_fats, as words and entry are asked for and set by other calls and only one fills; both share `grow`.
pub fn add_minis<H: Host>(host: &mut H, count: u32)
    ensures { AddsMinis (H.ChainStore.meaning host.old) H.ChainStore.LAYER count (H.ChainStore.meaning host.new) }
{
    if count == 0 {
        return;
    }
    let entry = root(host);
    if let Ok(head) = grow(host, entry.start, count) {
        let _ = host.set_entry(0, head, low(entry.length));
    }
}

// Adds the sectors for a whole growth: first those of the MiniFAT, then those of the mini stream.
pub fn reserve<H: Host>(host: &mut H, g: Ground, more: u32)
    ensures { Reserves H.ChainStore.MOST (H.ChainStore.meaning host.old) H.ChainStore.LAYER g more (H.ChainStore.meaning host.new) }
{
    add_fats(host, low(g.need_fats(more)));
    add_minis(host, low(g.need_minis(more)));
}
