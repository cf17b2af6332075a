//! The walk along a chain, and what is told by it: heads, the units of a chain, the place at a rank.

ghost use Rattle.std.specs.Prelude.{◌≡◌, ℕ, ◌<◌, ◌≤◌, true, ◌↔◌, length, is_some};
ghost use Rattle.links.specs.Links.{at, IsHead, OnChain, Units};
ghost use Rattle.links.specs.Walk.{stop, trace, last_or, holds, chain_of, surveyed};
ghost use Rattle.std.specs.List.{slice_get};
ghost use Rattle.std.specs.Option.{option_map};

use crate::LinkTable;
use crate::consts::{END_OF_CHAIN, FREE_SECTOR};

// How a walk went: how many places it met, the link at which it stopped, and the last place that it met, or where it
// began if it met none.
#[derive(Clone, Copy, PartialEq, Eq, Debug)]
pub struct Walked {
    pub places: u32,
    pub stop: u32,
    pub last: u32,
}

// What going along the chain of a head tells: its units, and the place at a rank.
#[derive(Clone, Copy, PartialEq, Eq, Debug)]
pub struct Surveyed {
    pub units: u32,
    pub place: u32,
}

// Follows the links from the link `from` on, at most `most` of them, and while there is a link. So it ends on a table
// with a ring too.
pub fn walk<T: LinkTable>(table: &T, from: u32, most: u32) -> Walked
    ensures places { result.places ≡ length (trace most (T.links table.now) from) }
    ensures stop { result.stop ≡ stop most (T.links table.now) from }
    ensures last { result.last ≡ last_or from (trace most (T.links table.now) from) }
{
    let mut link = from;
    let mut last = from;
    for places in 0..most {
        let Some(next) = table.get(link) else {
            return Walked {
                places,
                stop: link,
                last,
            };
        };
        last = link;
        link = next;
    }
    Walked {
        places: most,
        stop: link,
        last,
    }
}

// The link at a place, and FREE where there is none.
pub(crate) fn link_or_free<T: LinkTable>(table: &T, place: u32) -> u32
    ensures { result ≡ at (T.links table.now) place }
{
    table.get(place).unwrap_or(FREE_SECTOR)
}

// Whether a place of the table has this link. All places are gone over, as a loop that leaves early compares one at a time.
fn has_link<T: LinkTable>(table: &T, link: u32) -> bool
    ensures { result ≡ holds link (T.links table.now) }
{
    (0..table.count()).fold(
        false,
        |met, place| met | (link_or_free(table, place) == link),
    )
}

// Goes along the chain of a head once: tells its units, and the place at a rank, or its last place where it is shorter.
// Nothing where the place is no head.
pub fn survey<T: LinkTable>(table: &T, head: u32, rank: u32) -> Option<Surveyed>
    ensures told { result ≡ surveyed (chain_of (T.links table.now) head) rank }
    ensures few { length (T.links table.now) ≤ 4096 }
{
    let count = table.count();
    let front = walk(table, head, rank.min(count));
    let rest = walk(table, front.stop, count - front.places);
    let units = front.places + rest.places;
    if units == 0 || rest.stop != END_OF_CHAIN || has_link(table, head) {
        return None;
    }
    let place = if rest.places == 0 {
        front.last
    } else {
        front.stop
    };
    Some(Surveyed { units, place })
}

// How many units the chain of a head has; nothing where the place is no head.
pub fn units<T: LinkTable>(table: &T, place: u32) -> Option<u32>
    ensures told { result ≡ option_map length (chain_of (T.links table.now) place) }
    ensures means { Units (at (T.links table.now)) place result }
{
    survey(table, place, 0).map(|whole| whole.units)
}

// Whether a place is a head: no pointer points to it, and the pointers lead from it to END.
pub fn is_head<T: LinkTable>(table: &T, place: u32) -> bool
    ensures told { result ≡ is_some (chain_of (T.links table.now) place) }
    ensures means { (result ≡ true) ↔ IsHead (at (T.links table.now)) place }
{
    units(table, place).is_some()
}

// Whether a place stands on the chain of a head. That is so exactly if the pointers lead from it to END.
pub fn on_chain<T: LinkTable>(table: &T, place: u32) -> bool
    ensures { (result ≡ true) ↔ OnChain (at (T.links table.now)) place }
{
    let rest = walk(table, place, table.count());
    rest.places > 0 && rest.stop == END_OF_CHAIN
}

// The place at a rank, counted from 0, of those that a walk from a place meets; nothing past its end. At a head these
// are the places of its chain.
pub fn place_at<T: LinkTable>(table: &T, from: u32, rank: u32) -> Option<u32>
    ensures { result ≡ slice_get (trace (length (T.links table.now)) (T.links table.now) from) rank }
{
    let count = table.count();
    if rank >= count {
        return None;
    }
    let front = walk(table, from, rank);
    (front.places == rank && front.stop < count).then_some(front.stop)
}
