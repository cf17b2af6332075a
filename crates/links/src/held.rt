//! A link table held as numbers.

ghost use Rattle.std.specs.Prelude.{◌≡◌, ◌-◌, ◌≤◌, ltb, [], ◌∷◌, ◌++◌, length, take, if◌then◌else◌, filter, nat_lt};
ghost use Rattle.std.specs.List.{slice_get};

use crate::LinkTable;
use crate::consts::{FREE_SECTOR, MOST_LINKS};
use std::alloc::AllocError;

// Its links are the first `count` of the array; what lies behind them means nothing. They lie in the value itself, so that a
// table needs no heap.
// Kept: an array with a count, as a table can be copied, and the kit's ArrayVec cannot.
pub struct Links {
    links: [u32; MOST_LINKS as usize],
    count: u32,
    ghost few: { count ≤ 4096 },
}

impl Links {
    ghost use Rattle.links.specs.Held.{links_of};

    // A table with no link.
    pub fn new() -> Links
        ensures { links_of result ≡ [] }
    {
        Links {
            links: [FREE_SECTOR; MOST_LINKS as usize],
            count: 0,
        }
    }

    // All links, in the order of their places.
    pub fn as_slice(&self) -> &[u32]
        ensures { result.now ≡ links_of self.now }
    {
        &self.links[..self.count as usize]
    }

    // One link more, behind the others; or false, and no change, where there are 4,096.
    // Kept: a bool, as with `set`.
    pub fn push(&mut self, link: u32) -> bool
        ensures told { result ≡ nat_lt (length (links_of self.old)) 4096 }
        ensures after { links_of self.new ≡ (if result then links_of self.old ++ link ∷ [] else links_of self.old) }
    {
        if self.count >= MOST_LINKS {
            return false;
        }
        self.links[self.count as usize] = link;
        self.count += 1;
        true
    }

    // The last link is taken off and told; nothing where there is none.
    pub fn pop(&mut self) -> Option<u32>
        ensures told { result ≡ slice_get (links_of self.old) (length (links_of self.old) - 1) }
        ensures after { links_of self.new ≡ take (length (links_of self.old) - 1) (links_of self.old) }
    {
        if self.count == 0 {
            return None;
        }
        self.count -= 1;
        Some(self.links[self.count as usize])
    }

    // The first `count` links stay, or all where there are fewer.
    pub fn truncate(&mut self, count: u32)
        ensures { links_of self.new ≡ take count (links_of self.old) }
    {
        if count < self.count {
            self.count = count;
        }
    }

    // The links below a bound stay, in their order.
    pub fn retain_below(&mut self, bound: u32)
        ensures { links_of self.new ≡ filter (λ x. ltb x bound) (links_of self.old) }
    {
        let mut kept = 0;
        for place in 0..self.count {
            let link = self.links[place as usize];
            if link < bound {
                self.links[kept as usize] = link;
                kept += 1;
            }
        }
        self.count = kept;
    }
}

// It asks for no memory, so it does not fail.
impl Clone for Links {
    ghost is_clone = { λ t u. u ≡ t };

    ghost is_infallible = { λ t. Unit {0} };

    fn clone(&self) -> Result<Links, AllocError> {
        Ok(*self)
    }
}

impl Copy for Links {}

impl LinkTable for Links {
    ghost use Rattle.std.proofs.Common.{arith};
    ghost use Rattle.std.proofs.lemmas.List.{length-take};

    ghost links = { λ t. take t.count t.links };

    fn count(&self) -> u32 {
        self.count
    }

    fn get(&self, place: u32) -> Option<u32> {
        if place < self.count {
            Some(self.links[place as usize])
        } else {
            None
        }
    }

    fn set(&mut self, place: u32, link: u32) -> bool {
        if place >= self.count {
            return false;
        }
        self.links[place as usize] = link;
        true
    }

    ghost few = { λ t. omega (arith, length-take t.count t.links, t.few) };
}
