//! A checked table that knows its FREE places, so that one is taken and given back without a search.

ghost use Rattle.std.specs.Prelude.{◌≡◌, ℕ, ◌-◌, ◌≤◌, true, ◌≢◌, [], ◌∷◌, ◌++◌, length, take, is_ok, filter, nat_lt, slice_set};
ghost use Rattle.links.specs.Check.{verdict};
ghost use Rattle.links.specs.Held.{links_of};
ghost use Rattle.links.specs.Links.{FREE, at, Checked};
ghost use Rattle.links.specs.Stack.{Stacks, single, vacant, stack_taken, trimmed};
ghost use Rattle.links.specs.Walk.{holds};

use crate::LinkTable;
use crate::checks::{LinkFault, check};
use crate::consts::{END_OF_CHAIN, FREE_SECTOR, MAX_REGULAR_SECTOR};
use crate::held::Links;
use crate::walks::link_or_free;

// A checked table with the stack of its FREE places; the last laid is taken first.
#[derive(Drop)]
pub struct Stacked {
    links: Links,
    stack: Links,
    // The table passes the check.
    ghost checked: { is_ok (verdict (links_of links)) ≡ true },
    // No place is in the stack twice.
    ghost once: { single (links_of stack) ≡ true },
    // In the stack are the FREE places of the table, and nothing else.
    ghost stacked: { (p : ℕ) → holds p (links_of stack) ≡ vacant (links_of links) p },
}

impl Stacked {
    ghost use Rattle.links.specs.Stacked.{table_of, stack_of, Loads, place_taken, table_taken, place_joined, table_joined, stack_joined, link_cut, table_cut};

    // A table with no link.
    pub fn new() -> Stacked
        ensures { (table_of result ≡ []) × (stack_of result ≡ []) }
    {
        Stacked {
            links: Links::new(),
            stack: Links::new(),
        }
    }

    // Checks a table, and lays its FREE places on the stack, rising; or refuses it as the check does.
    pub fn load(links: Links) -> Result<Stacked, LinkFault>
        ensures { Loads (links_of links) result }
    {
        check(&links)?;
        let mut stack = Links::new();
        for place in 0..links.count() {
            if link_or_free(&links, place) == FREE_SECTOR {
                stack.push(place);
            }
        }
        Ok(Stacked { links, stack })
    }

    // Takes a place and links it END: the last of the stack, or where that is empty one more behind the last link.
    // Nothing, and no change, where there are 4,096 and none is FREE.
    pub fn take(&mut self) -> Option<u32>
        ensures told { result ≡ place_taken self.old }
        ensures table { table_of self.new ≡ table_taken self.old }
        ensures places { stack_of self.new ≡ stack_taken (stack_of self.old) }
    {
        match self.stack.pop() {
            Some(place) => {
                self.links.set(place, END_OF_CHAIN);
                Some(place)
            }
            None => {
                let place = self.links.count();
                self.links.push(END_OF_CHAIN).then_some(place)
            }
        }
    }

    // Takes a place as above, and has the link at `last`, which must be END, point to it. Nothing, and no change, where
    // it is not END or no place is left.
    pub fn append(&mut self, last: u32) -> Option<u32>
        ensures told { result ≡ place_joined self.old last }
        ensures table { table_of self.new ≡ table_joined self.old last }
        ensures places { stack_of self.new ≡ stack_joined self.old last }
    {
        if link_or_free(&self.links, last) != END_OF_CHAIN {
            return None;
        }
        let place = self.take()?;
        self.links.set(last, place);
        Some(place)
    }

    // Cuts a chain off behind a place, and tells where what followed begins: the link that was there, a pointer or END,
    // becomes END. Nothing, and no change, where there is no such link.
    pub fn cut_off(&mut self, place: u32) -> Option<u32>
        ensures told { result ≡ link_cut (table_of self.old) place }
        ensures table { table_of self.new ≡ table_cut (table_of self.old) place }
        ensures places { stack_of self.new ≡ stack_of self.old }
    {
        let link = link_or_free(&self.links, place);
        if link > MAX_REGULAR_SECTOR && link != END_OF_CHAIN {
            return None;
        }
        self.links.set(place, END_OF_CHAIN);
        Some(link)
    }

    // Makes a place FREE that no link points to, lays it on the stack, and tells the link that was there. Called by a mini
    // store alone, when the shared text of chains has it give back the first unit of a chain.
    pub fn give_back(&mut self, place: u32) -> u32
        requires used { at (table_of self.old) place ≢ FREE }
        requires first { (q : ℕ) → at (table_of self.old) q ≢ place }
        ensures told { result ≡ at (table_of self.old) place }
        ensures table { table_of self.new ≡ slice_set (table_of self.old) place FREE }
        ensures places { stack_of self.new ≡ stack_of self.old ++ place ∷ [] }
    {
        let link = link_or_free(&self.links, place);
        self.links.set(place, FREE_SECTOR);
        self.stack.push(place);
        link
    }

    // How many links stay where the trailing FREE ones go.
    fn trimmed_count(&self) -> u32
        ensures told { result ≡ trimmed (table_of self.now) }
        ensures past { (k : ℕ) → result ≤ k → at (table_of self.now) k ≡ FREE }
    {
        for place in (0..self.links.count()).rev() {
            if link_or_free(&self.links, place) != FREE_SECTOR {
                return place + 1;
            }
        }
        0
    }

    // The trailing FREE links go from the table, and their places from the stack; the others keep their order there.
    // Tells how many went.
    pub fn trim(&mut self) -> u32
        ensures told { result ≡ length (table_of self.old) - trimmed (table_of self.old) }
        ensures table { table_of self.new ≡ take (trimmed (table_of self.old)) (table_of self.old) }
        ensures places { stack_of self.new ≡ filter (λ p. nat_lt p (trimmed (table_of self.old))) (stack_of self.old) }
        ensures same { at (table_of self.new) ≡ at (table_of self.old) }
    {
        let count = self.links.count();
        let kept = self.trimmed_count();
        self.links.truncate(kept);
        self.stack.retain_below(kept);
        count - kept
    }

    // The table, to be asked; it is checked.
    pub fn links(&self) -> &Links
        ensures told { result.now ≡ self.now.links }
        ensures checked { Checked (at (table_of self.now)) }
    {
        &self.links
    }

    // How many places are FREE: the stack has each of them once.
    pub fn free(&self) -> u32
        ensures told { result ≡ length (stack_of self.now) }
        ensures stacks { Stacks (table_of self.now) (stack_of self.now) }
    {
        self.stack.count()
    }
}
