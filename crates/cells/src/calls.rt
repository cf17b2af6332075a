//! The calls of the units in memory. Each can be made at any time: what cannot be done is left undone, and the answer
//! says so.

ghost use Rattle.std.specs.Prelude.{◌≡◌, ℕ, length, replicate, is_none, if◌then◌else◌, Some, None, count_by};
ghost use Rattle.cells.specs.Meant.{meant, Tells, Starts};
ghost use Rattle.cells.specs.Noted.{unit_at, ranks, lowest_free, path, counted, joins};
ghost use Rattle.cells.specs.Stored.{taken_back, joined_or_left};
ghost use Rattle.store.specs.Meaning.{Notes, due_head, due_extend, extended};

use crate::{Cells, Note, UNIT, UNITS};
use store::faults::Refusal;

impl Cells {
    // All units on no chain.
    pub fn new() -> Cells
        ensures notes { result.notes ≡ replicate 64 None }
        ensures chains { (n : Notes) (h : ℕ) → (meant result n).chain h ≡ None }
        ensures room { (n : Notes) → (meant result n).room ≡ 64 }
    {
        Cells {
            notes: [None; UNITS as usize],
            bytes: [0; UNITS as usize * UNIT],
        }
    }

    // The unit that notes this head and rank.
    pub(crate) fn find(&self, head: u32, rank: u32) -> Option<usize>
        ensures { result ≡ unit_at self.now.notes head rank }
    {
        self.notes
            .iter()
            .position(|note| *note == Some(Note { head, rank }))
    }

    // The lowest unit on no chain.
    fn free_unit(&self) -> Option<usize>
        ensures { result ≡ lowest_free self.now.notes }
    {
        self.notes.iter().position(|note| note.is_none())
    }

    // How many ranks of a head are noted, from 0 on.
    fn ranks(&self, head: u32) -> u32
        ensures { result ≡ ranks self.now.notes head }
    {
        self.notes
            .iter()
            .filter(|note| note.is_some_and(|n| n.head == head))
            .count() as u32
    }

    // How many units the chain of a head has; nothing where it is no head.
    pub fn units(&self, head: u32) -> Option<u32>
        ensures { result ≡ counted (path self.now.notes head) }
    {
        let count = self.ranks(head);
        (count > 0).then_some(count)
    }

    // How many units are on no chain.
    pub fn room(&self) -> u32
        ensures { result ≡ count_by is_none self.now.notes }
    {
        self.notes.iter().filter(|note| note.is_none()).count() as u32
    }

    // The rank of a unit that goes to the end of a chain: it is free, and a chain begins with the unit that names it.
    fn next_rank(&self, unit: usize, head: u32) -> Option<u32>
        ensures { result ≡ (if joins self.now.notes unit head then Some (length (path self.now.notes head)) else None) }
    {
        if unit >= self.notes.len() || self.notes[unit].is_some() {
            return None;
        }
        let rank = self.ranks(head);
        (rank > 0 || unit == head as usize).then_some(rank)
    }

    // A unit goes to the end of a chain, zeroed. Answers the unit; nothing, and no change, where that cannot be.
    fn join(&mut self, unit: usize, head: u32) -> Option<usize>
        ensures told { result ≡ (if joins self.old.notes unit head then Some unit else None) }
        ensures left { (n : Notes) → meant self.new n ≡ joined_or_left self.old.notes unit head (meant self.old n) }
    {
        let rank = self.next_rank(unit, head)?;
        let from = unit * UNIT;
        self.notes[unit] = Some(Note { head, rank });
        self.bytes[from..from + UNIT].fill(0);
        Some(unit)
    }

    // A new chain of one unit of zeros, at the lowest free unit, which names it; nothing where no unit is free.
    pub fn start(&mut self) -> Option<u32>
        ensures { (n : Notes) → Starts result (meant self.old n) (meant self.new n) }
    {
        let unit = self.free_unit()?;
        let head = unit as u32;
        self.join(unit, head)?;
        Some(head)
    }

    // One unit of zeros more at the end of a chain; no change where it is no head or no unit is free.
    pub fn give(&mut self, head: u32) -> Result<(), Refusal>
        ensures told { Tells self.old head (λ m layer. due_extend m layer head 1) result }
        ensures left { (n : Notes) (layer : ℕ) → meant self.new n ≡ extended (meant self.old n) layer head 1 }
    {
        self.units(head).ok_or(Refusal::NotHead)?;
        let unit = self.free_unit().ok_or(Refusal::NoRoom)?;
        self.join(unit, head).ok_or(Refusal::NoRoom)?;
        Ok(())
    }

    // One unit less at the end of a chain, its last unit taking the head along; no change where it is no head.
    pub fn take_back(&mut self, head: u32) -> Result<(), Refusal>
        ensures told { Tells self.old head (λ m layer. due_head m layer head) result }
        ensures left { (n : Notes) → meant self.new n ≡ taken_back (meant self.old n) head }
    {
        let count = self.units(head).ok_or(Refusal::NotHead)?;
        let unit = self.find(head, count - 1).ok_or(Refusal::NotHead)?;
        self.notes[unit] = None;
        Ok(())
    }
}
