//! Reading and writing the chains of the units in memory: the units' part of the copying that all stores share.

ghost use Rattle.std.specs.Prelude.{◌≡◌, ℕ, ◌+◌, ◌==◌, length};
ghost use Rattle.cells.specs.Meant.{meant, Tells, due_bytes};
ghost use Rattle.cells.specs.Stored.{viewed};
ghost use Rattle.chain.specs.Units.{Whole};
ghost use Rattle.store.specs.Meaning.{Notes, due_copy, read_into, wrote};

use crate::{Cells, UNIT};
use chain::pieces::{Units, read_chain, within, write_chain};
use store::faults::Refusal;

impl Units for Cells {
    ghost view = { λ c. viewed c.notes c.bytes };

    ghost sound = { λ c. Whole (viewed c.notes c.bytes) };

    ghost whole = { λ c w. w };

    fn unit_len(&self) -> usize {
        UNIT
    }

    #[tactic(auto, using(crate::proofs::Along::few_units))]
    fn next(&mut self, head: u32, _place: u32, rank: usize) -> u32 {
        self.find(head, rank as u32 + 1).unwrap() as u32
    }

    fn read_unit(&mut self, place: u32, at: usize, out: &mut [u8]) {
        let from = place as usize * UNIT + at;
        out.copy_from_slice(&self.bytes[from..from + out.len()]);
    }

    fn write_unit(&mut self, place: u32, at: usize, src: &[u8]) {
        let from = place as usize * UNIT + at;
        self.bytes[from..from + src.len()].copy_from_slice(src);
    }
}

// Whether a copy is of no bytes, at offset 0.
fn is_nothing(at: u64, count: usize) -> bool
    ensures { result ≡ (at + count == 0) }
{
    at == 0 && count == 0
}

impl Cells {
    // Refuses a copy where so many bytes from an offset on do not lie within the chain of a head.
    fn holds(&self, head: u32, at: u64, count: usize) -> Result<(), Refusal>
        ensures { Tells self.now head (λ m layer. due_copy m layer head (at + count)) result }
    {
        let units = self.units(head).ok_or(Refusal::NotHead)?;
        let long = u64::from(units) * UNIT as u64;
        if within(long, at, count) {
            Ok(())
        } else {
            Err(Refusal::PastEnd)
        }
    }

    // Fills the buffer with the bytes of a chain from an offset on; no change where the chain has them not. No bytes at offset
    // 0 are had of what is no head, too.
    pub fn read(&mut self, head: u32, at: u64, out: &mut [u8]) -> Result<(), Refusal>
        ensures told { Tells self.old head (λ m layer. due_bytes m layer head (at + length out.old)) result }
        ensures out { (n : Notes) (layer : ℕ) → out.new ≡ read_into (meant self.old n) layer head at out.old }
        ensures left { (n : Notes) → meant self.new n ≡ meant self.old n }
    {
        if is_nothing(at, out.len()) {
            return Ok(());
        }
        self.holds(head, at, out.len())?;
        read_chain(self, head, at as usize, out);
        Ok(())
    }

    // Lays bytes over those of a chain from an offset on; no change where the chain has not so many. No bytes at offset 0 can
    // be laid over what is no head, too.
    pub fn write(&mut self, head: u32, at: u64, src: &[u8]) -> Result<(), Refusal>
        ensures told { Tells self.old head (λ m layer. due_bytes m layer head (at + length src.now)) result }
        ensures left { (n : Notes) (layer : ℕ) → meant self.new n ≡ wrote (meant self.old n) layer head at src.now }
    {
        if is_nothing(at, src.len()) {
            return Ok(());
        }
        self.holds(head, at, src.len())?;
        write_chain(self, head, at as usize, src);
        Ok(())
    }
}
