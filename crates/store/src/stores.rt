//! The two traits. No call asks anything of its caller: what cannot be done is refused, and a refusal or a question
//! changes nothing. All calls take `&mut self`, so that a store can count behind a read.

ghost use Rattle.std.specs.Prelude.{◌≡◌, ℕ, ◌+◌, ◌≤◌, length, Ok, Err};
ghost use Rattle.store.specs.Meaning.{Store, Lawful, Hosted, units_of, due_head, due_copy, due_extend, due_cut, due_entry, read_into, wrote, extended, cut_to, freed, Begins, entry_of, entered, worded};
ghost use Rattle.store.specs.Refusals.{told, answer};

use crate::entries::{Entry, Words};
use crate::faults::StoreFault;

// A store of chains of units.
pub trait ChainStore {
    // The store's layer, and the most units that it can have: what its faults and its bounds name. Statements name them as
    // ghosts, and the check proves that those are the same numbers.
    const LAYER: u8;

    const MOST: u32;

    ghost LAYER: { ℕ };

    ghost MOST: { ℕ };

    // What the store means.
    ghost meaning: { Self → Store };

    // What always holds of it: code that is generic over the trait can use this.
    ghost lawful: { (s : Self) → Lawful MOST (meaning s) };

    // What a store keeps if it has it, and no call needs.
    // Kept: a clause of each call, and no invariant of a type, as there are stores that do not have it.
    ghost sound: { Self → Type 0 };

    // The unit in bytes.
    fn unit(&mut self) -> u32
        ensures told { result ≡ (meaning self.old).unit }
        ensures left { meaning self.new ≡ meaning self.old }
        ensures sound { sound self.old → sound self.new };

    // The units that can still be given.
    fn room(&mut self) -> u32
        ensures told { result ≡ (meaning self.old).room }
        ensures left { meaning self.new ≡ meaning self.old }
        ensures sound { sound self.old → sound self.new };

    // How many units the chain of a head has.
    fn units(&mut self, head: u32) -> Result<u32, StoreFault>
        ensures told { told result ≡ answer (due_head (meaning self.old) LAYER head) (units_of (meaning self.old) head) }
        ensures left { meaning self.new ≡ meaning self.old }
        ensures sound { sound self.old → sound self.new };

    // Fills the buffer with the bytes of a chain from an offset on.
    fn read(&mut self, head: u32, at: u64, out: &mut [u8]) -> Result<(), StoreFault>
        ensures told { told result ≡ answer (due_copy (meaning self.old) LAYER head (at + length out.old)) tt }
        ensures out { out.new ≡ read_into (meaning self.old) LAYER head at out.old }
        ensures left { meaning self.new ≡ meaning self.old }
        ensures sound { sound self.old → sound self.new };

    // Lays bytes over those of a chain from an offset on.
    fn write(&mut self, head: u32, at: u64, src: &[u8]) -> Result<(), StoreFault>
        ensures told { told result ≡ answer (due_copy (meaning self.old) LAYER head (at + length src.now)) tt }
        ensures left { meaning self.new ≡ wrote (meaning self.old) LAYER head at src.now }
        ensures sound { sound self.old → sound self.new };

    // A new chain of so many units of zeros; answers its head.
    fn begin(&mut self, count: u32) -> Result<u32, StoreFault>
        ensures begins { Begins (meaning self.old) LAYER count (told result) (meaning self.new) }
        ensures sound { sound self.old → sound self.new };

    // So many units of zeros more at a chain's end.
    fn extend(&mut self, head: u32, count: u32) -> Result<(), StoreFault>
        ensures told { told result ≡ answer (due_extend (meaning self.old) LAYER head count) tt }
        ensures left { meaning self.new ≡ extended (meaning self.old) LAYER head count }
        ensures sound { sound self.old → sound self.new };

    // The chain keeps its first `count` units.
    fn cut(&mut self, head: u32, count: u32) -> Result<(), StoreFault>
        ensures told { told result ≡ answer (due_cut (meaning self.old) LAYER head count) tt }
        ensures left { meaning self.new ≡ cut_to (meaning self.old) LAYER head count }
        ensures sound { sound self.old → sound self.new };

    // The chain is removed.
    fn free(&mut self, head: u32) -> Result<(), StoreFault>
        ensures told { told result ≡ answer (due_head (meaning self.old) LAYER head) tt }
        ensures left { meaning self.new ≡ freed (meaning self.old) LAYER head }
        ensures sound { sound self.old → sound self.new };
}

// A chain store that has entries and header words too. They are its notes, which chain calls keep.
pub trait Host: ChainStore {
    // How many entries there are.
    fn entries(&mut self) -> u32
        ensures told { result ≡ length (Self.ChainStore.meaning self.old).notes.entries }
        ensures hosted { Hosted (Self.ChainStore.meaning self.old) }
        ensures left { Self.ChainStore.meaning self.new ≡ Self.ChainStore.meaning self.old }
        ensures sound { Self.ChainStore.sound self.old → Self.ChainStore.sound self.new };

    // The entry with an id.
    fn entry(&mut self, id: u32) -> Result<Entry, StoreFault>
        ensures told { told result ≡ entry_of (Self.ChainStore.meaning self.old) Self.ChainStore.LAYER id }
        ensures left { Self.ChainStore.meaning self.new ≡ Self.ChainStore.meaning self.old }
        ensures sound { Self.ChainStore.sound self.old → Self.ChainStore.sound self.new };

    // Sets start and length of an entry; its kind stays.
    // Kept: start and length are two numbers, as an Extent would ask of callers that they go together.
    fn set_entry(&mut self, id: u32, start: u32, len: u32) -> Result<(), StoreFault>
        ensures told { told result ≡ answer (due_entry (Self.ChainStore.meaning self.old) Self.ChainStore.LAYER id) tt }
        ensures left { Self.ChainStore.meaning self.new ≡ entered (Self.ChainStore.meaning self.old) Self.ChainStore.LAYER id start len };

    // The header words.
    fn words(&mut self) -> Words
        ensures told { result ≡ (Self.ChainStore.meaning self.old).notes.words }
        ensures left { Self.ChainStore.meaning self.new ≡ Self.ChainStore.meaning self.old }
        ensures sound { Self.ChainStore.sound self.old → Self.ChainStore.sound self.new };

    // Sets the header words.
    fn set_words(&mut self, words: Words)
        ensures { Self.ChainStore.meaning self.new ≡ worded (Self.ChainStore.meaning self.old) words };

    // What always holds of a host besides: it has 1 to 1,024 entries, and units of 512 or 4,096 bytes.
    ghost hosted: { (s : Self) → Hosted (Self.ChainStore.meaning s) };
}
