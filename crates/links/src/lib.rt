//! Link tables: which place of a store comes after which.
//!
//! A compound file chains its sectors by such a table (the FAT), and its mini sectors by another (the MiniFAT).
//! What a table means is a list of 32-bit numbers. Everything here is written once, for every kind of table.

#![tactic(auto)]

ghost use Rattle.std.specs.Prelude.{◌≡◌, ℕ, ◌≤◌, List, length, nat_lt, slice_set};
ghost use Rattle.std.specs.List.{slice_get};

pub mod checks;
pub mod consts;
pub mod held;
pub mod stacked;
pub mod theory;
pub mod walks;

pub trait LinkTable {
    // What the table means: its links, in the order of their places.
    ghost links: { Self → List ℕ };

    // How many links there are; no kind of table has more than 4,096.
    fn count(&self) -> u32
        ensures told { result ≡ length (links self.now) }
        ensures few { length (links self.now) ≤ 4096 };

    // The link at a place, or nothing where the place is not below the count.
    fn get(&self, place: u32) -> Option<u32>
        ensures { result ≡ slice_get (links self.now) place };

    // Sets the link at a place and says so, or sets nothing where the place is not below the count.
    // Kept: a bool, as the insert of the library's sets: most callers ask for no answer, and a Result would have each say so.
    fn set(&mut self, place: u32, link: u32) -> bool
        ensures told { result ≡ nat_lt place (length (links self.old)) }
        ensures after { links self.new ≡ slice_set (links self.old) place link };

    // No kind of table has more links than `count` may tell.
    ghost few: { (t : Self) → length (links t) ≤ 4096 };
}

#[cfg(test)]
mod tests;
