//! Units kept in memory, 64 of 512 bytes, each noting the head of its chain and its rank in it.

#![tactic(auto)]

ghost use Rattle.cells.specs.Noted.{Unique, Down, Named};
ghost use Rattle.std.specs.Prelude.{◌≡◌, length};

pub mod calls;
pub mod copies;

// The size of a unit in bytes, and how many units there are.
pub const UNIT: usize = 512;

pub const UNITS: u32 = 64;

// What a unit on a chain notes: the head of the chain, and its rank in it.
#[derive(Clone, Copy, PartialEq, Eq, Debug)]
pub struct Note {
    pub head: u32,
    pub rank: u32,
}

// What each unit notes, nothing where it is on no chain; and the bytes of all units.
#[derive(Drop)]
pub struct Cells {
    notes: [Option<Note>; UNITS as usize],
    // Kept: an array of its own beside the notes, as the view over which copying is proved is one list of all units' bytes.
    bytes: [u8; UNITS as usize * UNIT],
    ghost counted: { length notes ≡ 64 },
    ghost filled: { length bytes ≡ 32768 },
    // No two units note the same.
    ghost unique: { Unique notes },
    // No rank is left out.
    ghost down: { Down notes },
    // The first unit of a chain names its head.
    ghost named: { Named notes },
}
