//! The numbers that a link can be. 0 to 0xfffffffa are pointers: the number of the next place.
//! The three numbers between the pointers and END are neither pointer, END nor FREE, and may stand in a table.
// Kept: links are numbers and no enum. Any number may stand in a table, so an enum would need a variant for the others, each
// get and set would convert, and a table of 4,096 would take more than its 16 KiB.

// The largest pointer.
pub const MAX_REGULAR_SECTOR: u32 = 0xffff_fffa;

// Marks a sector of the FAT itself.
pub const FAT_SECTOR: u32 = 0xffff_fffd;

// Marks a sector of the DIFAT.
pub const DIFAT_SECTOR: u32 = 0xffff_fffc;

// The format leaves it unused.
pub const INVALID_SECTOR: u32 = 0xffff_fffb;

// The place is the last of its chain.
pub const END_OF_CHAIN: u32 = 0xffff_fffe;

// The place is on no chain.
pub const FREE_SECTOR: u32 = 0xffff_ffff;

// The most links that a table has.
pub const MOST_LINKS: u32 = 4096;
