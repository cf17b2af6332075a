//! The workbook: streams by id, over any host. A stream is an entry of kind 2; below 4,096 bytes it lies in the mini store,
//! from there on in the host itself.

#![tactic(auto)]

ghost use Rattle.workbook.specs.Whole.{Holds};
ghost use Rattle.std.specs.Prelude.{◌≡◌};

use minialloc::MiniStore;
use store::stores::Host;

mod changes;
mod fits;
mod homes;
pub mod opening;
mod plans;
pub mod resizes;
pub mod shown;
pub mod streams;
pub mod writes;

// The workbook's layer in its faults.
pub const LAYER: u8 = 4;

// From this length on a stream lies in the host.
pub const MINI_STREAM_CUTOFF: u32 = 4096;

// The longest that a call can make a stream.
pub const MOST_LENGTH: u32 = 0x100_0000;

// A host, with the mini store over it, which is open while the workbook is.
#[derive(Drop)]
pub struct Workbook<H: Host> {
    store: MiniStore<H>,
    ghost whole: { Holds store.state.0 },
}
