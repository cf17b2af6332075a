//! What is to become of a stream's chain.

ghost use Rattle.std.specs.Prelude.{◌≤◌};

use crate::homes::Home;

// A chain as it is and as it is to be: where it lies, its start and its units; where it is to lie, with how many; and how many
// of its bytes stay, which are no more than can be carried.
#[derive(Clone, Copy)]
pub(crate) struct Plan {
    pub(crate) from: Home,
    pub(crate) start: u32,
    pub(crate) have: u32,
    pub(crate) to: Home,
    pub(crate) want: u32,
    pub(crate) keep: usize,
    ghost few: { keep ≤ 4096 },
}
