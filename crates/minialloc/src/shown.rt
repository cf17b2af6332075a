//! The table as it is, for a layer above to show.

ghost use Rattle.minialloc.specs.States.{shown_links};
ghost use Rattle.std.specs.Prelude.{◌≡◌};

use crate::MiniStore;
use store::stores::Host;

impl<H: Host> MiniStore<H> {
    // The links of the table; none where it is shut.
    pub fn links(&self) -> &[u32]
        ensures { result.now ≡ shown_links self.now.state.0 }
    {
        if self.opened {
            self.table.links().as_slice()
        } else {
            &[]
        }
    }
}
