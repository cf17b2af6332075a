//! Opening in two steps: the table is asked for while the mini store may still be shut, and installed when the layer above
//! has looked at it.

ghost use Rattle.links.specs.Stack.{free_places};
ghost use Rattle.links.specs.Stacked.{stack_of};
ghost use Rattle.mini.specs.Mini.{Synced};
ghost use Rattle.minifat.specs.Table.{strictly, table_in, table_of};
ghost use Rattle.minifat.specs.Told.{told_of};
ghost use Rattle.std.specs.Prelude.{◌≡◌, true, false, IfOk};

use crate::MiniStore;
use links::stacked::Stacked;
use minifat::{Validation, read_table};
use store::faults::Fault;
use store::stores::{ChainStore, Host};

impl<H: Host> MiniStore<H> {
    // The table as the host has it, or the refusal. Nothing changes.
    pub fn read_table(&mut self, validation: Validation) -> Result<Stacked, Fault>
        ensures told { told_of table_in result ≡ table_of self.old.state.0.host H.ChainStore.LAYER (strictly validation) }
        ensures stack { IfOk result (λ s. stack_of s ≡ free_places (table_in s)) }
        ensures sound { IfOk result (λ s. Synced self.old.state.0.host (table_in s)) }
        ensures left { self.new.state.0 ≡ self.old.state.0 }
    {
        read_table(&mut self.host, validation)
    }

    // Opens with a table. Where the host does not bear it out, the mini store means what a shut one means.
    pub fn install(&mut self, table: Stacked)
        ensures { self.new.state.0 ≡ record { opened = true; host = self.old.state.0.host; links = table_in table; stack = stack_of table } }
    {
        self.table = table;
        self.opened = true;
    }

    // Shuts: there is neither chain nor room until a table is installed. The table that it has stays.
    pub fn shut(&mut self)
        ensures { self.new.state.0 ≡ record { opened = false; host = self.old.state.0.host; links = self.old.state.0.links; stack = self.old.state.0.stack } }
    {
        self.opened = false;
    }

    pub fn is_open(&self) -> bool
        ensures { result ≡ self.now.state.0.opened }
    {
        self.opened
    }
}
