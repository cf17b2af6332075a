//! Making a stream's chain fit a length.

ghost use Rattle.std.specs.Prelude.{◌≡◌};
ghost use Rattle.minifat.specs.Told.{told_of};
ghost use Rattle.workbook.specs.Calls.{Fitted};
ghost use Rattle.workbook.specs.Steps.{PlanOf, need_for, room_for};

use crate::changes::rebuild;
use crate::homes::Home;
use crate::plans::Plan;
use crate::streams::refused;
use crate::{MOST_LENGTH, Workbook};
use store::entries::Entry;
use store::faults::{Fault, Refusal};
use store::stores::{ChainStore, Host};

impl Plan {
    // The units that it needs.
    pub(crate) fn need(&self) -> u32
        ensures { result ≡ need_for self.now }
    {
        if self.from == self.to {
            self.want.saturating_sub(self.have)
        } else {
            self.want
        }
    }
}

impl<H: Host> Workbook<H> {
    // What is to become of a stream's chain when the stream is to have such a length.
    fn plan(&mut self, entry: Entry, len: u32) -> Plan
        ensures told { PlanOf self.old.store.state.0 entry len result }
        ensures left { self.new.store.state.0 ≡ self.old.store.state.0 }
    {
        let from = Home::of(entry.length);
        let to = Home::of(u64::from(len));
        let have = from.units(&mut self.store, entry.start).unwrap_or(0);
        let unit = to.unit(&mut self.store);
        let keep = entry.length.min(u64::from(len)).min(4096) as usize;
        Plan {
            from,
            start: entry.start,
            have,
            to,
            want: len.div_ceil(unit),
            keep,
        }
    }

    // The room for what a plan needs.
    fn room_for(&mut self, plan: Plan) -> u32
        ensures told { result ≡ room_for self.old.store.state.0 plan }
        ensures left { self.new.store.state.0 ≡ self.old.store.state.0 }
    {
        match (plan.from, plan.to) {
            (Home::Host, Home::Mini) => self.store.mini_room_with(plan.have),
            _ => plan.to.room(&mut self.store),
        }
    }

    // Gives a stream the chain that a length needs, in the store where a stream of that length lies, and its entry the start
    // and the length; answers the start.
    pub(crate) fn fit(&mut self, id: u32, len: u64) -> Result<u32, Fault>
        ensures { Fitted H.ChainStore.MOST H.ChainStore.LAYER self.old.store.state.0 id len (told_of (λ h. h) result) self.new.store.state.0 }
    {
        let entry = self.stream(id)?;
        if len > u64::from(MOST_LENGTH) {
            return Err(refused(Refusal::TooLong, id, None));
        }
        let len = len as u32;
        let plan = self.plan(entry, len);
        if plan.need() > self.room_for(plan) {
            return Err(refused(Refusal::NoRoom, id, None));
        }
        let start = rebuild(&mut self.store, plan)?;
        self.store.set_entry(id, start, len)?;
        Ok(start)
    }
}
