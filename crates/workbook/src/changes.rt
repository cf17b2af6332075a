//! What becomes of a stream's chain when its length changes: in one store it grows or is cut, and from one store to the other
//! its bytes are carried. The workbook calls these when it has seen that nothing can refuse them.

ghost use Rattle.std.specs.Prelude.{◌≡◌};
ghost use Rattle.store.specs.Refusals.{told};
ghost use Rattle.workbook.specs.Steps.{Stretching, Carrying, Rebuilding};

use crate::homes::Home;
use crate::plans::Plan;
use links::consts::END_OF_CHAIN;
use minialloc::MiniStore;
use store::faults::StoreFault;
use store::stores::{ChainStore, Host};

// What is carried lies in the mini store before or after, where no stream has more bytes.
const MOST_CARRIED: usize = 4096;

// A chain of so many units gets as many as are wanted.
fn stretch<H: Host>(
    store: &mut MiniStore<H>,
    home: Home,
    head: u32,
    have: u32,
    want: u32,
) -> Result<(), StoreFault>
    ensures { Stretching H.ChainStore.MOST H.ChainStore.LAYER home head have want store.old.state.0 (told result) store.new.state.0 }
{
    if have < want {
        home.extend(store, head, want - have)
    } else if want < have {
        home.cut(store, head, want)
    } else {
        Ok(())
    }
}

// The first bytes of a chain are carried to a new one, when the old is gone; answers where it starts.
fn carry<H: Host>(store: &mut MiniStore<H>, plan: Plan) -> Result<u32, StoreFault>
    ensures { Carrying H.ChainStore.MOST H.ChainStore.LAYER plan store.old.state.0 (told result) store.new.state.0 }
{
    let mut bytes = [0; MOST_CARRIED];
    let kept = &mut bytes[..plan.keep];
    plan.from.read(store, plan.start, 0, kept)?;
    plan.from.free(store, plan.start)?;
    let start = plan.to.begin(store, plan.want)?;
    plan.to.write(store, start, 0, kept)?;
    Ok(start)
}

// A chain goes, comes, or becomes another; answers where the new one starts.
pub(crate) fn rebuild<H: Host>(store: &mut MiniStore<H>, plan: Plan) -> Result<u32, StoreFault>
    ensures { Rebuilding H.ChainStore.MOST H.ChainStore.LAYER plan store.old.state.0 (told result) store.new.state.0 }
{
    if plan.want == 0 {
        if plan.have > 0 {
            plan.from.free(store, plan.start)?;
        }
        return Ok(END_OF_CHAIN);
    }
    if plan.have == 0 {
        return plan.to.begin(store, plan.want);
    }
    if plan.from != plan.to {
        return carry(store, plan);
    }
    stretch(store, plan.to, plan.start, plan.have, plan.want)?;
    Ok(plan.start)
}
