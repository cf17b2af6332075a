//! `cfbook drawer` and `cfbook mini`: a script of chain calls, for any chain store.

ghost use Rattle.cfbook.specs.Made.{MadeOf};
ghost use Rattle.std.specs.Prelude.{map};

use crate::scripts::Maker;
use calls::answers::{Answer, ask};
use calls::faults::Fault;
use calls::lines::{NotACall, parse_words};
use drawer::Drawer;
use minialloc::MiniStore;
use std::alloc::Global;
use store::faults::StoreFault;
use store::stores::ChainStore;

// Makes the call that the words of a line say, if there are some.
fn make<S: ChainStore>(
    heap: Global,
    store: &mut S,
    words: &[&str],
) -> Result<Option<Result<Answer, StoreFault>>, Fault<NotACall>>
    ensures { MadeOf (S.ChainStore.meaning store.old) S.ChainStore.LAYER (map (λ x. x.now) words.now) result (S.ChainStore.meaning store.new) }
{
    let Some(call) = parse_words(heap, words)? else {
        return Ok(None);
    };
    Ok(Some(ask(heap, store, call)?))
}

impl Maker for Drawer {
    type Answer = Answer;

    type Refusal = StoreFault;

    type Wrong = NotACall;

    fn make(
        &mut self,
        heap: Global,
        words: &[&str],
    ) -> Result<Option<Result<Answer, StoreFault>>, Fault<NotACall>> {
        make(heap, self, words)
    }
}

impl Maker for MiniStore<Drawer> {
    type Answer = Answer;

    type Refusal = StoreFault;

    type Wrong = NotACall;

    fn make(
        &mut self,
        heap: Global,
        words: &[&str],
    ) -> Result<Option<Result<Answer, StoreFault>>, Fault<NotACall>> {
        make(heap, self, words)
    }
}
