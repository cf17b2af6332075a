//! `cfbook edit`: a script of workbook calls, against a workbook over a drawer, which the script itself has to open.

ghost use Rattle.cfbook.specs.Made.{Made};
ghost use Rattle.std.specs.Prelude.{map};

use crate::scripts::Maker;
use calls::faults::Fault as TextFault;
use drawer::Drawer;
use edits::answers::Answer;
use edits::lines::{NotACall, parse_words};
use replay::asks::ask;
use std::alloc::Global;
use store::faults::Fault;
use store::stores::Host;
use workbook::Workbook;

// Makes the call that the words of a line say, if there are some.
fn make<H: Host>(
    heap: Global,
    book: &mut Workbook<H>,
    words: &[&str],
) -> Result<Option<Result<Answer, Fault>>, TextFault<NotACall>>
    ensures { Made book.old (map (λ x. x.now) words.now) result book.new }
{
    let Some(edit) = parse_words(heap, words)? else {
        return Ok(None);
    };
    Ok(Some(ask(heap, book, &edit)?))
}

impl Maker for Workbook<Drawer> {
    type Answer = Answer;

    type Refusal = Fault;

    type Wrong = NotACall;

    fn make(
        &mut self,
        heap: Global,
        words: &[&str],
    ) -> Result<Option<Result<Answer, Fault>>, TextFault<NotACall>> {
        make(heap, self, words)
    }
}
