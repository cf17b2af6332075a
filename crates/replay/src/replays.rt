//! A list of calls, replayed over a host.

ghost use Rattle.edits.specs.Scripts.{asked};
ghost use Rattle.minifat.specs.Told.{told_of};
ghost use Rattle.replay.specs.Replays.{reply, Replayed};
ghost use Rattle.std.specs.Prelude.{IfOk, map};

use crate::asks::ask;
use edits::answers::Answer;
use edits::lines::Edit;
use std::alloc::{AllocError, Global};
use store::faults::Fault;
use store::stores::{ChainStore, Host};
use workbook::Workbook;

// Makes a workbook over a host, and on it the calls, one after the other; tells what each was answered.
pub fn replay<H: Host + Drop>(
    heap: Global,
    host: H,
    edits: &[Edit],
) -> Result<Vec<Result<Answer, Fault>>, AllocError>
    ensures { IfOk result (λ v. Replayed H.ChainStore.MOST H.ChainStore.LAYER (H.ChainStore.meaning host) (map asked edits.now) (map (told_of reply) v.items)) }
{
    let mut book = Workbook::new(host);
    let mut answers = Vec::new(heap);
    for edit in edits {
        let answer = ask(heap, &mut book, edit)?;
        answers.push(answer)?;
    }
    Ok(answers)
}
