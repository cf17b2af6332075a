//! What a workbook answers to a call.

ghost use Rattle.edits.specs.Scripts.{asked};
ghost use Rattle.minifat.specs.Told.{told_of};
ghost use Rattle.replay.specs.Replays.{reply, Asked, Fetched, carried, entry};
ghost use Rattle.std.specs.Prelude.{◌≡◌, MatchResult, vec_items};
ghost use Rattle.store.specs.Refusals.{told};
ghost use Rattle.workbook.specs.Promises.{state_of};

use calls::answers::LONGEST;
use edits::answers::Answer;
use edits::lines::Edit;
use std::alloc::{AllocError, Global};
use store::entries::Entry;
use store::faults::{Fault, StoreFault};
use store::stores::Host;
use workbook::Workbook;

// The bytes that a read tells, of any count: no stream has more than the longest.
fn fetch<H: Host>(
    heap: Global,
    book: &mut Workbook<H>,
    id: u32,
    at: u64,
    count: u64,
) -> Result<Result<Vec<u8>, Fault>, AllocError>
    ensures { MatchResult result (λ r. Fetched book.old id at count (told_of vec_items r) book.new) (λ _. state_of book.new ≡ state_of book.old) }
{
    let mut out = vec![in heap; 0u8; count.min(LONGEST) as usize]?;
    let got = book.read(id, at, out.as_mut_slice());
    Ok(got.map(|got| {
        out.truncate(got);
        out
    }))
}

// A store's fault, told as it is.
fn as_told(fault: StoreFault) -> Fault
    ensures { told_of {A = Entry} entry (Err result) ≡ carried (told (Err fault)) }
{
    Fault {
        refusal: fault.refusal,
        layer: fault.layer,
        place: fault.place,
        lower: None,
    }
}

// Makes a call of a workbook. Where there is no memory for its answer, nothing is changed.
pub fn ask<H: Host>(
    heap: Global,
    book: &mut Workbook<H>,
    edit: &Edit,
) -> Result<Result<Answer, Fault>, AllocError>
    ensures { MatchResult result (λ r. Asked book.old (asked edit.now) (told_of reply r) book.new) (λ _. state_of book.new ≡ state_of book.old) }
{
    match edit {
        Edit::Open(validation) => Ok(book.open(*validation).map(|()| Answer::Done)),
        Edit::Len(id) => Ok(book.len(*id).map(Answer::Length)),
        Edit::Read(id, at, count) => Ok(fetch(heap, book, *id, *at, *count)?.map(Answer::Bytes)),
        Edit::ReadHex(id, at, count) => Ok(fetch(heap, book, *id, *at, *count)?.map(Answer::Hex)),
        Edit::Write(id, at, bytes) => {
            let written = book.write(*id, *at, bytes.as_slice());
            Ok(written.map(|()| Answer::Done))
        }
        Edit::Resize(id, len) => Ok(book.resize(*id, *len).map(|()| Answer::Done)),
        Edit::Room => Ok(book.room().map(|room| Answer::Room(room.host, room.mini))),
        Edit::Header => Ok(Ok(Answer::Words(book.header()))),
        Edit::Entry(id) => Ok(book.entry(*id).map(Answer::Entry).map_err(as_told)),
        Edit::Links => Ok(Ok(Answer::Links(book.links().to_vec(heap)?))),
    }
}
