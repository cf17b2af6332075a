//! What a store answers to a call.

ghost use Rattle.std.specs.Prelude.{◌≡◌, ◌+◌, take, drop, Some, IfOk, MatchResult};
ghost use Rattle.calls.specs.Answers.{Answered, reply, replied, bytes, answer_text, bytes_text, hexed};
ghost use Rattle.store.specs.Meaning.{bytes_of, due_copy};
ghost use Rattle.store.specs.Refusals.{told, answer};

use crate::lines::Call;
use script::fnv;
use std::alloc::{AllocError, Global};
use std::fmt;
use store::faults::StoreFault;
use store::stores::ChainStore;

// One byte more than any chain or stream has, so a longer read or write is refused as one of this size is.
pub const LONGEST: u64 = 16_777_217;

// No more bytes than these are printed one by one.
const FEW: usize = 64;

// What a call is answered with.
#[derive(Drop)]
pub enum Answer {
    Done,
    Number(u32),
    Bytes(Vec<u8>),
}

// Bytes in hexadecimal; no bytes as `-`.
#[derive(Drop)]
pub struct Hexed<'a>(pub &'a [u8]);

impl fmt::Display for Hexed<'_> {
    ghost output = { λ h. Some (hexed h.0.now) };

    fn fmt<W: fmt::Write>(&self, f: &mut fmt::Formatter<W>) -> fmt::Result {
        if self.0.is_empty() {
            return write!(f, "-");
        }
        for byte in self.0 {
            let byte = *byte;
            write!(f, "{byte:02x}")?;
        }
        Ok(())
    }
}

// Bytes, as they are printed: in hexadecimal, and many of them by their hash.
#[derive(Drop)]
pub struct Shown<'a>(pub &'a [u8]);

impl fmt::Display for Shown<'_> {
    ghost output = { λ s. Some (bytes_text s.0.now) };

    fn fmt<W: fmt::Write>(&self, f: &mut fmt::Formatter<W>) -> fmt::Result {
        if self.0.len() > FEW {
            let hash = fnv(self.0);
            return write!(f, "fnv:{hash:016x}");
        }
        let hexed = Hexed(self.0);
        write!(f, "{hexed}")
    }
}

impl fmt::Display for Answer {
    ghost output = { λ a. Some (answer_text a) };

    fn fmt<W: fmt::Write>(&self, f: &mut fmt::Formatter<W>) -> fmt::Result {
        match self {
            Answer::Done => write!(f, "ok"),
            Answer::Number(number) => write!(f, "ok {number}"),
            Answer::Bytes(bytes) => {
                let count = bytes.len();
                let shown = Shown(bytes.as_slice());
                write!(f, "ok {count} {shown}")
            }
        }
    }
}

// The answer to a read, of any count: what no chain has is refused and not made room for.
fn fetch<S: ChainStore>(
    heap: Global,
    store: &mut S,
    head: u32,
    at: u64,
    count: u64,
) -> Result<Result<Answer, StoreFault>, AllocError>
    ensures told { IfOk result (λ a. replied reply (told a) ≡ replied bytes (answer (due_copy (S.ChainStore.meaning store.old) S.ChainStore.LAYER head (at + count)) (take count (drop at (bytes_of (S.ChainStore.meaning store.old) head))))) }
    ensures left { S.ChainStore.meaning store.new ≡ S.ChainStore.meaning store.old }
    ensures sound { S.ChainStore.sound store.old → S.ChainStore.sound store.new }
{
    let mut out = vec![in heap; 0u8; count.min(LONGEST) as usize]?;
    let read = store.read(head, at, out.as_mut_slice());
    Ok(read.map(|()| Answer::Bytes(out)))
}

// Makes a call against a store. Where a read finds no memory for its answer, nothing is changed.
pub fn ask<S: ChainStore>(
    heap: Global,
    store: &mut S,
    call: Call,
) -> Result<Result<Answer, StoreFault>, AllocError>
    ensures answered { MatchResult result (λ a. Answered (S.ChainStore.meaning store.old) S.ChainStore.LAYER call (replied reply (told a)) (S.ChainStore.meaning store.new)) (λ _. S.ChainStore.meaning store.new ≡ S.ChainStore.meaning store.old) }
    ensures sound { S.ChainStore.sound store.old → S.ChainStore.sound store.new }
{
    match call {
        Call::Begin(count) => Ok(store.begin(count).map(Answer::Number)),
        Call::Extend(head, count) => Ok(store.extend(head, count).map(|()| Answer::Done)),
        Call::Cut(head, count) => Ok(store.cut(head, count).map(|()| Answer::Done)),
        Call::Free(head) => Ok(store.free(head).map(|()| Answer::Done)),
        Call::Units(head) => Ok(store.units(head).map(Answer::Number)),
        Call::Room => Ok(Ok(Answer::Number(store.room()))),
        Call::Read(head, at, count) => fetch(heap, store, head, at, count),
        Call::Write(head, at, bytes) => {
            let written = store.write(head, at, bytes.as_slice());
            Ok(written.map(|()| Answer::Done))
        }
    }
}
