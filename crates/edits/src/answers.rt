//! How the answers of a workbook are printed.

ghost use Rattle.edits.specs.Answers.{link_text, links_text, answer_text};
ghost use Rattle.std.specs.Prelude.{Some};

use calls::answers::{Hexed, Shown};
use links::consts::{END_OF_CHAIN, FREE_SECTOR, MAX_REGULAR_SECTOR};
use std::fmt;
use store::entries::{Entry, Words};

// What a call of a workbook is answered with.
#[derive(Drop)]
pub enum Answer {
    Done,
    Length(u64),
    Bytes(Vec<u8>),
    Hex(Vec<u8>),
    Room(u32, u32),
    Words(Words),
    Entry(Entry),
    Links(Vec<u32>),
}

// A link: the number of a place, or END, FREE, or one of the three numbers that are neither.
#[derive(Clone, Copy)]
struct Link(u32);

impl fmt::Display for Link {
    ghost output = { λ l. Some (link_text l.0) };

    fn fmt<W: fmt::Write>(&self, f: &mut fmt::Formatter<W>) -> fmt::Result {
        let link = self.0;
        match link {
            END_OF_CHAIN => write!(f, "END"),
            FREE_SECTOR => write!(f, "FREE"),
            0..=MAX_REGULAR_SECTOR => write!(f, "{link}"),
            _ => write!(f, "0x{link:08x}"),
        }
    }
}

// Links, each behind a blank.
#[derive(Drop)]
struct Row<'a>(&'a [u32]);

impl fmt::Display for Row<'_> {
    ghost output = { λ r. Some (links_text r.0.now) };

    fn fmt<W: fmt::Write>(&self, f: &mut fmt::Formatter<W>) -> fmt::Result {
        for link in self.0 {
            let link = Link(*link);
            write!(f, " {link}")?;
        }
        Ok(())
    }
}

impl fmt::Display for Answer {
    ghost output = { λ a. Some (answer_text a) };

    fn fmt<W: fmt::Write>(&self, f: &mut fmt::Formatter<W>) -> fmt::Result {
        match self {
            Answer::Done => write!(f, "ok"),
            Answer::Length(length) => write!(f, "ok {length}"),
            Answer::Bytes(bytes) => {
                let count = bytes.len();
                let shown = Shown(bytes.as_slice());
                write!(f, "ok {count} {shown}")
            }
            Answer::Hex(bytes) => {
                let count = bytes.len();
                let hexed = Hexed(bytes.as_slice());
                write!(f, "ok {count} {hexed}")
            }
            Answer::Room(host, mini) => write!(f, "ok {host} {mini}"),
            Answer::Words(words) => {
                let start = Link(words.start);
                let count = words.count;
                write!(f, "ok {start} {count}")
            }
            Answer::Entry(entry) => {
                let kind = u8::from(entry.kind);
                let start = Link(entry.start);
                let length = entry.length;
                write!(f, "ok {kind} {start} {length}")
            }
            Answer::Links(links) => {
                let count = links.len();
                let row = Row(links.as_slice());
                write!(f, "ok {count}{row}")
            }
        }
    }
}
